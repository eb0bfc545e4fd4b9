//! Slots of a frame.

ghost use Rattle.std.specs.Prelude.{◌≡◌, ◌<◌, ◌≤◌, ◌+◌, ◌*◌, ◌^◌, ◌++◌, [], ◌∷◌, OnOk, length};
ghost use Rattle.ax_emit.specs.Atomics.{gets_all, puts_all};
ghost use Rattle.ax_emit.specs.Table.{put};
ghost use Rattle.ax_tags.specs.declared.tags.Tag.TheVariants.{Act};
ghost use Rattle.ax_expand.specs.Standing.{silently};
ghost use Rattle.ax_emit_rv.specs.Code.{get_one, get_two, homes_from};
ghost use Rattle.ax_emit_rv.specs.Emitters.{slot_of};
ghost use Rattle.ax_emit_rv.specs.Slots.{below, down, far_address, get, put_first, put_last, rv_table};

use crate::parts::{Piece, push_acting, push_silent};
use ax_mid::Virtual;
use ax_rv::{Binary, LoadForm, RvInstr, StoreForm};
use std::alloc::AllocError;

// The stack pointer, and the register for the address of a slot that lies far from it.
pub(crate) const STACK: u8 = 2;

const FAR: u8 = 8;

// The register of a number on its way to a slot.
pub(crate) const NUMBER: u8 = 7;

// So many slots are reached by a displacement of 12 bits.
const NEAR_SLOTS: u32 = 256;

/// The displacement from the stack pointer to a near slot.
fn displacement(slot: u32) -> i16
    requires { slot < 256 }
    ensures { result ≡ below slot }
{
    -1 - (8 * slot + 7) as i16
}

/// A number down from another, mod 2^64.
pub(crate) fn down(n: u64) -> u64
    requires { 0 < n }
    ensures { result ≡ down n }
{
    u64::MAX - (n - 1)
}

/// Appends code that puts the address of a slot into a register.
fn push_far_address(out: &mut Piece, slot: u32) -> Result<(), AllocError>
    ensures { OnOk result (out.new.items ≡ out.old.items ++ silently (far_address slot)) }
{
    push_silent(
        out,
        RvInstr::Li {
            rd: FAR,
            n: down(8 * (slot as u64 + 1)),
        },
    )?;
    push_silent(
        out,
        RvInstr::Binary {
            op: Binary::Add,
            rd: FAR,
            rs1: STACK,
            rs2: FAR,
        },
    )?;
    Ok(())
}

/// Appends code that gives a register the number of a slot.
pub(crate) fn push_get(out: &mut Piece, rd: u8, slot: u32) -> Result<(), AllocError>
    ensures { OnOk result (out.new.items ≡ out.old.items ++ silently (get rd slot)) }
{
    let form = LoadForm::Double;
    if slot < NEAR_SLOTS {
        let d = displacement(slot);
        push_silent(
            out,
            RvInstr::Load {
                form,
                rd,
                d,
                rs1: STACK,
            },
        )?;
    } else {
        push_far_address(out, slot)?;
        push_silent(
            out,
            RvInstr::Load {
                form,
                rd,
                d: 0,
                rs1: FAR,
            },
        )?;
    }
    Ok(())
}

/// How many instructions give a register the number of a slot.
pub(crate) fn size_of_get(slot: u32) -> u32
    ensures { result ≡ length (gets_all rv_table ((5, slot) ∷ [])) }
{
    if slot < NEAR_SLOTS { 1 } else { 3 }
}

/// Appends what stands before the store of a register to a slot.
fn push_put_first(out: &mut Piece, slot: u32) -> Result<(), AllocError>
    ensures { OnOk result (out.new.items ≡ out.old.items ++ silently (put_first slot 7)) }
{
    if slot >= NEAR_SLOTS {
        push_far_address(out, slot)?;
    }
    Ok(())
}

/// The store of a register to a slot.
fn put_last(slot: u32, rs2: u8) -> RvInstr
    ensures { result ≡ put_last slot rs2 }
{
    let form = StoreForm::Double;
    if slot < NEAR_SLOTS {
        RvInstr::Store {
            form,
            rs2,
            d: displacement(slot),
            rs1: STACK,
        }
    } else {
        RvInstr::Store {
            form,
            rs2,
            d: 0,
            rs1: FAR,
        }
    }
}

/// Appends code that gives a slot the number of a register.
fn push_put(out: &mut Piece, slot: u32, rs2: u8) -> Result<(), AllocError>
    ensures { OnOk result (out.new.items ≡ out.old.items ++ silently (put rv_table slot rs2)) }
{
    push_put_first(out, slot)?;
    push_silent(out, put_last(slot, rs2))?;
    Ok(())
}

/// Appends code that gives a slot the number of register 7, which is the event.
pub(crate) fn push_result(out: &mut Piece, slot: u32) -> Result<(), AllocError>
    ensures { OnOk result (out.new.items ≡ out.old.items ++ (silently (put_first slot 7) ++ (put_last slot 7, Act) ∷ [])) }
{
    push_put_first(out, slot)?;
    push_acting(out, put_last(slot, NUMBER))?;
    Ok(())
}

/// Appends code that gives a register the number of another one's slot.
pub(crate) fn push_get_one(out: &mut Piece, rd: u8, from: Virtual) -> Result<(), AllocError>
    ensures { OnOk result (out.new.items ≡ out.old.items ++ silently (get_one slot_of rd from)) }
{
    push_get(out, rd, from.0)?;
    Ok(())
}

/// Appends code that gives registers 5 and 6 the numbers of slots.
pub(crate) fn push_get_two(out: &mut Piece, left: Virtual, right: Virtual) -> Result<(), AllocError>
    ensures { OnOk result (out.new.items ≡ out.old.items ++ silently (get_two slot_of left right)) }
{
    push_get(out, 5, left.0)?;
    push_get(out, 6, right.0)?;
    Ok(())
}

/// Appends code that gives registers 5, 6 and 7 the numbers of slots.
pub(crate) fn push_get_three(
    out: &mut Piece,
    test: Virtual,
    x: Virtual,
    y: Virtual,
) -> Result<(), AllocError>
    ensures { OnOk result (out.new.items ≡ out.old.items ++ silently (gets_all rv_table ((5, slot_of test) ∷ (6, slot_of x) ∷ (7, slot_of y) ∷ []))) }
{
    push_get(out, 5, test.0)?;
    push_get(out, 6, x.0)?;
    push_get(out, 7, y.0)?;
    Ok(())
}

/// Appends code that gives another one's slot the number of a register.
pub(crate) fn push_put_one(out: &mut Piece, rs: u8, to: Virtual) -> Result<(), AllocError>
    ensures { OnOk result (out.new.items ≡ out.old.items ++ silently (puts_all rv_table ((rs, slot_of to) ∷ []))) }
{
    push_put(out, to.0, rs)?;
    Ok(())
}

/// Appends code that gives registers from a number on the numbers of slots.
pub(crate) fn push_gets(out: &mut Piece, first: u8, from: &[Virtual]) -> Result<(), AllocError>
    requires { first + length from.now ≤ 32 }
    ensures { OnOk result (out.new.items ≡ out.old.items ++ silently (gets_all rv_table (homes_from slot_of first from.now))) }
{
    let mut rd = first;
    for register in from {
        push_get(out, rd, register.0)?;
        rd += 1;
    }
    Ok(())
}

/// Appends code that gives slots the numbers of registers from a number on.
pub(crate) fn push_puts(out: &mut Piece, first: u8, to: &[Virtual]) -> Result<(), AllocError>
    requires { first + length to.now ≤ 32 }
    ensures { OnOk result (out.new.items ≡ out.old.items ++ silently (puts_all rv_table (homes_from slot_of first to.now))) }
{
    let mut rs = first;
    for register in to {
        push_put(out, register.0, rs)?;
        rs += 1;
    }
    Ok(())
}
