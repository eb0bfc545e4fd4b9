//! Slots of a frame.

ghost use Rattle.std.specs.Prelude.{◌≡◌, ◌≤◌, ◌+◌, ◌++◌, [], ◌∷◌, OnOk, length};
ghost use Rattle.ax_emit.specs.Atomics.{gets_all, puts_all};
ghost use Rattle.ax_emit.specs.Table.{put};
ghost use Rattle.ax_tags.specs.declared.tags.Tag.TheVariants.{Act};
ghost use Rattle.ax_expand.specs.Standing.{silently};
ghost use Rattle.ax_emit_arm.specs.Code.{homes_from};
ghost use Rattle.ax_emit_arm.specs.Emitters.{slot_of};
ghost use Rattle.ax_emit_arm.specs.Slots.{arm_table, get, put_first, put_last, slot_address};

use crate::parts::{Piece, push_acting, push_silent};
use ax_arm::{Alu, ArmInstr, Size};
use ax_mid::Virtual;
use std::alloc::AllocError;

// The register of a number on its way to a slot, and that of the address of an access.
pub(crate) const NUMBER: u8 = 0;

pub(crate) const ADDRESS: u8 = 1;

pub(crate) const STACK: u8 = 31;

// The register for the address of a slot.
const SLOT: u8 = 29;

/// Appends code that puts the address of a slot into a register.
fn push_slot_address(out: &mut Piece, slot: u32) -> Result<(), AllocError>
    ensures { OnOk result (out.new.items ≡ out.old.items ++ silently (slot_address slot)) }
{
    push_silent(
        out,
        ArmInstr::Constant {
            rd: SLOT,
            n: 8 * (slot as u64 + 1),
        },
    )?;
    push_silent(
        out,
        ArmInstr::Alu {
            op: Alu::Sub,
            rd: SLOT,
            rn: STACK,
            rm: SLOT,
        },
    )?;
    Ok(())
}

/// Appends code that gives a register the number of another one's slot.
pub(crate) fn push_get(out: &mut Piece, rt: u8, from: Virtual) -> Result<(), AllocError>
    ensures { OnOk result (out.new.items ≡ out.old.items ++ silently (get rt (slot_of from))) }
{
    push_slot_address(out, from.0)?;
    push_silent(
        out,
        ArmInstr::Ldr {
            size: Size::Double,
            rt,
            rn: SLOT,
            d: 0,
        },
    )?;
    Ok(())
}

/// The store of a register to the slot whose address was put into a register.
fn store_in(rt: u8) -> ArmInstr
    ensures { result ≡ ArmInstr.Str Size.Double rt 29 0 }
{
    ArmInstr::Str {
        size: Size::Double,
        rt,
        rn: SLOT,
        d: 0,
    }
}

/// Appends code that gives another one's slot the number of a register.
pub(crate) fn push_put(out: &mut Piece, to: Virtual, rt: u8) -> Result<(), AllocError>
    ensures { OnOk result (out.new.items ≡ out.old.items ++ silently (put arm_table (slot_of to) rt)) }
{
    push_slot_address(out, to.0)?;
    push_silent(out, store_in(rt))?;
    Ok(())
}

/// Appends code that gives another one's slot the number of register 0, which is the event.
pub(crate) fn push_result(out: &mut Piece, to: Virtual) -> Result<(), AllocError>
    ensures { OnOk result (out.new.items ≡ out.old.items ++ (silently (put_first (slot_of to) 0) ++ (put_last (slot_of to) 0, Act) ∷ [])) }
{
    push_slot_address(out, to.0)?;
    push_acting(out, store_in(NUMBER))?;
    Ok(())
}

/// Appends code that gives registers from a number on the numbers of slots.
pub(crate) fn push_gets(out: &mut Piece, first: u8, from: &[Virtual]) -> Result<(), AllocError>
    requires { first + length from.now ≤ 32 }
    ensures { OnOk result (out.new.items ≡ out.old.items ++ silently (gets_all arm_table (homes_from slot_of first from.now))) }
{
    let mut rt = first;
    for register in from {
        push_get(out, rt, *register)?;
        rt += 1;
    }
    Ok(())
}

/// Appends code that gives slots the numbers of registers from a number on.
pub(crate) fn push_puts(out: &mut Piece, first: u8, to: &[Virtual]) -> Result<(), AllocError>
    requires { first + length to.now ≤ 32 }
    ensures { OnOk result (out.new.items ≡ out.old.items ++ silently (puts_all arm_table (homes_from slot_of first to.now))) }
{
    let mut rt = first;
    for register in to {
        push_put(out, *register, rt)?;
        rt += 1;
    }
    Ok(())
}
