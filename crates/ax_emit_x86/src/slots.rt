//! Slots of a frame.

ghost use Rattle.std.specs.Prelude.{◌≡◌, ◌<◌, ◌+◌, ◌*◌, ◌^◌, ◌++◌, [], ◌∷◌, OnOk};
ghost use Rattle.ax_emit.specs.Atomics.{gets_all, puts_all};
ghost use Rattle.ax_tags.specs.declared.tags.Tag.TheVariants.{Act};
ghost use Rattle.ax_expand.specs.Standing.{silently};
ghost use Rattle.ax_emit_x86.specs.Code.{home, homes_from};
ghost use Rattle.ax_emit_x86.specs.Emitters.{AreReached, IsReached, slot_of};
ghost use Rattle.ax_emit_x86.specs.Slots.{down, get, put_last, reached_slots, slot_operand, x86_table};

use crate::parts::{Piece, push_acting, push_silent};
use ax_mid::Virtual;
use ax_x86::{MemoryOperand, Size, X86Instr};
use std::alloc::AllocError;

pub(crate) const RAX: u8 = 0;

pub(crate) const RCX: u8 = 1;

pub(crate) const RDX: u8 = 2;

pub(crate) const RBX: u8 = 3;

// The stack pointer.
pub(crate) const RSP: u8 = 4;

pub(crate) const RSI: u8 = 6;

pub(crate) const RDI: u8 = 7;

/// The bytes of a slot, which a displacement from the stack pointer reaches.
fn slot_operand(slot: u32) -> MemoryOperand
    requires { slot < reached_slots }
    ensures { result ≡ slot_operand slot }
{
    MemoryOperand {
        displacement: -1 - (8 * slot + 7) as i32,
        base: RSP,
    }
}

/// A number down from another, mod 2^64.
pub(crate) fn down(n: u64) -> u64
    requires { 0 < n }
    ensures { result ≡ down n }
{
    u64::MAX - (n - 1)
}

/// Appends code that gives a register the number of another one's slot.
pub(crate) fn push_get(out: &mut Piece, to: u8, from: Virtual) -> Result<(), AllocError>
    requires { IsReached from }
    ensures { OnOk result (out.new.items ≡ out.old.items ++ silently (get to (slot_of from))) }
{
    push_silent(
        out,
        X86Instr::Load {
            size: Size::Quad,
            memory: slot_operand(from.0),
            to,
        },
    )
}

/// The store of a register to another one's slot.
fn put_last(to: Virtual, from: u8) -> X86Instr
    requires { IsReached to }
    ensures { result ≡ put_last (slot_of to) from }
{
    X86Instr::Store {
        size: Size::Quad,
        from,
        memory: slot_operand(to.0),
    }
}

/// Appends code that gives another one's slot the number of a register.
pub(crate) fn push_put(out: &mut Piece, to: Virtual, from: u8) -> Result<(), AllocError>
    requires { IsReached to }
    ensures { OnOk result (out.new.items ≡ out.old.items ++ silently (put_last (slot_of to) from ∷ [])) }
{
    push_silent(out, put_last(to, from))
}

/// Appends code that gives another one's slot the number of rax, which is the event.
pub(crate) fn push_result(out: &mut Piece, to: Virtual) -> Result<(), AllocError>
    requires { IsReached to }
    ensures { OnOk result (out.new.items ≡ out.old.items ++ (put_last (slot_of to) 0, Act) ∷ []) }
{
    push_acting(out, put_last(to, RAX))
}

/// The register of the k-th number that an operation takes, or gives.
fn home(k: usize) -> u8
    ensures { result ≡ home k }
{
    match k {
        0 => RAX,
        1 => RDX,
        2 => RBX,
        _ => RCX,
    }
}

/// Appends code that gives the registers of an operation's numbers those of slots.
pub(crate) fn push_gets(out: &mut Piece, from: &[Virtual]) -> Result<(), AllocError>
    requires { AreReached from.now }
    ensures { OnOk result (out.new.items ≡ out.old.items ++ silently (gets_all x86_table (homes_from slot_of 0 from.now))) }
{
    for (k, register) in from.iter().enumerate() {
        push_get(out, home(k), *register)?;
    }
    Ok(())
}

/// Appends code that gives slots the numbers that an operation gives.
pub(crate) fn push_puts(out: &mut Piece, to: &[Virtual]) -> Result<(), AllocError>
    requires { AreReached to.now }
    ensures { OnOk result (out.new.items ≡ out.old.items ++ silently (puts_all x86_table (homes_from slot_of 0 to.now))) }
{
    for (k, register) in to.iter().enumerate() {
        push_put(out, *register, home(k))?;
    }
    Ok(())
}
