//! The code before a masked loop and behind it.

ghost use Rattle.std.specs.Prelude.{◌≡◌, ◌++◌, [], ◌∷◌, OnOk};
ghost use Rattle.ax_expand.specs.Standing.{silently};
ghost use Rattle.ax_mask.specs.Codes.{above, compares, exchange_setup, find_word, ones, placed_if, take_out, to_place, to_top, update_setup};

use crate::parts::{push_binary, push_unary};
use crate::registers::{ADDRESS, DESIRED, MASK, NUMBER, OPERAND, PLACED, RESULT, UP, WORD};
use ax_emit_rv::{Piece, push_silent};
use ax_rv::{Binary, Immediate, RvInstr, Shift, Unary};
use ax_words::{RmwOp, Width};
use std::alloc::AllocError;

/// The bits above an object at the highest place of a register.
fn above(width: Width) -> u8
    ensures { result ≡ above width }
{
    match width {
        Width::W8 => 56,
        Width::W16 => 48,
        Width::W32 => 32,
        Width::W64 | Width::W128 => 0,
    }
}

/// Ones there.
fn ones(width: Width) -> u64
    ensures { result ≡ ones width }
{
    match width {
        Width::W8 => 0xff00_0000_0000_0000,
        Width::W16 => 0xffff_0000_0000_0000,
        Width::W32 => 0xffff_ffff_0000_0000,
        Width::W64 | Width::W128 => u64::MAX,
    }
}

/// Appends a register's sum with a number, or the bits that they have in common.
fn push_immediate(out: &mut Piece, op: Immediate, rd: u8, rs: u8, n: i16) -> Result<(), AllocError>
    ensures { OnOk result (out.new.items ≡ out.old.items ++ silently (RvInstr.Immediate op rd rs n ∷ [])) }
{
    push_silent(out, RvInstr::Immediate { op, rd, rs, n })
}

/// Appends a shift by a number of bits.
fn push_shift(out: &mut Piece, op: Shift, rd: u8, rs: u8, k: u8) -> Result<(), AllocError>
    ensures { OnOk result (out.new.items ≡ out.old.items ++ silently (RvInstr.Shift op rd rs k ∷ [])) }
{
    push_silent(out, RvInstr::Shift { op, rd, rs, k })
}

/// Appends what finds the word that holds the object, how far the object lies below the highest bits,
/// and the mask.
fn push_find_word(out: &mut Piece, width: Width) -> Result<(), AllocError>
    ensures { OnOk result (out.new.items ≡ out.old.items ++ silently (find_word width)) }
{
    push_immediate(out, Immediate::And, WORD, ADDRESS, -4)?;
    push_immediate(out, Immediate::And, UP, ADDRESS, 3)?;
    push_shift(out, Shift::Left, UP, UP, 3)?;
    push_unary(out, Unary::Negate, UP, UP)?;
    push_immediate(out, Immediate::Add, UP, UP, i16::from(above(width)))?;
    push_silent(
        out,
        RvInstr::Li {
            rd: MASK,
            n: ones(width),
        },
    )?;
    push_binary(out, Binary::ShiftRight, MASK, MASK, UP)
}

/// Appends what brings a number to the highest bits.
fn push_to_top(out: &mut Piece, width: Width, to: u8, from: u8) -> Result<(), AllocError>
    ensures { OnOk result (out.new.items ≡ out.old.items ++ silently (to_top width to from)) }
{
    push_shift(out, Shift::Left, to, from, above(width))
}

/// Appends what brings it from there to its place.
fn push_to_place(out: &mut Piece, register: u8) -> Result<(), AllocError>
    ensures { OnOk result (out.new.items ≡ out.old.items ++ silently (to_place register)) }
{
    push_binary(out, Binary::ShiftRight, register, register, UP)
}

/// Does an operation compare its operand?
fn compares(op: RmwOp) -> bool
    ensures { result ≡ compares op }
{
    match op {
        RmwOp::Max | RmwOp::Min | RmwOp::UMax | RmwOp::UMin => true,
        _ => false,
    }
}

/// Appends what stands before the loop of a read-modify-write.
pub(crate) fn push_update_setup(out: &mut Piece, op: RmwOp, width: Width) -> Result<(), AllocError>
    ensures { OnOk result (out.new.items ≡ out.old.items ++ silently (update_setup op width)) }
{
    push_find_word(out, width)?;
    push_to_top(out, width, OPERAND, NUMBER)?;
    if !compares(op) {
        push_to_place(out, OPERAND)?;
    }
    Ok(())
}

/// Appends what stands before the loop of an exchange.
pub(crate) fn push_exchange_setup(out: &mut Piece, width: Width) -> Result<(), AllocError>
    ensures { OnOk result (out.new.items ≡ out.old.items ++ silently (exchange_setup width)) }
{
    push_find_word(out, width)?;
    push_to_top(out, width, OPERAND, NUMBER)?;
    push_to_place(out, OPERAND)?;
    push_to_top(out, width, PLACED, DESIRED)?;
    push_to_place(out, PLACED)
}

/// Appends what takes the object out of the linked word, extended by zeros.
pub(crate) fn push_take_out(out: &mut Piece, width: Width) -> Result<(), AllocError>
    ensures { OnOk result (out.new.items ≡ out.old.items ++ silently (take_out width)) }
{
    push_binary(out, Binary::ShiftLeft, RESULT, RESULT, UP)?;
    push_shift(out, Shift::Right, RESULT, RESULT, above(width))
}
