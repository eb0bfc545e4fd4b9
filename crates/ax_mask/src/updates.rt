//! The code of read-modify-writes.

ghost use Rattle.std.specs.Prelude.{◌≡◌, ◌+◌, ◌++◌, OnOk, length, negsuc};
ghost use Rattle.ax_expand.specs.Standing.{silently};
ghost use Rattle.ax_mask.specs.Codes.{both, choose, computation, merge, update_code, update_loop};

use crate::parts::{branch_if, link, push_binary, push_marked, push_unary, store};
use crate::registers::{MASK, NEW, OPERAND, RESULT, TAKEN, UP};
use crate::setup::{push_take_out, push_update_setup};
use ax_emit_rv::{Piece, push_silent};
use ax_rv::{Binary, RvInstr, Unary};
use ax_tags::Tag;
use ax_words::{Order, RmwOp, Width};
use std::alloc::AllocError;

/// Appends what merges a register's masked bits with the others of the linked word.
pub(crate) fn push_merge(out: &mut Piece, register: u8) -> Result<(), AllocError>
    ensures { OnOk result (out.new.items ≡ out.old.items ++ silently (merge register)) }
{
    push_binary(out, Binary::Xor, NEW, RESULT, register)?;
    push_binary(out, Binary::And, NEW, NEW, MASK)?;
    push_binary(out, Binary::Xor, NEW, RESULT, NEW)
}

/// Appends an operation on the linked word and the operand in its place.
fn push_both(out: &mut Piece, op: Binary) -> Result<(), AllocError>
    ensures { OnOk result (out.new.items ≡ out.old.items ++ silently (both op)) }
{
    push_binary(out, op, NEW, RESULT, OPERAND)?;
    push_merge(out, NEW)
}

/// A test of two numbers at the highest bits.
fn test(op: Binary, left: u8, right: u8) -> RvInstr
    ensures { result ≡ RvInstr.Binary op 30 left right }
{
    RvInstr::Binary {
        op,
        rd: TAKEN,
        rs1: left,
        rs2: right,
    }
}

/// Appends what takes the operand where a test of the object and the operand says so.
fn push_choice(out: &mut Piece, test: RvInstr) -> Result<(), AllocError>
    ensures { OnOk result (out.new.items ≡ out.old.items ++ silently (choose test)) }
{
    push_binary(out, Binary::ShiftLeft, NEW, RESULT, UP)?;
    push_silent(out, test)?;
    push_unary(out, Unary::Negate, TAKEN, TAKEN)?;
    push_binary(out, Binary::ShiftRight, NEW, OPERAND, UP)?;
    push_binary(out, Binary::Xor, NEW, RESULT, NEW)?;
    push_binary(out, Binary::And, NEW, NEW, MASK)?;
    push_binary(out, Binary::And, NEW, NEW, TAKEN)?;
    push_binary(out, Binary::Xor, NEW, RESULT, NEW)
}

/// Appends what computes the word that is stored from the linked one.
fn push_computation(out: &mut Piece, op: RmwOp) -> Result<(), AllocError>
    ensures { OnOk result (out.new.items ≡ out.old.items ++ silently (computation op)) }
{
    match op {
        RmwOp::Xchg => push_merge(out, OPERAND),
        RmwOp::Add => push_both(out, Binary::Add),
        RmwOp::Sub => push_both(out, Binary::Subtract),
        RmwOp::And => push_both(out, Binary::And),
        RmwOp::Nand => {
            push_binary(out, Binary::And, NEW, RESULT, OPERAND)?;
            push_unary(out, Unary::Not, NEW, NEW)?;
            push_merge(out, NEW)
        }
        RmwOp::Or => push_both(out, Binary::Or),
        RmwOp::Xor => push_both(out, Binary::Xor),
        RmwOp::Max => push_choice(out, test(Binary::IsLess, NEW, OPERAND)),
        RmwOp::Min => push_choice(out, test(Binary::IsLess, OPERAND, NEW)),
        RmwOp::UMax => push_choice(out, test(Binary::IsBelow, NEW, OPERAND)),
        RmwOp::UMin => push_choice(out, test(Binary::IsBelow, OPERAND, NEW)),
    }
}

/// The distance from the last branch back to the linked load.
fn back(op: RmwOp) -> i32
    ensures { result ≡ negsuc (length (computation op) + 1) }
{
    match op {
        RmwOp::Xchg => -5,
        RmwOp::Add | RmwOp::Sub | RmwOp::And | RmwOp::Or | RmwOp::Xor => -6,
        RmwOp::Nand => -7,
        RmwOp::Max | RmwOp::Min | RmwOp::UMax | RmwOp::UMin => -10,
    }
}

/// Appends the loop of a read-modify-write.
fn push_update_loop(out: &mut Piece, op: RmwOp, order: Order) -> Result<(), AllocError>
    ensures { OnOk result (out.new.items ≡ out.old.items ++ update_loop op order) }
{
    push_silent(out, link(order))?;
    push_computation(out, op)?;
    push_marked(out, store(order), Tag::Stored)?;
    push_silent(out, branch_if(NEW, back(op)))
}

/// Appends the code of a read-modify-write.
pub(crate) fn push_update(
    out: &mut Piece,
    op: RmwOp,
    width: Width,
    order: Order,
) -> Result<(), AllocError>
    ensures { OnOk result (out.new.items ≡ out.old.items ++ update_code op width order) }
{
    push_update_setup(out, op, width)?;
    push_update_loop(out, op, order)?;
    push_take_out(out, width)
}
