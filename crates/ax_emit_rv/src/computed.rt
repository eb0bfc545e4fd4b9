//! The code of lines that compute a number.

ghost use Rattle.std.specs.Prelude.{◌≡◌, ◌<◌, ◌-◌, ◌++◌, [], ◌∷◌, OnOk};
ghost use Rattle.ax_emit.specs.Atomics.{gets_all};
ghost use Rattle.ax_expand.specs.Standing.{silently};
ghost use Rattle.ax_emit_rv.specs.Code.{computed, extend_code, extend_down, get_one, get_two, op_code, select_code, shift_of};
ghost use Rattle.ax_emit_rv.specs.Emitters.{slot_of};
ghost use Rattle.ax_emit_rv.specs.Slots.{down, rv_table};

use crate::parts::{Piece, push_silent};
use crate::slots::{NUMBER, STACK, down, push_get_one, push_get_three, push_get_two, push_result};
use ax_mid::{MidOp, MidShift, Virtual};
use ax_rv::{Binary, RvInstr, Shift, Unary};
use std::alloc::AllocError;

/// Appends an operation on two registers.
fn push_binary(out: &mut Piece, op: Binary, rd: u8, rs1: u8, rs2: u8) -> Result<(), AllocError>
    ensures { OnOk result (out.new.items ≡ out.old.items ++ silently (RvInstr.Binary op rd rs1 rs2 ∷ [])) }
{
    push_silent(out, RvInstr::Binary { op, rd, rs1, rs2 })
}

/// Appends an operation on one register, which gets its result.
fn push_unary(out: &mut Piece, op: Unary, r: u8) -> Result<(), AllocError>
    ensures { OnOk result (out.new.items ≡ out.old.items ++ silently (RvInstr.Unary op r r ∷ [])) }
{
    push_silent(out, RvInstr::Unary { op, rd: r, rs: r })
}

/// Appends a shift of register 7.
fn push_shift(out: &mut Piece, op: Shift, k: u8) -> Result<(), AllocError>
    ensures { OnOk result (out.new.items ≡ out.old.items ++ silently (RvInstr.Shift op 7 7 k ∷ [])) }
{
    push_silent(
        out,
        RvInstr::Shift {
            op,
            rd: NUMBER,
            rs: NUMBER,
            k,
        },
    )
}

/// Appends code that gives register 7 the result of an operation on registers 5 and 6.
fn push_op(out: &mut Piece, op: MidOp) -> Result<(), AllocError>
    ensures { OnOk result (out.new.items ≡ out.old.items ++ silently (op_code op)) }
{
    match op {
        MidOp::Add => push_binary(out, Binary::Add, 7, 5, 6)?,
        MidOp::Sub => push_binary(out, Binary::Subtract, 7, 5, 6)?,
        MidOp::Mul => push_binary(out, Binary::Multiply, 7, 5, 6)?,
        MidOp::And => push_binary(out, Binary::And, 7, 5, 6)?,
        MidOp::Or => push_binary(out, Binary::Or, 7, 5, 6)?,
        MidOp::Xor => push_binary(out, Binary::Xor, 7, 5, 6)?,
        MidOp::Eq => {
            push_binary(out, Binary::Subtract, 7, 5, 6)?;
            push_unary(out, Unary::IsZero, 7)?;
        }
        MidOp::Ne => {
            push_binary(out, Binary::Subtract, 7, 5, 6)?;
            push_unary(out, Unary::IsNotZero, 7)?;
        }
        MidOp::Ult => push_binary(out, Binary::IsBelow, 7, 5, 6)?,
        MidOp::Ule => {
            push_binary(out, Binary::IsBelow, 7, 6, 5)?;
            push_unary(out, Unary::IsZero, 7)?;
        }
        MidOp::Slt => push_binary(out, Binary::IsLess, 7, 5, 6)?,
        MidOp::Sle => {
            push_binary(out, Binary::IsLess, 7, 6, 5)?;
            push_unary(out, Unary::IsZero, 7)?;
        }
    }
    Ok(())
}

/// The machine's shift.
fn shift_of(op: MidShift) -> Shift
    ensures { result ≡ shift_of op }
{
    match op {
        MidShift::Shl => Shift::Left,
        MidShift::Lshr => Shift::Right,
        MidShift::Ashr => Shift::RightSigned,
    }
}

/// The shift that brings bits down from the top.
fn extend_down(signed: bool) -> Shift
    ensures { result ≡ extend_down signed }
{
    if signed {
        Shift::RightSigned
    } else {
        Shift::Right
    }
}

/// Appends code that extends the low bits of register 7.
pub(crate) fn push_extension(out: &mut Piece, bits: u8, signed: bool) -> Result<(), AllocError>
    ensures { OnOk result (out.new.items ≡ out.old.items ++ silently (extend_code bits signed)) }
{
    let k = 64u8.saturating_sub(bits);
    push_shift(out, Shift::Left, k)?;
    push_shift(out, extend_down(signed), k)?;
    Ok(())
}

/// Appends code that gives register 7 the number of register 6 where the test in register 5 isn't 0.
fn push_selection(out: &mut Piece) -> Result<(), AllocError>
    ensures { OnOk result (out.new.items ≡ out.old.items ++ silently select_code) }
{
    push_unary(out, Unary::IsNotZero, 5)?;
    push_unary(out, Unary::Negate, 5)?;
    push_binary(out, Binary::Subtract, 6, 6, 7)?;
    push_binary(out, Binary::And, 6, 6, 5)?;
    push_binary(out, Binary::Add, 7, 7, 6)?;
    Ok(())
}

/// Appends the code of a number.
pub(crate) fn push_const(out: &mut Piece, to: Virtual, n: u64) -> Result<(), AllocError>
    ensures { OnOk result (out.new.items ≡ out.old.items ++ computed slot_of to (RvInstr.Li 7 n ∷ [])) }
{
    push_silent(out, RvInstr::Li { rd: NUMBER, n })?;
    push_result(out, to.0)?;
    Ok(())
}

/// Appends the code of a copy.
pub(crate) fn push_copy(out: &mut Piece, to: Virtual, from: Virtual) -> Result<(), AllocError>
    ensures { OnOk result (out.new.items ≡ out.old.items ++ computed slot_of to (get_one slot_of 7 from ++ [])) }
{
    push_get_one(out, NUMBER, from)?;
    push_result(out, to.0)?;
    Ok(())
}

/// Appends the code of an operation on two registers.
pub(crate) fn push_apply(
    out: &mut Piece,
    op: MidOp,
    to: Virtual,
    left: Virtual,
    right: Virtual,
) -> Result<(), AllocError>
    ensures { OnOk result (out.new.items ≡ out.old.items ++ computed slot_of to (get_two slot_of left right ++ op_code op)) }
{
    push_get_two(out, left, right)?;
    push_op(out, op)?;
    push_result(out, to.0)?;
    Ok(())
}

/// Appends the code of a shift.
pub(crate) fn push_shifted(
    out: &mut Piece,
    op: MidShift,
    to: Virtual,
    from: Virtual,
    by: u8,
) -> Result<(), AllocError>
    ensures { OnOk result (out.new.items ≡ out.old.items ++ computed slot_of to (get_one slot_of 7 from ++ RvInstr.Shift (shift_of op) 7 7 by ∷ [])) }
{
    push_get_one(out, NUMBER, from)?;
    push_shift(out, shift_of(op), by)?;
    push_result(out, to.0)?;
    Ok(())
}

/// Appends the code of an extension.
pub(crate) fn push_extended(
    out: &mut Piece,
    to: Virtual,
    from: Virtual,
    bits: u8,
    signed: bool,
) -> Result<(), AllocError>
    ensures { OnOk result (out.new.items ≡ out.old.items ++ computed slot_of to (get_one slot_of 7 from ++ extend_code bits signed)) }
{
    push_get_one(out, NUMBER, from)?;
    push_extension(out, bits, signed)?;
    push_result(out, to.0)?;
    Ok(())
}

/// Appends the code of a choice: of `x` where the test isn't 0, else of `y`.
pub(crate) fn push_selected(
    out: &mut Piece,
    to: Virtual,
    test: Virtual,
    x: Virtual,
    y: Virtual,
) -> Result<(), AllocError>
    ensures { OnOk result (out.new.items ≡ out.old.items ++ computed slot_of to (gets_all rv_table ((5, slot_of test) ∷ (6, slot_of x) ∷ (7, slot_of y) ∷ []) ++ select_code)) }
{
    push_get_three(out, test, x, y)?;
    push_selection(out)?;
    push_result(out, to.0)?;
    Ok(())
}

/// Appends the code of the address of a byte of the frame, which lies `depth` below the stack
/// pointer.
pub(crate) fn push_frame_address(
    out: &mut Piece,
    depth: u64,
    to: Virtual,
    offset: u32,
) -> Result<(), AllocError>
    requires { offset < depth }
    ensures { OnOk result (out.new.items ≡ out.old.items ++ computed slot_of to (RvInstr.Li 7 (down (depth - offset)) ∷ RvInstr.Binary Binary.Add 7 2 7 ∷ [])) }
{
    let n = down(depth - offset as u64);
    push_silent(out, RvInstr::Li { rd: NUMBER, n })?;
    push_binary(out, Binary::Add, NUMBER, STACK, NUMBER)?;
    push_result(out, to.0)?;
    Ok(())
}
