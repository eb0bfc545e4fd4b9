//! The code of lines that compute a number.

ghost use Rattle.std.specs.Prelude.{◌≡◌, ◌<◌, ◌-◌, ◌++◌, [], ◌∷◌, OnOk};
ghost use Rattle.ax_emit.specs.Atomics.{gets_all};
ghost use Rattle.ax_expand.specs.Standing.{silently};
ghost use Rattle.ax_emit_arm.specs.Code.{computed, extend_code, extend_down, flag_code, get_one, get_two, op_code, select_code, shift_of};
ghost use Rattle.ax_emit_arm.specs.Emitters.{slot_of};
ghost use Rattle.ax_emit_arm.specs.Slots.{arm_table};

use crate::parts::{Piece, push_silent};
use crate::slots::{NUMBER, STACK, push_get, push_result};
use ax_arm::{Alu, ArmInstr, Condition, Shift};
use ax_mid::{MidOp, MidShift, Virtual};
use std::alloc::AllocError;

// The operands of an operation, and the test of a choice.
const LEFT: u8 = 1;

const RIGHT: u8 = 2;

const TEST: u8 = 3;

/// Appends an operation on two registers, which register 0 gets.
fn push_alu(out: &mut Piece, op: Alu, rn: u8, rm: u8) -> Result<(), AllocError>
    ensures { OnOk result (out.new.items ≡ out.old.items ++ silently (ArmInstr.Alu op 0 rn rm ∷ [])) }
{
    push_silent(
        out,
        ArmInstr::Alu {
            op,
            rd: NUMBER,
            rn,
            rm,
        },
    )
}

/// Appends code that makes register 0 1 or 0 by a condition on registers 1 and 2.
fn push_flag(out: &mut Piece, condition: Condition) -> Result<(), AllocError>
    ensures { OnOk result (out.new.items ≡ out.old.items ++ silently (flag_code condition)) }
{
    push_silent(
        out,
        ArmInstr::Cmp {
            rn: LEFT,
            rm: RIGHT,
        },
    )?;
    push_silent(
        out,
        ArmInstr::Cset {
            rd: NUMBER,
            condition,
        },
    )?;
    Ok(())
}

/// Appends a shift of register 0.
fn push_shift(out: &mut Piece, op: Shift, k: u8) -> Result<(), AllocError>
    ensures { OnOk result (out.new.items ≡ out.old.items ++ silently (ArmInstr.Shift op 0 0 k ∷ [])) }
{
    push_silent(
        out,
        ArmInstr::Shift {
            op,
            rd: NUMBER,
            rn: NUMBER,
            k,
        },
    )
}

/// Appends code that gives register 0 the result of an operation on registers 1 and 2.
fn push_op(out: &mut Piece, op: MidOp) -> Result<(), AllocError>
    ensures { OnOk result (out.new.items ≡ out.old.items ++ silently (op_code op)) }
{
    match op {
        MidOp::Add => push_alu(out, Alu::Add, LEFT, RIGHT),
        MidOp::Sub => push_alu(out, Alu::Sub, LEFT, RIGHT),
        MidOp::Mul => push_alu(out, Alu::Mul, LEFT, RIGHT),
        MidOp::And => push_alu(out, Alu::And, LEFT, RIGHT),
        MidOp::Or => push_alu(out, Alu::Orr, LEFT, RIGHT),
        MidOp::Xor => push_alu(out, Alu::Eor, LEFT, RIGHT),
        MidOp::Eq => push_flag(out, Condition::Eq),
        MidOp::Ne => push_flag(out, Condition::Ne),
        MidOp::Ult => push_flag(out, Condition::Lo),
        MidOp::Ule => push_flag(out, Condition::Ls),
        MidOp::Slt => push_flag(out, Condition::Lt),
        MidOp::Sle => push_flag(out, Condition::Le),
    }
}

/// The machine's shift.
fn shift_of(op: MidShift) -> Shift
    ensures { result ≡ shift_of op }
{
    match op {
        MidShift::Shl => Shift::Lsl,
        MidShift::Lshr => Shift::Lsr,
        MidShift::Ashr => Shift::Asr,
    }
}

/// The shift that brings bits down from the top.
fn extend_down(signed: bool) -> Shift
    ensures { result ≡ extend_down signed }
{
    if signed { Shift::Asr } else { Shift::Lsr }
}

/// Appends code that extends the low bits of register 0.
fn push_extension(out: &mut Piece, bits: u8, signed: bool) -> Result<(), AllocError>
    ensures { OnOk result (out.new.items ≡ out.old.items ++ silently (extend_code bits signed)) }
{
    let k = 64u8.saturating_sub(bits);
    push_shift(out, Shift::Lsl, k)?;
    push_shift(out, extend_down(signed), k)?;
    Ok(())
}

/// Appends code that gives register 0 the number of register 1 where the test in register 3 isn't
/// 0, else that of register 2.
fn push_selection(out: &mut Piece) -> Result<(), AllocError>
    ensures { OnOk result (out.new.items ≡ out.old.items ++ silently select_code) }
{
    push_silent(out, ArmInstr::Constant { rd: NUMBER, n: 0 })?;
    push_silent(
        out,
        ArmInstr::Cmp {
            rn: TEST,
            rm: NUMBER,
        },
    )?;
    push_silent(
        out,
        ArmInstr::Csel {
            rd: NUMBER,
            rn: LEFT,
            rm: RIGHT,
            condition: Condition::Ne,
        },
    )?;
    Ok(())
}

/// Appends the code of a number.
pub(crate) fn push_const(out: &mut Piece, to: Virtual, n: u64) -> Result<(), AllocError>
    ensures { OnOk result (out.new.items ≡ out.old.items ++ computed slot_of to (ArmInstr.Constant 0 n ∷ [])) }
{
    push_silent(out, ArmInstr::Constant { rd: NUMBER, n })?;
    push_result(out, to)?;
    Ok(())
}

/// Appends the code of a copy.
pub(crate) fn push_copy(out: &mut Piece, to: Virtual, from: Virtual) -> Result<(), AllocError>
    ensures { OnOk result (out.new.items ≡ out.old.items ++ computed slot_of to (get_one slot_of 0 from)) }
{
    push_get(out, NUMBER, from)?;
    push_result(out, to)?;
    Ok(())
}

/// Appends the code of an operation on two registers.
pub(crate) fn push_apply(
    out: &mut Piece,
    op: MidOp,
    to: Virtual,
    left: Virtual,
    right: Virtual,
) -> Result<(), AllocError>
    ensures { OnOk result (out.new.items ≡ out.old.items ++ computed slot_of to (get_two slot_of left right ++ op_code op)) }
{
    push_get(out, LEFT, left)?;
    push_get(out, RIGHT, right)?;
    push_op(out, op)?;
    push_result(out, to)?;
    Ok(())
}

/// Appends the code of a shift.
pub(crate) fn push_shifted(
    out: &mut Piece,
    op: MidShift,
    to: Virtual,
    from: Virtual,
    by: u8,
) -> Result<(), AllocError>
    ensures { OnOk result (out.new.items ≡ out.old.items ++ computed slot_of to (get_one slot_of 0 from ++ ArmInstr.Shift (shift_of op) 0 0 by ∷ [])) }
{
    push_get(out, NUMBER, from)?;
    push_shift(out, shift_of(op), by)?;
    push_result(out, to)?;
    Ok(())
}

/// Appends the code of an extension.
pub(crate) fn push_extended(
    out: &mut Piece,
    to: Virtual,
    from: Virtual,
    bits: u8,
    signed: bool,
) -> Result<(), AllocError>
    ensures { OnOk result (out.new.items ≡ out.old.items ++ computed slot_of to (get_one slot_of 0 from ++ extend_code bits signed)) }
{
    push_get(out, NUMBER, from)?;
    push_extension(out, bits, signed)?;
    push_result(out, to)?;
    Ok(())
}

/// Appends the code of a choice: of `x` where the test isn't 0, else of `y`.
pub(crate) fn push_selected(
    out: &mut Piece,
    to: Virtual,
    test: Virtual,
    x: Virtual,
    y: Virtual,
) -> Result<(), AllocError>
    ensures { OnOk result (out.new.items ≡ out.old.items ++ computed slot_of to (gets_all arm_table ((3, slot_of test) ∷ (1, slot_of x) ∷ (2, slot_of y) ∷ []) ++ select_code)) }
{
    push_get(out, TEST, test)?;
    push_get(out, LEFT, x)?;
    push_get(out, RIGHT, y)?;
    push_selection(out)?;
    push_result(out, to)?;
    Ok(())
}

/// Appends the code of the address of a byte of the frame, which lies `depth` below the stack
/// pointer.
pub(crate) fn push_frame_address(
    out: &mut Piece,
    depth: u64,
    to: Virtual,
    offset: u32,
) -> Result<(), AllocError>
    requires { offset < depth }
    ensures { OnOk result (out.new.items ≡ out.old.items ++ computed slot_of to (ArmInstr.Constant 0 (depth - offset) ∷ ArmInstr.Alu Alu.Sub 0 31 0 ∷ [])) }
{
    let n = depth - offset as u64;
    push_silent(out, ArmInstr::Constant { rd: NUMBER, n })?;
    push_alu(out, Alu::Sub, STACK, NUMBER)?;
    push_result(out, to)?;
    Ok(())
}
