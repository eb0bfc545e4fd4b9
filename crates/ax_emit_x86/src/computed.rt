//! The code of lines that compute a number.

ghost use Rattle.std.specs.Prelude.{◌≡◌, ◌<◌, ◌-◌, ◌++◌, [], ◌∷◌, OnOk};
ghost use Rattle.ax_emit.specs.Atomics.{gets_all};
ghost use Rattle.ax_expand.specs.Standing.{silently};
ghost use Rattle.ax_emit_x86.specs.Code.{computed, extend_code, extend_down, flag_code, get_one, get_two, op_code, select_code, shift_of, test_code};
ghost use Rattle.ax_emit_x86.specs.Emitters.{IsReached, slot_of};
ghost use Rattle.ax_emit_x86.specs.Slots.{down, x86_table};

use crate::parts::{Piece, push_silent};
use crate::slots::{RAX, RBX, RCX, RDX, RSP, down, push_get, push_result};
use ax_mid::{MidOp, MidShift, Virtual};
use ax_x86::{Alu, Condition, Extension, Shift, X86Instr};
use std::alloc::AllocError;

/// Appends an operation of rax and another register, which rax gets.
fn push_alu(out: &mut Piece, op: Alu, from: u8) -> Result<(), AllocError>
    ensures { OnOk result (out.new.items ≡ out.old.items ++ silently (X86Instr.Alu op from 0 ∷ [])) }
{
    push_silent(out, X86Instr::Alu { op, from, to: RAX })
}

/// Appends code that makes rax 1 or 0 by a condition on rax and rdx.
fn push_flag(out: &mut Piece, condition: Condition) -> Result<(), AllocError>
    ensures { OnOk result (out.new.items ≡ out.old.items ++ silently (flag_code condition)) }
{
    push_silent(
        out,
        X86Instr::Cmp {
            right: RDX,
            left: RAX,
        },
    )?;
    push_silent(out, X86Instr::Setcc { condition, to: RAX })?;
    push_silent(
        out,
        X86Instr::Extend {
            kind: Extension::ZeroByte,
            from: RAX,
            to: RAX,
        },
    )?;
    Ok(())
}

/// Appends a shift of rax.
fn push_shift(out: &mut Piece, op: Shift, count: u8) -> Result<(), AllocError>
    ensures { OnOk result (out.new.items ≡ out.old.items ++ silently (X86Instr.Shift op count 0 ∷ [])) }
{
    push_silent(out, X86Instr::Shift { op, count, to: RAX })
}

/// Appends code that gives rax the result of an operation on rax and rdx.
fn push_op(out: &mut Piece, op: MidOp) -> Result<(), AllocError>
    ensures { OnOk result (out.new.items ≡ out.old.items ++ silently (op_code op)) }
{
    match op {
        MidOp::Add => push_alu(out, Alu::Add, RDX),
        MidOp::Sub => push_alu(out, Alu::Sub, RDX),
        MidOp::Mul => push_alu(out, Alu::Imul, RDX),
        MidOp::And => push_alu(out, Alu::And, RDX),
        MidOp::Or => push_alu(out, Alu::Or, RDX),
        MidOp::Xor => push_alu(out, Alu::Xor, RDX),
        MidOp::Eq => push_flag(out, Condition::Equal),
        MidOp::Ne => push_flag(out, Condition::NotEqual),
        MidOp::Ult => push_flag(out, Condition::Below),
        MidOp::Ule => push_flag(out, Condition::BelowOrEqual),
        MidOp::Slt => push_flag(out, Condition::Less),
        MidOp::Sle => push_flag(out, Condition::LessOrEqual),
    }
}

/// The machine's shift.
fn shift_of(op: MidShift) -> Shift
    ensures { result ≡ shift_of op }
{
    match op {
        MidShift::Shl => Shift::Shl,
        MidShift::Lshr => Shift::Shr,
        MidShift::Ashr => Shift::Sar,
    }
}

/// The shift that brings bits down from the top.
fn extend_down(signed: bool) -> Shift
    ensures { result ≡ extend_down signed }
{
    if signed { Shift::Sar } else { Shift::Shr }
}

/// Appends code that extends the low bits of rax.
fn push_extension(out: &mut Piece, bits: u8, signed: bool) -> Result<(), AllocError>
    ensures { OnOk result (out.new.items ≡ out.old.items ++ silently (extend_code bits signed)) }
{
    let count = 64u8.saturating_sub(bits);
    push_shift(out, Shift::Shl, count)?;
    push_shift(out, extend_down(signed), count)?;
    Ok(())
}

/// Appends code that gives rax the number of rdx where the test in rcx isn't 0.
fn push_selection(out: &mut Piece) -> Result<(), AllocError>
    ensures { OnOk result (out.new.items ≡ out.old.items ++ silently select_code) }
{
    push_silent(out, X86Instr::Movabs { n: 0, to: RBX })?;
    push_silent(
        out,
        X86Instr::Cmp {
            right: RBX,
            left: RCX,
        },
    )?;
    push_silent(
        out,
        X86Instr::Cmovcc {
            condition: Condition::NotEqual,
            from: RDX,
            to: RAX,
        },
    )?;
    Ok(())
}

/// Appends code that compares rax with 0.
pub(crate) fn push_test(out: &mut Piece) -> Result<(), AllocError>
    ensures { OnOk result (out.new.items ≡ out.old.items ++ silently test_code) }
{
    push_silent(out, X86Instr::Movabs { n: 0, to: RDX })?;
    push_silent(
        out,
        X86Instr::Cmp {
            right: RDX,
            left: RAX,
        },
    )?;
    Ok(())
}

/// Appends the code of a number.
pub(crate) fn push_const(out: &mut Piece, to: Virtual, n: u64) -> Result<(), AllocError>
    requires { IsReached to }
    ensures { OnOk result (out.new.items ≡ out.old.items ++ computed slot_of to (X86Instr.Movabs n 0 ∷ [])) }
{
    push_silent(out, X86Instr::Movabs { n, to: RAX })?;
    push_result(out, to)?;
    Ok(())
}

/// Appends the code of a copy.
pub(crate) fn push_copy(out: &mut Piece, to: Virtual, from: Virtual) -> Result<(), AllocError>
    requires to { IsReached to }
    requires from { IsReached from }
    ensures { OnOk result (out.new.items ≡ out.old.items ++ computed slot_of to (get_one slot_of 0 from)) }
{
    push_get(out, RAX, from)?;
    push_result(out, to)?;
    Ok(())
}

/// Appends the code of an operation on two registers.
pub(crate) fn push_apply(
    out: &mut Piece,
    op: MidOp,
    to: Virtual,
    left: Virtual,
    right: Virtual,
) -> Result<(), AllocError>
    requires to { IsReached to }
    requires left { IsReached left }
    requires right { IsReached right }
    ensures { OnOk result (out.new.items ≡ out.old.items ++ computed slot_of to (get_two slot_of left right ++ op_code op)) }
{
    push_get(out, RAX, left)?;
    push_get(out, RDX, right)?;
    push_op(out, op)?;
    push_result(out, to)?;
    Ok(())
}

/// Appends the code of a shift.
pub(crate) fn push_shifted(
    out: &mut Piece,
    op: MidShift,
    to: Virtual,
    from: Virtual,
    by: u8,
) -> Result<(), AllocError>
    requires to { IsReached to }
    requires from { IsReached from }
    ensures { OnOk result (out.new.items ≡ out.old.items ++ computed slot_of to (get_one slot_of 0 from ++ X86Instr.Shift (shift_of op) by 0 ∷ [])) }
{
    push_get(out, RAX, from)?;
    push_shift(out, shift_of(op), by)?;
    push_result(out, to)?;
    Ok(())
}

/// Appends the code of an extension.
pub(crate) fn push_extended(
    out: &mut Piece,
    to: Virtual,
    from: Virtual,
    bits: u8,
    signed: bool,
) -> Result<(), AllocError>
    requires to { IsReached to }
    requires from { IsReached from }
    ensures { OnOk result (out.new.items ≡ out.old.items ++ computed slot_of to (get_one slot_of 0 from ++ extend_code bits signed)) }
{
    push_get(out, RAX, from)?;
    push_extension(out, bits, signed)?;
    push_result(out, to)?;
    Ok(())
}

/// Appends the code of a choice: of `x` where the test isn't 0, else of `y`.
pub(crate) fn push_selected(
    out: &mut Piece,
    to: Virtual,
    test: Virtual,
    x: Virtual,
    y: Virtual,
) -> Result<(), AllocError>
    requires to { IsReached to }
    requires test { IsReached test }
    requires x { IsReached x }
    requires y { IsReached y }
    ensures { OnOk result (out.new.items ≡ out.old.items ++ computed slot_of to (gets_all x86_table ((1, slot_of test) ∷ (2, slot_of x) ∷ (0, slot_of y) ∷ []) ++ select_code)) }
{
    push_get(out, RCX, test)?;
    push_get(out, RDX, x)?;
    push_get(out, RAX, y)?;
    push_selection(out)?;
    push_result(out, to)?;
    Ok(())
}

/// Appends the code of the address of a byte of the frame, which lies `depth` below the stack
/// pointer.
pub(crate) fn push_frame_address(
    out: &mut Piece,
    depth: u64,
    to: Virtual,
    offset: u32,
) -> Result<(), AllocError>
    requires to { IsReached to }
    requires offset { offset < depth }
    ensures { OnOk result (out.new.items ≡ out.old.items ++ computed slot_of to (X86Instr.Movabs (down (depth - offset)) 0 ∷ X86Instr.Alu Alu.Add 4 0 ∷ [])) }
{
    let n = down(depth - offset as u64);
    push_silent(out, X86Instr::Movabs { n, to: RAX })?;
    push_alu(out, Alu::Add, RSP)?;
    push_result(out, to)?;
    Ok(())
}
