//! The code of operations that call no routine.

ghost use Rattle.std.specs.Prelude.{◌≡◌, ◌++◌, [], ◌∷◌, OnOk, option_to_list, pos};
ghost use Rattle.ax_words.specs.Width.{bytes_of};
ghost use Rattle.ax_emit.specs.Lines.{performed_code};
ghost use Rattle.ax_emit_rv.specs.Code as emission;
ghost use Rattle.ax_expand.specs.Standing.{silently};
ghost use Rattle.ax_llsc.specs.Loops.{clear, size_of};
ghost use Rattle.ax_llsc.specs.Codes.{Atomic, amo_of, before_load, before_store, behind_load, ending_of, expansion_of, fences, operand_of, prepare};

use crate::loops::{push_exchange, push_nand};
use crate::table::{
    ADDRESS, FREE, NUMBER, RESULT, amo_of, before_load, before_store, behind_load, ending_of,
    fence_instr, load_form, operand_of, size_of, store_form,
};
use ax_emit_rv::{OperationEmitter, Piece, push_acting, push_silent};
use ax_mask::{is_narrow, push_masked};
use ax_rv::{FenceSets, Immediate, RvInstr, Shift, Unary};
use ax_tags::Tag;
use ax_target::Target;
use ax_words::{Op, Order, RmwOp, Width};
use std::alloc::AllocError;

/// Appends a fence, if there is one.
fn push_fences(out: &mut Piece, sets: Option<FenceSets>) -> Result<(), AllocError>
    ensures { OnOk result (out.new.items ≡ out.old.items ++ silently (fences (option_to_list sets))) }
{
    if let Some(sets) = sets {
        push_silent(out, RvInstr::Fence(sets))?;
    }
    Ok(())
}

/// Appends a shift of the result by 32 bits.
fn push_shift(out: &mut Piece, op: Shift) -> Result<(), AllocError>
    ensures { OnOk result (out.new.items ≡ out.old.items ++ silently (RvInstr.Shift op 15 15 32 ∷ [])) }
{
    push_silent(
        out,
        RvInstr::Shift {
            op,
            rd: RESULT,
            rs: RESULT,
            k: 32,
        },
    )
}

/// Appends what extends a word by zeros, which was extended by its sign.
pub(crate) fn push_clear(out: &mut Piece, width: Width) -> Result<(), AllocError>
    ensures { OnOk result (out.new.items ≡ out.old.items ++ silently (clear 15 width)) }
{
    match width {
        Width::W32 => {
            push_shift(out, Shift::Left)?;
            push_shift(out, Shift::Right)?;
        }
        _ => {}
    }
    Ok(())
}

/// Appends what negates the number that a subtraction takes: the complement of the number before it.
fn push_prepare(out: &mut Piece, op: RmwOp) -> Result<(), AllocError>
    ensures { OnOk result (out.new.items ≡ out.old.items ++ silently (prepare op)) }
{
    match op {
        RmwOp::Sub => {
            push_silent(
                out,
                RvInstr::Immediate {
                    op: Immediate::Add,
                    rd: FREE,
                    rs: NUMBER,
                    n: -1,
                },
            )?;
            push_silent(
                out,
                RvInstr::Unary {
                    op: Unary::Not,
                    rd: FREE,
                    rs: FREE,
                },
            )?;
        }
        _ => {}
    }
    Ok(())
}

/// Appends the code of a load.
fn push_load(out: &mut Piece, width: Width, order: Order) -> Result<(), AllocError>
    ensures { OnOk result (out.new.items ≡ out.old.items ++ performed_code (fences (before_load order)) (RvInstr.Load (emission.load_form (bytes_of width)) 15 (pos 0) 10) (fences (behind_load order) ++ clear 15 width)) }
{
    push_fences(out, before_load(order))?;
    push_acting(
        out,
        RvInstr::Load {
            form: load_form(width),
            rd: RESULT,
            d: 0,
            rs1: ADDRESS,
        },
    )?;
    push_fences(out, behind_load(order))?;
    push_clear(out, width)?;
    Ok(())
}

/// Appends the code of a store.
fn push_store(out: &mut Piece, width: Width, order: Order) -> Result<(), AllocError>
    ensures { OnOk result (out.new.items ≡ out.old.items ++ performed_code (fences (before_store order)) (RvInstr.Store (emission.store_form (bytes_of width)) 11 (pos 0) 10) []) }
{
    push_fences(out, before_store(order))?;
    push_acting(
        out,
        RvInstr::Store {
            form: store_form(width),
            rs2: NUMBER,
            d: 0,
            rs1: ADDRESS,
        },
    )?;
    Ok(())
}

/// The instruction of a read-modify-write.
fn update(op: RmwOp, width: Width, order: Order) -> RvInstr
    ensures { result ≡ RvInstr.Amo (amo_of op) (size_of width) (ending_of order) 15 (operand_of op) 10 }
{
    RvInstr::Amo {
        op: amo_of(op),
        size: size_of(width),
        ending: ending_of(order),
        rd: RESULT,
        rs2: operand_of(op),
        rs1: ADDRESS,
    }
}

/// Appends the code of a read-modify-write.
fn push_update(out: &mut Piece, op: RmwOp, width: Width, order: Order) -> Result<(), AllocError>
    ensures { OnOk result (out.new.items ≡ out.old.items ++ performed_code (prepare op) (RvInstr.Amo (amo_of op) (size_of width) (ending_of order) 15 (operand_of op) 10) (clear 15 width)) }
{
    push_prepare(out, op)?;
    push_acting(out, update(op, width, order))?;
    push_clear(out, width)?;
    Ok(())
}

/// The code of operations that call no routine, where the way of a target is Inline, PairLoop or
/// Masked: single instructions (RISC-V Unprivileged ISA: RV64I, and A, "Atomic Memory Operations"), and
/// for a compare-exchange and a nand loops of a linked load and a pair store
/// ("Load-Reserved/Store-Conditional Instructions"), as for all that reads and writes 1 or 2 bytes.
#[derive(Clone, Copy)]
pub struct DirectOperations {
    pub target: Target,
}

impl OperationEmitter for DirectOperations {
    ghost expansions = { λ it o width order weak. expansion_of it.target (Atomic o width order weak) };

    fn push_operation(
        &self,
        op: Op,
        width: Width,
        order: Order,
        weak: bool,
        _start: u32,
        out: &mut Vec<(RvInstr, Tag)>,
    ) -> Result<(), AllocError> {
        match op {
            Op::Load => push_load(out, width, order),
            Op::Store => push_store(out, width, order),
            Op::Cmpxchg | Op::Rmw(_) if is_narrow(width) => {
                push_masked(op, width, order, weak, out)
            }
            Op::Cmpxchg => push_exchange(out, width, order, weak),
            Op::Rmw(RmwOp::Nand) => push_nand(out, width, order),
            Op::Rmw(op) => push_update(out, op, width, order),
            Op::Fence => push_acting(out, fence_instr(order)),
        }
    }
}
