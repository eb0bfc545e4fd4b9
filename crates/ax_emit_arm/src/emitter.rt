//! The emitter of AArch64 code of lines.

ghost use Rattle.std.specs.Prelude.{◌≡◌, ◌<◌, ◌≤◌, ◌+◌, ◌^◌, ◌++◌, ◌∷◌, All, OnOk, length};
ghost use Rattle.ax_emit.specs.Atomics.{gets_all, puts_all};
ghost use Rattle.ax_emit.specs.Behind.{behind_in};
ghost use Rattle.ax_emit.specs.Lines.{branch_code};
ghost use Rattle.ax_emit.specs.Passes.{placed};
ghost use Rattle.ax_expand.specs.Standing.{wrap};
ghost use Rattle.ax_emit_arm.specs.Code.{address_register, first_argument, first_result, get_one, homes_from, jump_to, line_code, line_size, turn};
ghost use Rattle.ax_emit_arm.specs.Emitters.{IsTaken, slot_of};
ghost use Rattle.ax_emit_arm.specs.Slots.{arm_table};

use crate::accesses::{push_load, push_store};
use crate::computed::{
    push_apply, push_const, push_copy, push_extended, push_frame_address, push_selected,
    push_shifted,
};
use crate::jumps::{Targets, push_branch, push_jump, push_out};
use crate::operations::OperationEmitter;
use crate::parts::{Piece, push_acting};
use crate::slots::{ADDRESS, push_get, push_gets, push_puts};
use ax_arm::ArmInstr;
use ax_emit::{Labels, LineEmitter};
use ax_mid::{Line, MidInst, Virtual};
use ax_tags::Tag;
use ax_words::{Items, Op, Order, Width};
use std::alloc::AllocError;

// Where an operation has what it takes, and what it gives.
const FIRST_ARGUMENT: u8 = 2;

const FIRST_RESULT: u8 = 6;

/// What emits the AArch64 code of lines: how many bytes the frame lies below the stack pointer, the
/// labels of the program, and how atomic operations are done on registers. A call of a routine has
/// no code.
#[derive(Drop)]
pub struct ArmEmitter<'a, O> {
    pub depth: u64,
    pub labels: &'a Labels,
    pub operations: O,
}

/// An atomic operation with its width and order, and whether it is weak.
#[derive(Clone, Copy)]
struct Operation {
    op: Op,
    width: Width,
    order: Order,
    weak: bool,
}

/// The place of a line; where there is no line, 0.
fn place_at(places: &[u32], line: u32) -> u32
    ensures { result ≡ placed places.now line }
{
    places.get(line as usize).copied().unwrap_or(0)
}

impl<'a, O: OperationEmitter> ArmEmitter<'a, O> {
    /// The place of the line behind a label.
    fn place_behind(&self, places: &[u32], label: u32) -> u32
        requires { All (λ p. p < 2 ^ 31) places.now }
        ensures place { result ≡ placed places.now (behind_in self.now.labels.now label) }
        ensures low { result < 2 ^ 31 }
    {
        place_at(places, self.labels.behind(label))
    }

    /// Appends the code of a branch from a place on, to label `a` where the test isn't 0, else to `b`.
    fn push_branch(
        &self,
        places: &[u32],
        test: Virtual,
        a: u32,
        b: u32,
        start: u32,
        out: &mut Piece,
    ) -> Result<(), AllocError>
        requires places { All (λ p. p < 2 ^ 31) places.now }
        requires start { start + 6 < 2 ^ 31 }
        ensures { OnOk result (out.new.items ≡ out.old.items ++ branch_code (get_one slot_of 0 test) turn jump_to (placed places.now (behind_in self.now.labels.now a)) (placed places.now (behind_in self.now.labels.now b)) start) }
    {
        let high = self.place_behind(places, a);
        let low = self.place_behind(places, b);
        push_branch(out, test, Targets { high, low }, start)
    }

    /// Appends the code of an atomic operation from a place on.
    fn push_atomic(
        &self,
        operation: Operation,
        address: Virtual,
        args: &Items<Virtual>,
        results: &Items<Virtual>,
        start: u32,
        out: &mut Piece,
    ) -> Result<(), AllocError>
        requires few { length args.now ≤ 4 }
        requires few_results { length results.now ≤ 3 }
        requires start { start + length (gets_all arm_table ((address_register, slot_of address) ∷ homes_from slot_of first_argument args.now)) < 2 ^ 31 }
        ensures { OnOk result (out.new.items ≡ out.old.items ++ wrap (gets_all arm_table ((address_register, slot_of address) ∷ homes_from slot_of first_argument args.now)) (O.expansions self.now.operations operation.op operation.width operation.order operation.weak).piece (puts_all arm_table (homes_from slot_of first_result results.now)) start) }
    {
        let begin = out.len();
        push_get(out, ADDRESS, address)?;
        push_gets(out, FIRST_ARGUMENT, args.as_slice())?;
        let place = start + (out.len() - begin) as u32;
        self.operations.push_operation(
            operation.op,
            operation.width,
            operation.order,
            operation.weak,
            place,
            out,
        )?;
        push_puts(out, FIRST_RESULT, results.as_slice())?;
        Ok(())
    }
}

impl<'a, O: OperationEmitter> LineEmitter for ArmEmitter<'a, O> {
    type Instr = ArmInstr;

    type Register = Virtual;

    ghost takes = { λ it line. IsTaken it.depth line.inst };

    ghost size_of = { λ it line. line_size slot_of it.depth (behind_in it.labels.now) (O.expansions it.operations) line };

    ghost code_of = { λ it places start line. line_code slot_of it.depth (behind_in it.labels.now) (O.expansions it.operations) places start line };

    #[tactic(auto, unfolding(crate::specs::Code::piece_of))]
    fn push_code(
        &self,
        line: &Line<Virtual>,
        places: &[u32],
        start: u32,
        out: &mut Vec<(ArmInstr, Tag)>,
    ) -> Result<(), AllocError> {
        match &line.inst {
            MidInst::Const(to, n) => push_const(out, *to, *n)?,
            MidInst::Copy(to, from) => push_copy(out, *to, *from)?,
            MidInst::Apply(op, to, left, right) => push_apply(out, *op, *to, *left, *right)?,
            MidInst::Shift(op, to, from, by) => push_shifted(out, *op, *to, *from, *by)?,
            MidInst::Extend(to, from, n, signed) => push_extended(out, *to, *from, *n, *signed)?,
            MidInst::Select(to, test, x, y) => push_selected(out, *to, *test, *x, *y)?,
            MidInst::Label(_) | MidInst::Call(..) => {}
            MidInst::Jump(label) => push_jump(out, start, self.place_behind(places, *label))?,
            MidInst::Branch(test, a, b) => self.push_branch(places, *test, *a, *b, start, out)?,
            MidInst::FrameAddress(to, offset) => push_frame_address(out, self.depth, *to, *offset)?,
            MidInst::Load(to, address, bytes) => push_load(out, *to, *address, *bytes)?,
            MidInst::Store(address, from, bytes) => push_store(out, *address, *from, *bytes)?,
            MidInst::Atomic(op, width, order, weak, address, args, results) => {
                let operation = Operation {
                    op: *op,
                    width: *width,
                    order: *order,
                    weak: *weak,
                };
                self.push_atomic(operation, *address, args, results, start, out)?
            }
            MidInst::Out(from) => push_out(out, *from)?,
            MidInst::Trap => push_acting(out, ArmInstr::Brk)?,
            MidInst::Ret => push_acting(out, ArmInstr::Ret)?,
            MidInst::Nop => push_acting(out, ArmInstr::Nop)?,
        }
        Ok(())
    }
}
