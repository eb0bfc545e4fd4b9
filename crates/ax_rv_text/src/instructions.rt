//! The text of each instruction.

ghost use Rattle.std.specs.Prelude.{◌≡◌, ◌++◌, OnOk, string_bytes};
ghost use Rattle.ax_rv_text.specs.Spelling.{instr_text};

use crate::operands::{
    push_access, push_addressed, push_ended, push_label, push_pair, push_stored,
};
use crate::registers::register_name;
use crate::words::{
    amo_word, binary_word, condition_word, fence_word, immediate_word, load_word, shift_word,
    store_word, unary_word,
};
use ax_rv::RvInstr;
use std::alloc::AllocError;

/// Appends the text of the instruction at a place. A jump names the label of the place that it
/// leads to, and a call its routine. The only error is that memory fails (RISC-V Unprivileged ISA,
/// the assembler syntax).
#[tactic(auto, unfolding(crate::specs::Spelling::instr_text))]
pub fn push_instr(out: &mut String, place: usize, instr: &RvInstr) -> Result<(), AllocError>
    ensures { OnOk result (string_bytes out.new ≡ string_bytes out.old ++ instr_text place instr.now) }
{
    match *instr {
        RvInstr::Li { rd, n } => {
            let rd = register_name(rd);
            write!(out, "li {rd}, {n}")
        }
        RvInstr::Unary { op, rd, rs } => push_pair(out, unary_word(op), rd, rs),
        RvInstr::Binary { op, rd, rs1, rs2 } => {
            push_pair(out, binary_word(op), rd, rs1)?;
            let rs2 = register_name(rs2);
            write!(out, ", {rs2}")
        }
        RvInstr::Shift { op, rd, rs, k } => {
            push_pair(out, shift_word(op), rd, rs)?;
            write!(out, ", {k}")
        }
        RvInstr::Immediate { op, rd, rs, n } => {
            push_pair(out, immediate_word(op), rd, rs)?;
            write!(out, ", {n}")
        }
        RvInstr::Load { form, rd, d, rs1 } => push_access(out, load_word(form), rd, d, rs1),
        RvInstr::Store { form, rs2, d, rs1 } => push_access(out, store_word(form), rs2, d, rs1),
        RvInstr::LoadReserved {
            size,
            ending,
            rd,
            rs1,
        } => {
            push_ended(out, "lr", size, ending)?;
            push_addressed(out, rd, rs1)
        }
        RvInstr::StoreConditional {
            size,
            ending,
            rd,
            rs2,
            rs1,
        } => {
            push_ended(out, "sc", size, ending)?;
            push_stored(out, rd, rs2, rs1)
        }
        RvInstr::Amo {
            op,
            size,
            ending,
            rd,
            rs2,
            rs1,
        } => {
            push_ended(out, amo_word(op), size, ending)?;
            push_stored(out, rd, rs2, rs1)
        }
        RvInstr::Fence(sets) => {
            let word = fence_word(sets);
            write!(out, "{word}")
        }
        RvInstr::Jump { distance } => {
            write!(out, "j ")?;
            push_label(out, place, distance)
        }
        RvInstr::Call { routine, .. } => {
            let name = routine.name();
            write!(out, "jal ra, {name}")
        }
        RvInstr::Ret => write!(out, "ret"),
        RvInstr::Branch {
            condition,
            rs1,
            rs2,
            distance,
        } => {
            push_pair(out, condition_word(condition), rs1, rs2)?;
            write!(out, ", ")?;
            push_label(out, place, distance)
        }
        RvInstr::Ecall => write!(out, "ecall"),
        RvInstr::Ebreak => write!(out, "ebreak"),
        RvInstr::Nop => write!(out, "nop"),
    }
}
