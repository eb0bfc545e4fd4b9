//! Single instructions of a masked loop.

ghost use Rattle.std.specs.Prelude.{◌≡◌, ◌++◌, [], ◌∷◌, OnOk};
ghost use Rattle.ax_expand.specs.Standing.{silently};
ghost use Rattle.ax_mask.specs.Codes.{link, store};

use crate::pairs::{link_ending, store_ending};
use crate::registers::{NEW, RESULT, WORD};
use ax_emit_rv::{Piece, push_silent};
use ax_rv::{Binary, Condition, RvInstr, Size, Unary};
use ax_tags::Tag;
use ax_words::Order;
use std::alloc::AllocError;

/// Appends an instruction with its mark.
pub(crate) fn push_marked(out: &mut Piece, inst: RvInstr, mark: Tag) -> Result<(), AllocError>
    ensures { OnOk result (out.new.items ≡ out.old.items ++ (inst, mark) ∷ []) }
{
    Ok(out.push((inst, mark))?)
}

/// Appends an operation on two registers.
pub(crate) fn push_binary(
    out: &mut Piece,
    op: Binary,
    rd: u8,
    rs1: u8,
    rs2: u8,
) -> Result<(), AllocError>
    ensures { OnOk result (out.new.items ≡ out.old.items ++ silently (RvInstr.Binary op rd rs1 rs2 ∷ [])) }
{
    push_silent(out, RvInstr::Binary { op, rd, rs1, rs2 })
}

/// Appends an operation on one register.
pub(crate) fn push_unary(out: &mut Piece, op: Unary, rd: u8, rs: u8) -> Result<(), AllocError>
    ensures { OnOk result (out.new.items ≡ out.old.items ++ silently (RvInstr.Unary op rd rs ∷ [])) }
{
    push_silent(out, RvInstr::Unary { op, rd, rs })
}

/// A branch by some instructions where a register is not 0.
pub(crate) fn branch_if(register: u8, distance: i32) -> RvInstr
    ensures { result ≡ RvInstr.Branch Condition.NotEqual register 0 distance }
{
    RvInstr::Branch {
        condition: Condition::NotEqual,
        rs1: register,
        rs2: 0,
        distance,
    }
}

/// The linked load of the word.
pub(crate) fn link(order: Order) -> RvInstr
    ensures { result ≡ link order }
{
    RvInstr::LoadReserved {
        size: Size::Word,
        ending: link_ending(order),
        rd: RESULT,
        rs1: WORD,
    }
}

/// Its pair store, which tells whether it failed in the register that it stored.
pub(crate) fn store(order: Order) -> RvInstr
    ensures { result ≡ store order 29 }
{
    RvInstr::StoreConditional {
        size: Size::Word,
        ending: store_ending(order),
        rd: NEW,
        rs2: NEW,
        rs1: WORD,
    }
}
