//! The code of loops of a linked load and a pair store (RISC-V Unprivileged ISA: A extension,
//! "Load-Reserved/Store-Conditional Instructions").

ghost use Rattle.std.specs.Prelude.{◌≡◌, ◌++◌, [], ◌∷◌, None, OnOk, pos};
ghost use Rattle.ax_expand.specs.Standing.{silently};
ghost use Rattle.ax_mask.specs.Pairs.{store_ending};
ghost use Rattle.ax_llsc.specs.Loops.{answer, comparand, different, exchange_code, link, nand_back, nand_code, nand_computation, pair_mark, size_of, strong_answer, weak_answer};

use crate::operations::push_clear;
use crate::table::{ADDRESS, FREE, NUMBER, RESULT, size_of};
use ax_emit_rv::{Piece, push_silent};
use ax_mask::{link_ending, store_ending};
use ax_rv::{Binary, Condition, Immediate, RvInstr, Unary};
use ax_tags::Tag;
use ax_words::{Order, Width};
use std::alloc::AllocError;

// The registers of a compare-exchange: what it stores, and whether it did.
const DESIRED: u8 = 12;

const STORED: u8 = 16;

// Scratch registers of a nand: what it stores, and whether the pair store failed.
const NEW: u8 = 6;

const FAILED: u8 = 7;

/// Appends an instruction with its mark.
fn push_marked(out: &mut Piece, inst: RvInstr, mark: Tag) -> Result<(), AllocError>
    ensures { OnOk result (out.new.items ≡ out.old.items ++ (inst, mark) ∷ []) }
{
    Ok(out.push((inst, mark))?)
}

/// The linked load.
fn link(width: Width, order: Order) -> RvInstr
    ensures { result ≡ link width order }
{
    RvInstr::LoadReserved {
        size: size_of(width),
        ending: link_ending(order),
        rd: RESULT,
        rs1: ADDRESS,
    }
}

/// The pair store of a register, and the one that tells whether it failed.
fn pair_store(width: Width, order: Order, failed: u8, new: u8) -> RvInstr
    ensures { result ≡ RvInstr.StoreConditional (size_of width) (store_ending order) failed new 10 }
{
    RvInstr::StoreConditional {
        size: size_of(width),
        ending: store_ending(order),
        rd: failed,
        rs2: new,
        rs1: ADDRESS,
    }
}

/// A branch by some instructions where two registers differ.
fn branch_if_not(left: u8, right: u8, distance: i32) -> RvInstr
    ensures { result ≡ RvInstr.Branch Condition.NotEqual left right distance }
{
    RvInstr::Branch {
        condition: Condition::NotEqual,
        rs1: left,
        rs2: right,
        distance,
    }
}

/// The expected number, extended as a linked one.
fn comparand(width: Width) -> RvInstr
    ensures { result ≡ comparand width }
{
    match width {
        Width::W32 => RvInstr::Unary {
            op: Unary::SignExtendWord,
            rd: FREE,
            rs: NUMBER,
        },
        _ => RvInstr::Immediate {
            op: Immediate::Add,
            rd: FREE,
            rs: NUMBER,
            n: 0,
        },
    }
}

/// Appends what a strong exchange does behind its pair store: back where that failed, and then the
/// difference of the two numbers tells whether it was made.
fn push_strong_answer(out: &mut Piece) -> Result<(), AllocError>
    ensures { OnOk result (out.new.items ≡ out.old.items ++ silently strong_answer) }
{
    push_silent(out, branch_if_not(STORED, 0, -4))?;
    push_silent(
        out,
        RvInstr::Binary {
            op: Binary::Subtract,
            rd: STORED,
            rs1: RESULT,
            rs2: FREE,
        },
    )?;
    push_silent(
        out,
        RvInstr::Unary {
            op: Unary::IsZero,
            rd: STORED,
            rs: STORED,
        },
    )
}

/// Appends what a weak exchange does there: false where the pair store failed, and where the numbers
/// differ.
fn push_weak_answer(out: &mut Piece) -> Result<(), AllocError>
    ensures { OnOk result (out.new.items ≡ out.old.items ++ silently weak_answer) }
{
    push_silent(
        out,
        RvInstr::Unary {
            op: Unary::IsZero,
            rd: STORED,
            rs: STORED,
        },
    )?;
    push_silent(out, RvInstr::Jump { distance: 2 })?;
    push_silent(out, RvInstr::Li { rd: STORED, n: 0 })
}

/// Appends what tells whether the exchange was made.
fn push_answer(out: &mut Piece, weak: bool) -> Result<(), AllocError>
    ensures { OnOk result (out.new.items ≡ out.old.items ++ silently (answer weak)) }
{
    if weak {
        push_weak_answer(out)
    } else {
        push_strong_answer(out)
    }
}

/// How far from the comparison the code stands that answers where the numbers differ.
fn different(weak: bool) -> i32
    ensures { result ≡ pos (different weak) }
{
    if weak { 4 } else { 3 }
}

/// The mark of an exchange's pair store: where it fails a weak one misses.
fn pair_mark(weak: bool) -> Tag
    ensures { result ≡ pair_mark weak }
{
    if weak { Tag::StoredOrMiss } else { Tag::Stored }
}

/// Appends the linked load of an exchange and the comparison with the expected number.
fn push_comparison(
    out: &mut Piece,
    width: Width,
    order: Order,
    weak: bool,
) -> Result<(), AllocError>
    ensures { OnOk result (out.new.items ≡ out.old.items ++ (link width order, Tag.Linked weak 11 None) ∷ (comparand width, Tag.Silent) ∷ (RvInstr.Branch Condition.NotEqual 15 5 (pos (different weak)), Tag.Silent) ∷ []) }
{
    let mark = Tag::Linked {
        weak,
        expected: NUMBER,
        mask: None,
    };
    push_marked(out, link(width, order), mark)?;
    push_silent(out, comparand(width))?;
    push_silent(out, branch_if_not(RESULT, FREE, different(weak)))
}

/// Appends the code of a compare-exchange.
pub(crate) fn push_exchange(
    out: &mut Piece,
    width: Width,
    order: Order,
    weak: bool,
) -> Result<(), AllocError>
    ensures { OnOk result (out.new.items ≡ out.old.items ++ exchange_code width order weak) }
{
    push_comparison(out, width, order, weak)?;
    push_marked(
        out,
        pair_store(width, order, STORED, DESIRED),
        pair_mark(weak),
    )?;
    push_answer(out, weak)?;
    push_clear(out, width)
}

/// Appends what a nand computes from the number that is linked.
fn push_computation(out: &mut Piece, width: Width) -> Result<(), AllocError>
    ensures { OnOk result (out.new.items ≡ out.old.items ++ silently (nand_computation width)) }
{
    push_clear(out, width)?;
    push_silent(
        out,
        RvInstr::Binary {
            op: Binary::And,
            rd: NEW,
            rs1: RESULT,
            rs2: NUMBER,
        },
    )?;
    push_silent(
        out,
        RvInstr::Unary {
            op: Unary::Not,
            rd: NEW,
            rs: NEW,
        },
    )
}

/// The distance from the branch back to the linked load.
fn nand_back(width: Width) -> i32
    ensures { result ≡ nand_back width }
{
    match width {
        Width::W32 => -6,
        _ => -4,
    }
}

/// Appends the code of a nand.
pub(crate) fn push_nand(out: &mut Piece, width: Width, order: Order) -> Result<(), AllocError>
    ensures { OnOk result (out.new.items ≡ out.old.items ++ nand_code width order) }
{
    push_silent(out, link(width, order))?;
    push_computation(out, width)?;
    push_marked(out, pair_store(width, order, FAILED, NEW), Tag::Stored)?;
    push_silent(out, branch_if_not(FAILED, 0, nand_back(width)))
}
