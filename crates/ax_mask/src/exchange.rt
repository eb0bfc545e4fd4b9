//! The code of compare-exchanges.

ghost use Rattle.std.specs.Prelude.{◌≡◌, ◌++◌, OnOk, pos};
ghost use Rattle.ax_expand.specs.Standing.{silently};
ghost use Rattle.ax_loops.specs.PairExchange.{pair_mark};
ghost use Rattle.ax_mask.specs.Codes.{comparison, different, exchange_answer, exchange_between, exchange_code, exchange_loop};

use crate::parts::{branch_if, link, push_binary, push_marked, push_unary, store};
use crate::registers::{MASK, NEW, OPERAND, PLACED, RESULT, STORED};
use crate::setup::{push_exchange_setup, push_take_out};
use crate::updates::push_merge;
use ax_emit_rv::{Piece, push_silent};
use ax_rv::{Binary, Unary};
use ax_tags::Tag;
use ax_words::{Order, Width};
use std::alloc::AllocError;

/// The mark of an exchange's pair store: where it fails a weak one misses.
fn pair_mark(weak: bool) -> Tag
    ensures { result ≡ pair_mark weak }
{
    if weak { Tag::StoredOrMiss } else { Tag::Stored }
}

/// How far from the comparison the code stands that answers where the objects differ.
fn different(weak: bool) -> i32
    ensures { result ≡ pos (different weak) }
{
    if weak { 5 } else { 6 }
}

/// Appends the comparison of the linked object with the expected one.
fn push_comparison(out: &mut Piece) -> Result<(), AllocError>
    ensures { OnOk result (out.new.items ≡ out.old.items ++ silently comparison) }
{
    push_binary(out, Binary::Xor, NEW, RESULT, OPERAND)?;
    push_binary(out, Binary::And, NEW, NEW, MASK)?;
    push_unary(out, Unary::SignExtendWord, NEW, NEW)
}

/// Appends what stands between the linked load and the pair store.
fn push_between(out: &mut Piece, weak: bool) -> Result<(), AllocError>
    ensures { OnOk result (out.new.items ≡ out.old.items ++ silently (exchange_between weak)) }
{
    push_comparison(out)?;
    push_silent(out, branch_if(NEW, different(weak)))?;
    push_merge(out, PLACED)
}

/// Appends what tells whether the exchange was made: a strong one goes back where its pair store
/// failed.
fn push_answer(out: &mut Piece, weak: bool) -> Result<(), AllocError>
    ensures { OnOk result (out.new.items ≡ out.old.items ++ silently (exchange_answer weak)) }
{
    if !weak {
        push_silent(out, branch_if(NEW, -9))?;
    }
    push_unary(out, Unary::IsZero, STORED, NEW)
}

/// Appends the loop of a compare-exchange.
fn push_exchange_loop(
    out: &mut Piece,
    width: Width,
    order: Order,
    weak: bool,
) -> Result<(), AllocError>
    ensures { OnOk result (out.new.items ≡ out.old.items ++ exchange_loop width order weak) }
{
    let mark = Tag::Linked {
        weak,
        expected: OPERAND,
        mask: Some(MASK),
    };
    push_marked(out, link(order), mark)?;
    push_between(out, weak)?;
    push_marked(out, store(order), pair_mark(weak))?;
    push_answer(out, weak)?;
    push_take_out(out, width)
}

/// Appends the code of a compare-exchange.
pub(crate) fn push_exchange(
    out: &mut Piece,
    width: Width,
    order: Order,
    weak: bool,
) -> Result<(), AllocError>
    ensures { OnOk result (out.new.items ≡ out.old.items ++ exchange_code width order weak) }
{
    push_exchange_setup(out, width)?;
    push_exchange_loop(out, width, order, weak)
}
