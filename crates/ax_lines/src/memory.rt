//! Instructions on memory.

ghost use Rattle.std.specs.Prelude.{◌≡◌};
ghost use Rattle.ax_symbols.specs.Pieces.{Gives};
ghost use Rattle.ax_symbols.specs.Grammar.{reads};
ghost use Rattle.ax_lines.specs.Productions.{atomic_load, plain_load, exchange, modification, atomic_store, plain_store, fence};

use crate::operand::{alignment, maybe, pointer_operand, stated_alignment, typed_value};
use crate::statement::Statement;
use ax_symbols::{Punctuation, Sign, Symbol, Word, order, rmw_operation, strip, tail, type_at};

const COMMA: [Sign; 1] = [Sign::Mark(Punctuation::Comma)];

const VOLATILE: [Sign; 1] = [Sign::Word(Word::Volatile)];

/// `load atomic [volatile] TYPE, P ORDER, align N TAIL`.
#[tactic(auto, unfolding(crate::specs::Productions::atomic_load))]
pub fn atomic_load(line: &[Symbol]) -> Option<(Statement, &[Symbol])>
    ensures { Gives (λ x. (x.0, x.1.now)) result (reads atomic_load line.now) }
{
    let rest = strip(line, &[Sign::Word(Word::Load), Sign::Word(Word::Atomic)])?;
    let (_, rest) = maybe(rest, &VOLATILE);
    let (ty, rest) = type_at(rest)?;
    let rest = strip(rest, &COMMA)?;
    let (pointer, rest) = pointer_operand(rest)?;
    let (order, rest) = order(rest)?;
    let (align, rest) = stated_alignment(rest)?;
    let rest = tail(rest)?;
    Some((Statement::LoadAtomic(ty, pointer, order, align), rest))
}

/// `load [volatile] TYPE, P [, align N] TAIL`.
#[tactic(auto, unfolding(crate::specs::Productions::plain_load))]
pub fn plain_load(line: &[Symbol]) -> Option<(Statement, &[Symbol])>
    ensures { Gives (λ x. (x.0, x.1.now)) result (reads plain_load line.now) }
{
    let rest = strip(line, &[Sign::Word(Word::Load)])?;
    let (_, rest) = maybe(rest, &VOLATILE);
    let (ty, rest) = type_at(rest)?;
    let rest = strip(rest, &COMMA)?;
    let (pointer, rest) = pointer_operand(rest)?;
    let (align, rest) = alignment(rest)?;
    let rest = tail(rest)?;
    Some((Statement::Load(ty, pointer, align), rest))
}

/// `cmpxchg [weak] [volatile] P, TYPE V, TYPE V ORDER ORDER [, align N] TAIL`.
#[tactic(auto, unfolding(crate::specs::Productions::exchange))]
pub fn exchange(line: &[Symbol]) -> Option<(Statement, &[Symbol])>
    ensures { Gives (λ x. (x.0, x.1.now)) result (reads exchange line.now) }
{
    let rest = strip(line, &[Sign::Word(Word::Cmpxchg)])?;
    let (weak, rest) = maybe(rest, &[Sign::Word(Word::Weak)]);
    let (_, rest) = maybe(rest, &VOLATILE);
    let (pointer, rest) = pointer_operand(rest)?;
    let rest = strip(rest, &COMMA)?;
    let (expected, rest) = typed_value(rest)?;
    let rest = strip(rest, &COMMA)?;
    let (desired, rest) = typed_value(rest)?;
    let (success, rest) = order(rest)?;
    let (failure, rest) = order(rest)?;
    let (align, rest) = alignment(rest)?;
    let rest = tail(rest)?;
    let orders = (success, failure);
    let exchange = Statement::Cmpxchg(weak, pointer, expected, desired, orders, align);
    Some((exchange, rest))
}

/// `atomicrmw [volatile] OP P, TYPE V ORDER [, align N] TAIL`.
#[tactic(auto, unfolding(crate::specs::Productions::modification))]
pub fn modification(line: &[Symbol]) -> Option<(Statement, &[Symbol])>
    ensures { Gives (λ x. (x.0, x.1.now)) result (reads modification line.now) }
{
    let rest = strip(line, &[Sign::Word(Word::Atomicrmw)])?;
    let (_, rest) = maybe(rest, &VOLATILE);
    let (operation, rest) = rmw_operation(rest)?;
    let (pointer, rest) = pointer_operand(rest)?;
    let rest = strip(rest, &COMMA)?;
    let ((ty, value), rest) = typed_value(rest)?;
    let (order, rest) = order(rest)?;
    let (align, rest) = alignment(rest)?;
    let rest = tail(rest)?;
    let modification = Statement::Rmw(operation, pointer, ty, value, order, align);
    Some((modification, rest))
}

/// `store atomic [volatile] TYPE V, P ORDER, align N TAIL`.
#[tactic(auto, unfolding(crate::specs::Productions::atomic_store))]
pub fn atomic_store(line: &[Symbol]) -> Option<(Statement, &[Symbol])>
    ensures { Gives (λ x. (x.0, x.1.now)) result (reads atomic_store line.now) }
{
    let rest = strip(line, &[Sign::Word(Word::Store), Sign::Word(Word::Atomic)])?;
    let (_, rest) = maybe(rest, &VOLATILE);
    let ((ty, value), rest) = typed_value(rest)?;
    let rest = strip(rest, &COMMA)?;
    let (pointer, rest) = pointer_operand(rest)?;
    let (order, rest) = order(rest)?;
    let (align, rest) = stated_alignment(rest)?;
    let rest = tail(rest)?;
    let store = Statement::StoreAtomic(ty, value, pointer, order, align);
    Some((store, rest))
}

/// `store [volatile] TYPE V, P [, align N] TAIL`.
#[tactic(auto, unfolding(crate::specs::Productions::plain_store))]
pub fn plain_store(line: &[Symbol]) -> Option<(Statement, &[Symbol])>
    ensures { Gives (λ x. (x.0, x.1.now)) result (reads plain_store line.now) }
{
    let rest = strip(line, &[Sign::Word(Word::Store)])?;
    let (_, rest) = maybe(rest, &VOLATILE);
    let ((ty, value), rest) = typed_value(rest)?;
    let rest = strip(rest, &COMMA)?;
    let (pointer, rest) = pointer_operand(rest)?;
    let (align, rest) = alignment(rest)?;
    let rest = tail(rest)?;
    Some((Statement::Store(ty, value, pointer, align), rest))
}

/// `fence [syncscope("singlethread")] ORDER TAIL`.
#[tactic(auto, unfolding(crate::specs::Productions::fence))]
pub fn fence(line: &[Symbol]) -> Option<(Statement, &[Symbol])>
    ensures { Gives (λ x. (x.0, x.1.now)) result (reads fence line.now) }
{
    let rest = strip(line, &[Sign::Word(Word::Fence)])?;
    let (single, rest) = maybe(
        rest,
        &[
            Sign::Word(Word::Syncscope),
            Sign::Mark(Punctuation::Open),
            Sign::SingleThread,
            Sign::Mark(Punctuation::Close),
        ],
    );
    let (order, rest) = order(rest)?;
    let rest = tail(rest)?;
    Some((Statement::Fence(single, order), rest))
}
