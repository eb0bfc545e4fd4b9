//! Operands: values with their types, pointers, alignments.

ghost use Rattle.std.specs.Prelude.{◌≡◌, Some};
ghost use Rattle.ax_symbols.specs.Pieces.{Gives};
ghost use Rattle.ax_symbols.specs.Grammar.{reads};
ghost use Rattle.ax_lines.specs.Productions.{maybe, alignment, stated_alignment, typed_value, result_type, elements, first_index, path, pointer_behind, pointer_operand, count_or};

use crate::statement::{Path, Pointer};
use ax_module::Ty;
use ax_symbols::{
    Pass, Punctuation, Sign, Symbol, Value, Word, base, count, pass_over, strip, type_at, value,
};

const COMMA: [Sign; 1] = [Sign::Mark(Punctuation::Comma)];

/// Whether these signs stand there, and what stands behind them.
pub fn maybe<'a>(line: &'a [Symbol], signs: &[Sign]) -> (bool, &'a [Symbol])
    ensures { reads (maybe signs.now) line.now ≡ Some (result.0, result.1.now) }
{
    match strip(line, signs) {
        Some(rest) => (true, rest),
        None => (false, line),
    }
}

/// `[, align N]`.
#[tactic(auto, unfolding(crate::specs::Productions::alignment))]
pub fn alignment(line: &[Symbol]) -> Option<(Option<u64>, &[Symbol])>
    ensures { Gives (λ x. (x.0, x.1.now)) result (reads alignment line.now) }
{
    match strip(
        line,
        &[Sign::Mark(Punctuation::Comma), Sign::Word(Word::Align)],
    ) {
        Some(rest) => {
            let (n, rest) = count(rest)?;
            Some((Some(n), rest))
        }
        None => Some((None, line)),
    }
}

/// `, align N`.
#[tactic(auto, unfolding(crate::specs::Productions::stated_alignment))]
pub fn stated_alignment(line: &[Symbol]) -> Option<(u64, &[Symbol])>
    ensures { Gives (λ x. (x.0, x.1.now)) result (reads stated_alignment line.now) }
{
    let rest = strip(
        line,
        &[Sign::Mark(Punctuation::Comma), Sign::Word(Word::Align)],
    )?;
    count(rest)
}

/// `TYPE V`.
#[tactic(auto, unfolding(crate::specs::Productions::typed_value))]
pub fn typed_value(line: &[Symbol]) -> Option<((Ty, Value), &[Symbol])>
    ensures { Gives (λ x. (x.0, x.1.now)) result (reads typed_value line.now) }
{
    let (ty, rest) = type_at(line)?;
    let (value, rest) = value(rest)?;
    Some(((ty, value), rest))
}

/// `void` or a TYPE.
#[tactic(auto, unfolding(crate::specs::Productions::result_type))]
pub fn result_type(line: &[Symbol]) -> Option<(Option<Ty>, &[Symbol])>
    ensures { Gives (λ x. (x.0, x.1.now)) result (reads result_type line.now) }
{
    match strip(line, &[Sign::Word(Word::Void)]) {
        Some(rest) => Some((None, rest)),
        None => {
            let (ty, rest) = type_at(line)?;
            Some((Some(ty), rest))
        }
    }
}

/// `TYPE` or `[ C x TYPE ]`: the type of the elements and, of an array, their number.
#[tactic(auto, unfolding(crate::specs::Productions::elements))]
pub fn elements(line: &[Symbol]) -> Option<((Ty, Option<u64>), &[Symbol])>
    ensures { Gives (λ x. (x.0, x.1.now)) result (reads elements line.now) }
{
    match strip(line, &[Sign::Mark(Punctuation::OpenBracket)]) {
        Some(rest) => {
            let (n, rest) = count(rest)?;
            let rest = strip(rest, &[Sign::Word(Word::X)])?;
            let (ty, rest) = type_at(rest)?;
            let rest = strip(rest, &[Sign::Mark(Punctuation::CloseBracket)])?;
            Some(((ty, Some(n)), rest))
        }
        None => {
            let (ty, rest) = type_at(line)?;
            Some(((ty, None), rest))
        }
    }
}

/// The first index of an array, `TYPE 0,`.
#[tactic(auto, unfolding(crate::specs::Productions::first_index))]
fn first_index<'a>(array: Option<u64>, line: &'a [Symbol]) -> Option<&'a [Symbol]>
    ensures { Gives (λ r. (tt, r.now)) result (reads (first_index array) line.now) }
{
    match array {
        None => Some(line),
        Some(_) => {
            let (_, rest) = type_at(line)?;
            strip(
                rest,
                &[Sign::Number(false, 0), Sign::Mark(Punctuation::Comma)],
            )
        }
    }
}

/// `TYPE, ptr BASE, TYPE V`, or `[ C x TYPE ], ptr BASE, TYPE 0, TYPE V`.
#[tactic(auto, unfolding(crate::specs::Productions::path))]
pub fn path(line: &[Symbol]) -> Option<(Path, &[Symbol])>
    ensures { Gives (λ x. (x.0, x.1.now)) result (reads path line.now) }
{
    let ((elem, array), rest) = elements(line)?;
    let rest = strip(
        rest,
        &[Sign::Mark(Punctuation::Comma), Sign::Word(Word::Ptr)],
    )?;
    let (base, rest) = base(rest)?;
    let rest = strip(rest, &COMMA)?;
    let rest = first_index(array, rest)?;
    let ((index_type, index), rest) = typed_value(rest)?;
    let path = Path {
        elem,
        count: array.unwrap_or(0),
        base,
        index_type,
        index,
    };
    Some((path, rest))
}

/// Behind `ptr`: `@g`, `%v`, or `getelementptr [inbounds] [nuw] ( GEP )`, with each of the two words
/// once at most and in this order (LLVM Language Reference, Constant Expressions).
#[tactic(auto, unfolding(crate::specs::Productions::pointer_behind))]
pub fn pointer_behind(line: &[Symbol]) -> Option<(Pointer, &[Symbol])>
    ensures { Gives (λ x. (x.0, x.1.now)) result (reads pointer_behind line.now) }
{
    match strip(line, &[Sign::Word(Word::Getelementptr)]) {
        Some(rest) => {
            let (_, rest) = maybe(rest, &[Sign::Word(Word::Inbounds)]);
            let (_, rest) = maybe(rest, &[Sign::Word(Word::Nuw)]);
            let rest = strip(rest, &[Sign::Mark(Punctuation::Open)])?;
            let (path, rest) = path(rest)?;
            let rest = strip(rest, &[Sign::Mark(Punctuation::Close)])?;
            Some((Pointer::Element(path), rest))
        }
        None => {
            let (base, rest) = base(line)?;
            Some((Pointer::Base(base), rest))
        }
    }
}

/// A pointer.
#[tactic(auto, unfolding(crate::specs::Productions::pointer_operand))]
pub fn pointer_operand(line: &[Symbol]) -> Option<(Pointer, &[Symbol])>
    ensures { Gives (λ x. (x.0, x.1.now)) result (reads pointer_operand line.now) }
{
    let rest = strip(line, &[Sign::Word(Word::Ptr)])?;
    pointer_behind(pass_over(Pass::Plain, rest))
}
