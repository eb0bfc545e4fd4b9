//! Types.

ghost use Rattle.std.specs.Prelude.{◌≡◌, ◌<◌, Some, length, MatchOption};
ghost use Rattle.ax_symbols.specs.Pieces.{Gives, one_at, simple_type, simple_type_of, opens_vector, is_greater, closed, type_at};
ghost use Rattle.ax_symbols.specs.Vectors.{closed_times};

use crate::pass::is_count;
use crate::symbol::{Punctuation, Sign, Symbol};
use crate::vocabulary::Word;
use ax_module::Ty;

fn simple_type(sign: Sign) -> Option<Ty>
    ensures { result ≡ simple_type sign }
{
    match sign {
        Sign::Int(bits) => Some(Ty::of_bits(bits)),
        Sign::Word(Word::Float) => Some(Ty::Float),
        Sign::Word(Word::Double) => Some(Ty::Double),
        Sign::Word(Word::Ptr) => Some(Ty::Ptr),
        _ => None,
    }
}

/// A type that is no vector.
fn simple_type_at(line: &[Symbol]) -> Option<(Ty, &[Symbol])>
    ensures { Gives (λ x. (x.0, x.1.now)) result (one_at simple_type_of line.now) }
{
    let [first, rest @ ..] = line else {
        return None;
    };
    let ty = simple_type(first.sign)?;
    Some((ty, rest))
}

fn is_greater(sign: Sign) -> bool
    ensures { result ≡ is_greater sign }
{
    matches!(sign, Sign::Mark(Punctuation::Greater))
}

/// `< N x`.
fn opens_vector(a: Sign, b: Sign, c: Sign) -> bool
    ensures { result ≡ opens_vector a b c }
{
    matches!(a, Sign::Mark(Punctuation::Less)) && is_count(b) && matches!(c, Sign::Word(Word::X))
}

/// What stands behind the beginning of a vector, where one begins there.
#[tactic(auto, using(crate::proofs::Closing::too_short))]
fn opening(line: &[Symbol]) -> Option<&[Symbol]>
    ensures { MatchOption result
        (type_at line.now ≡ one_at simple_type_of line.now)
        (λ rest. (type_at line.now ≡ closed (type_at rest.now)) × (length rest.now < length line.now)) }
{
    let [a, b, c, rest @ ..] = line else {
        return None;
    };
    if opens_vector(a.sign, b.sign, c.sign) {
        Some(rest)
    } else {
        None
    }
}

/// The number of vectors that begin one in the other, and what stands behind their beginnings.
fn openings(line: &[Symbol]) -> (usize, &[Symbol])
    ensures { closed_times result.0 (one_at simple_type_of result.1.now) ≡ type_at line.now }
{
    let mut rest = line;
    let mut depth = 0;
    while let Some(behind) = opening(rest) {
        depth += 1;
        rest = behind;
    }
    (depth, rest)
}

/// A vector, behind the type of its elements: what stands behind its `>`.
fn closing<'a>(ty: Ty, line: &'a [Symbol]) -> Option<(Ty, &'a [Symbol])>
    ensures { Gives (λ x. (x.0, x.1.now)) result (closed (Some (ty, line.now))) }
{
    let [first, rest @ ..] = line else {
        return None;
    };
    if is_greater(first.sign) {
        Some((Ty::Vector, rest))
    } else {
        None
    }
}

/// The type that so many `>` close.
#[tactic(auto, using(crate::proofs::Closing::close_step, crate::proofs::Closing::close_none))]
fn closings<'a>(depth: usize, ty: Ty, line: &'a [Symbol]) -> Option<(Ty, &'a [Symbol])>
    ensures { Gives (λ x. (x.0, x.1.now)) result (closed_times depth (Some (ty, line.now))) }
{
    let mut found = (ty, line);
    for _ in 0..depth {
        found = closing(found.0, found.1)?;
    }
    Some(found)
}

/// The type at the front.
#[tactic(auto, using(crate::proofs::Closing::close_none))]
pub fn type_at(line: &[Symbol]) -> Option<(Ty, &[Symbol])>
    ensures { Gives (λ x. (x.0, x.1.now)) result (type_at line.now) }
{
    let (depth, rest) = openings(line);
    let (ty, rest) = simple_type_at(rest)?;
    closings(depth, ty, rest)
}
