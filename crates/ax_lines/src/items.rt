//! Items parted by commas.

ghost use Rattle.std.specs.Prelude.{◌≡◌};
ghost use Rattle.ax_symbols.specs.Pieces.{Gives};
ghost use Rattle.ax_lines.specs.Stops.{ReadsAs};
ghost use Rattle.ax_symbols.specs.Grammar.{reads, list};
ghost use Rattle.ax_lines.specs.Productions.{incoming, parameter, element, same_type, call_argument, pointer_argument, value_argument, begins_pointer};

use crate::listing::Stop;
use crate::operand::pointer_behind;
use crate::statement::Argument;
use ax_module::Ty;
use ax_symbols::{
    NameSpan, Pass, Punctuation, Sign, Symbol, Value, Word, constant, local, pass_over, sign_at,
    strip, type_at, value,
};
use std::alloc::Global;

const COMMA: [Sign; 1] = [Sign::Mark(Punctuation::Comma)];

/// `[ V, %b ]`.
#[tactic(auto, unfolding(crate::specs::Productions::incoming))]
fn incoming(line: &[Symbol]) -> Option<((Value, NameSpan), &[Symbol])>
    ensures { Gives (λ x. (x.0, x.1.now)) result (reads incoming line.now) }
{
    let rest = strip(line, &[Sign::Mark(Punctuation::OpenBracket)])?;
    let (value, rest) = value(rest)?;
    let rest = strip(rest, &COMMA)?;
    let (block, rest) = local(rest)?;
    let rest = strip(rest, &[Sign::Mark(Punctuation::CloseBracket)])?;
    Some(((value, block), rest))
}

/// `TYPE [PASS] %p`.
#[tactic(auto, unfolding(crate::specs::Productions::parameter))]
fn parameter(line: &[Symbol]) -> Option<((Ty, NameSpan), &[Symbol])>
    ensures { Gives (λ x. (x.0, x.1.now)) result (reads parameter line.now) }
{
    let (ty, rest) = type_at(line)?;
    let (name, rest) = local(pass_over(Pass::Plain, rest))?;
    Some(((ty, name), rest))
}

fn same_type(a: Ty, b: Ty) -> bool
    ensures { result ≡ same_type a b }
{
    match a {
        Ty::I1 => matches!(b, Ty::I1),
        Ty::I8 => matches!(b, Ty::I8),
        Ty::I16 => matches!(b, Ty::I16),
        Ty::I32 => matches!(b, Ty::I32),
        Ty::I64 => matches!(b, Ty::I64),
        Ty::I128 => matches!(b, Ty::I128),
        Ty::Int(a) => matches!(b, Ty::Int(b) if a == b),
        Ty::Float => matches!(b, Ty::Float),
        Ty::Double => matches!(b, Ty::Double),
        Ty::Ptr => matches!(b, Ty::Ptr),
        Ty::Vector => matches!(b, Ty::Vector),
    }
}

/// `TYPE CONST`, the type being this one.
#[tactic(auto, unfolding(crate::specs::Productions::element))]
fn element(ty: Ty, line: &[Symbol]) -> Option<(Value, &[Symbol])>
    ensures { Gives (λ x. (x.0, x.1.now)) result (reads (element ty) line.now) }
{
    let (found, rest) = type_at(line)?;
    if same_type(ty, found) {
        constant(rest)
    } else {
        None
    }
}

fn begins_pointer(sign: Sign) -> bool
    ensures { result ≡ begins_pointer sign }
{
    matches!(
        sign,
        Sign::Word(Word::Getelementptr)
            | Sign::Global
            | Sign::Intrinsic
            | Sign::Lifetime
            | Sign::Local
    )
}

/// Behind `ptr`: a pointer, or else a constant of type `ptr`.
#[tactic(auto, unfolding(crate::specs::Productions::pointer_argument))]
fn pointer_argument(line: &[Symbol]) -> Option<(Argument, &[Symbol])>
    ensures { Gives (λ x. (x.0, x.1.now)) result (reads pointer_argument line.now) }
{
    if begins_pointer(sign_at(line, 0)) {
        let (pointer, rest) = pointer_behind(line)?;
        Some((Argument::Pointer(pointer), rest))
    } else {
        let (value, rest) = value(line)?;
        Some((Argument::Value(Ty::Ptr, value), rest))
    }
}

/// `TYPE [PASS] V`.
#[tactic(auto, unfolding(crate::specs::Productions::value_argument))]
fn value_argument(line: &[Symbol]) -> Option<(Argument, &[Symbol])>
    ensures { Gives (λ x. (x.0, x.1.now)) result (reads value_argument line.now) }
{
    let (ty, rest) = type_at(line)?;
    let (value, rest) = value(pass_over(Pass::Argument, rest))?;
    Some((Argument::Value(ty, value), rest))
}

/// An argument of a call.
#[tactic(auto, unfolding(crate::specs::Productions::call_argument))]
fn call_argument(line: &[Symbol]) -> Option<(Argument, &[Symbol])>
    ensures { Gives (λ x. (x.0, x.1.now)) result (reads call_argument line.now) }
{
    match strip(line, &[Sign::Word(Word::Ptr)]) {
        Some(rest) => pointer_argument(pass_over(Pass::Argument, rest)),
        None => value_argument(line),
    }
}

/// The values of a phi, each with its block.
#[tactic(auto, using(ax_symbols::proofs::Commas::list_starts, ax_symbols::proofs::Commas::list_fails))]
pub fn incomings<'a>(
    alloc: Global,
    line: &'a [Symbol],
) -> Result<(Vec<(Value, NameSpan)>, &'a [Symbol]), Stop>
    ensures { ReadsAs (λ x. (x.0.items, x.1.now)) result (reads (list incoming) line.now) }
{
    let mut found = Vec::new(alloc);
    let mut rest = line;
    loop {
        let Some((item, behind)) = incoming(rest) else {
            return Err(Stop::Bad);
        };
        found.push(item)?;
        let Some(next) = strip(behind, &COMMA) else {
            return Ok((found, behind));
        };
        rest = next;
    }
}

/// Parameters, at least one.
#[tactic(auto, using(ax_symbols::proofs::Commas::list_starts, ax_symbols::proofs::Commas::list_fails))]
pub fn parameters<'a>(
    alloc: Global,
    line: &'a [Symbol],
) -> Result<(Vec<(Ty, NameSpan)>, &'a [Symbol]), Stop>
    ensures { ReadsAs (λ x. (x.0.items, x.1.now)) result (reads (list parameter) line.now) }
{
    let mut found = Vec::new(alloc);
    let mut rest = line;
    loop {
        let Some((item, behind)) = parameter(rest) else {
            return Err(Stop::Bad);
        };
        found.push(item)?;
        let Some(next) = strip(behind, &COMMA) else {
            return Ok((found, behind));
        };
        rest = next;
    }
}

/// The first numbers of an array of this type.
#[tactic(auto, using(ax_symbols::proofs::Commas::list_starts, ax_symbols::proofs::Commas::list_fails))]
pub fn first_numbers<'a>(
    alloc: Global,
    ty: Ty,
    line: &'a [Symbol],
) -> Result<(Vec<Value>, &'a [Symbol]), Stop>
    ensures { ReadsAs (λ x. (x.0.items, x.1.now)) result (reads (list (element ty)) line.now) }
{
    let mut found = Vec::new(alloc);
    let mut rest = line;
    loop {
        let Some((item, behind)) = element(ty, rest) else {
            return Err(Stop::Bad);
        };
        found.push(item)?;
        let Some(next) = strip(behind, &COMMA) else {
            return Ok((found, behind));
        };
        rest = next;
    }
}

/// Arguments of a call, at least one.
#[tactic(auto, using(ax_symbols::proofs::Commas::list_starts, ax_symbols::proofs::Commas::list_fails))]
pub fn call_arguments<'a>(
    alloc: Global,
    line: &'a [Symbol],
) -> Result<(Vec<Argument>, &'a [Symbol]), Stop>
    ensures { ReadsAs (λ x. (x.0.items, x.1.now)) result (reads (list call_argument) line.now) }
{
    let mut found = Vec::new(alloc);
    let mut rest = line;
    loop {
        let Some((item, behind)) = call_argument(rest) else {
            return Err(Stop::Bad);
        };
        found.push(item)?;
        let Some(next) = strip(behind, &COMMA) else {
            return Ok((found, behind));
        };
        rest = next;
    }
}
