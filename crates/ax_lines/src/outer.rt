//! Lines outside functions.

ghost use Rattle.std.specs.Prelude.{◌≡◌, ◌∷◌, [], IfOk};
ghost use Rattle.std.specs.List.{list_all};
ghost use Rattle.ax_lines.specs.Stops.{ReadsAs};
ghost use Rattle.ax_symbols.specs.Grammar.{reads};
ghost use Rattle.ax_lines.specs.Productions.{initial, is_zero, kept, global_line, define_line, items_in, parameter, count_or};

use crate::items::{first_numbers, parameters};
use crate::listing::Stop;
use crate::operand::{alignment, elements, result_type};
use crate::statement::Line;
use ax_module::Ty;
use ax_symbols::{
    NameSpan, Pass, Punctuation, Sign, Symbol, Value, Word, constant, global, pass_over, sign_at,
    strip,
};
use ax_words::Items;
use std::alloc::{AllocError, Global};

/// A list of one number.
fn single(alloc: Global, value: Value) -> Result<Vec<Value>, AllocError>
    ensures { IfOk result (λ v. v.items ≡ value ∷ []) }
{
    let mut values = Vec::new(alloc);
    values.push(value)?;
    Ok(values)
}

/// The numbers of an array with so many elements, or none for `zeroinitializer`.
#[tactic(auto, unfolding(crate::specs::Productions::initial))]
fn initial<'a>(
    alloc: Global,
    ty: Ty,
    array: Option<u64>,
    line: &'a [Symbol],
) -> Result<(Vec<Value>, &'a [Symbol]), Stop>
    ensures { ReadsAs (λ x. (x.0.items, x.1.now)) result (reads (initial ty array) line.now) }
{
    if let Some(rest) = strip(line, &[Sign::Word(Word::Zeroinitializer)]) {
        return Ok((Vec::new(alloc), rest));
    }
    let Some(count) = array else {
        let (value, rest) = constant(line).ok_or(Stop::Bad)?;
        return Ok((single(alloc, value)?, rest));
    };
    let rest = strip(line, &[Sign::Mark(Punctuation::OpenBracket)]).ok_or(Stop::Bad)?;
    let (values, rest) = first_numbers(alloc, ty, rest)?;
    let rest = strip(rest, &[Sign::Mark(Punctuation::CloseBracket)]).ok_or(Stop::Bad)?;
    if values.len() as u64 != count {
        return Err(Stop::Bad);
    }
    Ok((values, rest))
}

fn is_zero(value: &Value) -> bool
    ensures { result ≡ is_zero value.now }
{
    matches!(value, Value::Const(0))
}

fn all_zero(values: &[Value]) -> bool
    ensures { result ≡ list_all is_zero values.now }
{
    values.iter().all(is_zero)
}

/// The numbers, or none where all are zero.
fn kept(alloc: Global, values: Vec<Value>) -> Items<Value>
    ensures { result ≡ kept values.items }
{
    if all_zero(&values) {
        Items::of(Vec::new(alloc))
    } else {
        Items::of(values)
    }
}

/// `@g = [PASS] global T INIT [, align N]`.
#[tactic(auto, unfolding(crate::specs::Productions::global_line))]
pub fn global_line(alloc: Global, line: &[Symbol]) -> Result<(Line, &[Symbol]), Stop>
    ensures { ReadsAs (λ x. (x.0, x.1.now)) result (reads global_line line.now) }
{
    let (name, rest) = global(line).ok_or(Stop::Bad)?;
    let rest = strip(rest, &[Sign::Mark(Punctuation::Equals)]).ok_or(Stop::Bad)?;
    let rest = strip(pass_over(Pass::Plain, rest), &[Sign::Word(Word::Global)]).ok_or(Stop::Bad)?;
    let ((ty, array), rest) = elements(rest).ok_or(Stop::Bad)?;
    let (values, rest) = initial(alloc, ty, array, rest)?;
    let (align, rest) = alignment(rest).ok_or(Stop::Bad)?;
    let values = kept(alloc, values);
    let global = Line::Global(name, ty, array.unwrap_or(1), values, align);
    Ok((global, rest))
}

/// Parameters, or none before a `)`.
fn parameters_in(alloc: Global, line: &[Symbol]) -> Result<(Vec<(Ty, NameSpan)>, &[Symbol]), Stop>
    ensures { ReadsAs (λ x. (x.0.items, x.1.now)) result (reads (items_in parameter) line.now) }
{
    match sign_at(line, 0) {
        Sign::Mark(Punctuation::Close) => Ok((Vec::new(alloc), line)),
        _ => parameters(alloc, line),
    }
}

/// `define [PASS] RESULT @f ( [PARAMS] ) [PASS] {`.
#[tactic(auto, unfolding(crate::specs::Productions::define_line))]
pub fn define_line(alloc: Global, line: &[Symbol]) -> Result<(Line, &[Symbol]), Stop>
    ensures { ReadsAs (λ x. (x.0, x.1.now)) result (reads define_line line.now) }
{
    let rest = strip(line, &[Sign::Word(Word::Define)]).ok_or(Stop::Bad)?;
    let (ty, rest) = result_type(pass_over(Pass::Plain, rest)).ok_or(Stop::Bad)?;
    let (name, rest) = global(rest).ok_or(Stop::Bad)?;
    let rest = strip(rest, &[Sign::Mark(Punctuation::Open)]).ok_or(Stop::Bad)?;
    let (parameters, rest) = parameters_in(alloc, rest)?;
    let rest = strip(rest, &[Sign::Mark(Punctuation::Close)]).ok_or(Stop::Bad)?;
    let rest = strip(
        pass_over(Pass::Plain, rest),
        &[Sign::Mark(Punctuation::OpenBrace)],
    )
    .ok_or(Stop::Bad)?;
    Ok((Line::Define(name, ty, Items::of(parameters)), rest))
}
