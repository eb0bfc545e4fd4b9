//! Phis and calls.

ghost use Rattle.std.specs.Prelude.{◌≡◌};
ghost use Rattle.ax_lines.specs.Stops.{ReadsAs};
ghost use Rattle.ax_symbols.specs.Grammar.{reads};
ghost use Rattle.ax_lines.specs.Productions.{phi, items_in, call_argument, may_have, call_states, call};

use crate::items::{call_arguments, incomings};
use crate::listing::Stop;
use crate::operand::{maybe, result_type};
use crate::statement::{Argument, Line, Statement};
use ax_module::Ty;
use ax_symbols::{
    NameSpan, Pass, Punctuation, Sign, Symbol, Word, callee, pass_over, sign_at, strip, tail,
    type_at,
};
use ax_words::Items;
use std::alloc::Global;

/// `phi TYPE [ V, %b ], ..`.
#[tactic(auto, unfolding(crate::specs::Productions::phi))]
pub fn phi(alloc: Global, line: &[Symbol]) -> Result<(Statement, &[Symbol]), Stop>
    ensures { ReadsAs (λ x. (x.0, x.1.now)) result (reads phi line.now) }
{
    let rest = strip(line, &[Sign::Word(Word::Phi)]).ok_or(Stop::Bad)?;
    let (ty, rest) = type_at(rest).ok_or(Stop::Bad)?;
    let (values, rest) = incomings(alloc, rest)?;
    Ok((Statement::Phi(ty, Items::of(values)), rest))
}

/// Arguments, or none before a `)`.
fn arguments_in(alloc: Global, line: &[Symbol]) -> Result<(Vec<Argument>, &[Symbol]), Stop>
    ensures { ReadsAs (λ x. (x.0.items, x.1.now)) result (reads (items_in call_argument) line.now) }
{
    match sign_at(line, 0) {
        Sign::Mark(Punctuation::Close) => Ok((Vec::new(alloc), line)),
        _ => call_arguments(alloc, line),
    }
}

fn may_have(name: Option<NameSpan>, ty: Option<Ty>) -> bool
    ensures { result ≡ may_have name ty }
{
    name.is_none() || ty.is_some()
}

/// What a call states: nothing, where it is passed over.
fn call_states(
    name: Option<NameSpan>,
    ty: Option<Ty>,
    called: (NameSpan, bool),
    arguments: Vec<Argument>,
) -> Line
    ensures { result ≡ call_states name ty called arguments.items }
{
    if called.1 {
        Line::Nothing
    } else {
        Line::Inst(name, Statement::Call(ty, called.0, Items::of(arguments)))
    }
}

/// `[tail] call [PASS] RESULT @f(ARGS) TAIL`, behind `%r =` where it has a name; only one that is
/// passed over where that is asked for.
#[tactic(auto, unfolding(crate::specs::Productions::call))]
pub fn call<'a>(
    alloc: Global,
    only: bool,
    name: Option<NameSpan>,
    line: &'a [Symbol],
) -> Result<(Line, &'a [Symbol]), Stop>
    ensures { ReadsAs (λ x. (x.0, x.1.now)) result (reads (call only name) line.now) }
{
    let (_, rest) = maybe(line, &[Sign::Word(Word::Tail)]);
    let rest = strip(rest, &[Sign::Word(Word::Call)]).ok_or(Stop::Bad)?;
    let (ty, rest) = result_type(pass_over(Pass::Plain, rest)).ok_or(Stop::Bad)?;
    let (called, rest) = callee(rest).ok_or(Stop::Bad)?;
    let rest = strip(rest, &[Sign::Mark(Punctuation::Open)]).ok_or(Stop::Bad)?;
    let (arguments, rest) = arguments_in(alloc, rest)?;
    let rest = strip(rest, &[Sign::Mark(Punctuation::Close)]).ok_or(Stop::Bad)?;
    let rest = tail(pass_over(Pass::Groups, rest)).ok_or(Stop::Bad)?;
    if !may_have(name, ty) || only && !called.1 {
        return Err(Stop::Bad);
    }
    Ok((call_states(name, ty, called, arguments), rest))
}
