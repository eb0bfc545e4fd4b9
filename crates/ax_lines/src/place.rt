//! Which lines stand where.

ghost use Rattle.std.specs.Prelude.{◌≡◌};
ghost use Rattle.ax_lines.specs.Stops.{ReadsAs};
ghost use Rattle.ax_symbols.specs.Grammar.{reads, all_of};
ghost use Rattle.ax_lines.specs.Productions.{passed_line, label_line, close_line, outside, is_label, at_start, named_call, between, behind_block, line_at, is_terminator, is_phi, section_behind, section_after};

use crate::block::{blank, in_block, result_name};
use crate::calls::call;
use crate::listing::Stop;
use crate::outer::{define_line, global_line};
use crate::statement::{Line, Section, Statement};
use ax_symbols::{Punctuation, Sign, Symbol, Word, is_label_sign, label, sign_at, strip};
use std::alloc::Global;

/// A line that is passed over whole.
#[tactic(auto, unfolding(crate::specs::Productions::passed_line))]
fn passed_line(line: &[Symbol]) -> Result<(Line, &[Symbol]), Stop>
    ensures { ReadsAs (λ x. (x.0, x.1.now)) result (reads passed_line line.now) }
{
    Ok((Line::Nothing, &line[line.len()..]))
}

/// `name:`.
#[tactic(auto, unfolding(crate::specs::Productions::label_line))]
fn label_line(line: &[Symbol]) -> Result<(Line, &[Symbol]), Stop>
    ensures { ReadsAs (λ x. (x.0, x.1.now)) result (reads label_line line.now) }
{
    let (name, rest) = label(line).ok_or(Stop::Bad)?;
    let rest = strip(rest, &[Sign::Mark(Punctuation::Colon)]).ok_or(Stop::Bad)?;
    Ok((Line::Label(name), rest))
}

/// `}`.
#[tactic(auto, unfolding(crate::specs::Productions::close_line))]
fn close_line(line: &[Symbol]) -> Result<(Line, &[Symbol]), Stop>
    ensures { ReadsAs (λ x. (x.0, x.1.now)) result (reads close_line line.now) }
{
    let rest = strip(line, &[Sign::Mark(Punctuation::CloseBrace)]).ok_or(Stop::Bad)?;
    Ok((Line::Close, rest))
}

/// A line outside functions, by its first sign.
#[tactic(auto, unfolding(crate::specs::Productions::outside))]
fn outside<'a>(
    alloc: Global,
    signs: (Sign, Sign),
    line: &'a [Symbol],
) -> Result<(Line, &'a [Symbol]), Stop>
    ensures { ReadsAs (λ x. (x.0, x.1.now)) result (reads (outside signs.0 signs.1) line.now) }
{
    match signs.0 {
        Sign::Feed => blank(line),
        Sign::Word(Word::SourceFilename | Word::Target | Word::Declare | Word::Attributes)
        | Sign::Meta
        | Sign::Mark(Punctuation::Bang)
        | Sign::Intrinsic
        | Sign::Lifetime => passed_line(line),
        Sign::Global => global_line(alloc, line),
        Sign::Word(Word::Define) => define_line(alloc, line),
        _ => Err(Stop::Bad),
    }
}

pub(crate) fn is_label(first: Sign, second: Sign) -> bool
    ensures { result ≡ is_label first second }
{
    is_label_sign(first) && matches!(second, Sign::Mark(Punctuation::Colon))
}

/// A line behind a function's head.
fn at_start<'a>(
    alloc: Global,
    signs: (Sign, Sign),
    line: &'a [Symbol],
) -> Result<(Line, &'a [Symbol]), Stop>
    ensures { ReadsAs (λ x. (x.0, x.1.now)) result (reads (at_start signs.0 signs.1) line.now) }
{
    if is_label(signs.0, signs.1) {
        label_line(line)
    } else {
        in_block(alloc, true, signs, line)
    }
}

/// `%r =` and a call that is passed over.
#[tactic(auto, unfolding(crate::specs::Productions::named_call))]
fn named_call(alloc: Global, line: &[Symbol]) -> Result<(Line, &[Symbol]), Stop>
    ensures { ReadsAs (λ x. (x.0, x.1.now)) result (reads named_call line.now) }
{
    let (name, rest) = result_name(line).ok_or(Stop::Bad)?;
    call(alloc, true, Some(name), rest)
}

/// A line behind a terminator that is no label.
#[tactic(auto, unfolding(crate::specs::Productions::between))]
fn between<'a>(alloc: Global, first: Sign, line: &'a [Symbol]) -> Result<(Line, &'a [Symbol]), Stop>
    ensures { ReadsAs (λ x. (x.0, x.1.now)) result (reads (between first) line.now) }
{
    match first {
        Sign::Feed => blank(line),
        Sign::Mark(Punctuation::CloseBrace) => close_line(line),
        Sign::Word(Word::Call | Word::Tail) => call(alloc, true, None, line),
        Sign::Local => named_call(alloc, line),
        _ => Err(Stop::Bad),
    }
}

/// A line behind a terminator.
fn behind_block<'a>(
    alloc: Global,
    signs: (Sign, Sign),
    line: &'a [Symbol],
) -> Result<(Line, &'a [Symbol]), Stop>
    ensures { ReadsAs (λ x. (x.0, x.1.now)) result (reads (behind_block signs.0 signs.1) line.now) }
{
    if is_label(signs.0, signs.1) {
        label_line(line)
    } else {
        between(alloc, signs.0, line)
    }
}

/// The front of a line at this place, and what stands behind it.
#[tactic(auto, unfolding(crate::specs::Productions::line_at))]
fn front_at<'a>(
    alloc: Global,
    place: Section,
    line: &'a [Symbol],
) -> Result<(Line, &'a [Symbol]), Stop>
    ensures { ReadsAs (λ x. (x.0, x.1.now)) result (reads (line_at place) line.now) }
{
    let signs = (sign_at(line, 0), sign_at(line, 1));
    match place {
        Section::Outside => outside(alloc, signs, line),
        Section::Start => at_start(alloc, signs, line),
        Section::Phis => in_block(alloc, true, signs, line),
        Section::Inside => in_block(alloc, false, signs, line),
        Section::Ended => behind_block(alloc, signs, line),
    }
}

/// What a whole line states at this place.
pub fn line_at(alloc: Global, place: Section, line: &[Symbol]) -> Result<Line, Stop>
    ensures { ReadsAs (λ x. x) result (all_of (reads (line_at place) line.now)) }
{
    let (stated, rest) = front_at(alloc, place, line)?;
    if !rest.is_empty() {
        return Err(Stop::Bad);
    }
    Ok(stated)
}

#[tactic(auto, unfolding(crate::specs::Productions::is_terminator))]
fn is_terminator(statement: &Statement) -> bool
    ensures { result ≡ is_terminator statement.now }
{
    matches!(
        statement,
        Statement::Jump(_)
            | Statement::Branch(..)
            | Statement::RetVoid
            | Statement::Ret(..)
            | Statement::Unreachable
    )
}

#[tactic(auto, unfolding(crate::specs::Productions::is_phi))]
fn is_phi(statement: &Statement) -> bool
    ensures { result ≡ is_phi statement.now }
{
    matches!(statement, Statement::Phi(..))
}

fn section_behind(statement: &Statement) -> Section
    ensures { result ≡ section_behind statement.now }
{
    if is_terminator(statement) {
        Section::Ended
    } else if is_phi(statement) {
        Section::Phis
    } else {
        Section::Inside
    }
}

/// Where the line behind this one stands.
#[tactic(auto, unfolding(crate::specs::Productions::section_after))]
pub fn section_after(place: Section, line: &Line) -> Section
    ensures { result ≡ section_after place line.now }
{
    match line {
        Line::Nothing | Line::Global(..) => place,
        Line::Define(..) => Section::Start,
        Line::Close => Section::Outside,
        Line::Label(_) => Section::Phis,
        Line::Inst(_, statement) => section_behind(statement),
    }
}
