//! Lines from symbols.

ghost use Rattle.std.specs.Prelude.{◌≡◌, ◌+◌, ◌<◌, ◌≤◌, List, [], ◌∷◌, length, MatchOption, MatchResult, MatchBool, IfOk, All};
ghost use Rattle.std.specs.List.{slice_split, position_or_len};
ghost use Rattle.ax_lex.specs.declared.token.Token.{Token};
ghost use Rattle.ax_symbols.specs.Symbols.{is_feed};
ghost use Rattle.ax_lines.specs.Lines.{AreLines, lines_of, param_count};
ghost use Rattle.ax_lines.specs.Faults.{IsLineFault, HaveFault, IsOrMemory, LineRead, FaultWithin};
ghost use Rattle.ax_lines.specs.declared.statement.Line.{Line};
ghost use Rattle.ax_lines.specs.declared.fault.LineFault.{LineFault};

use crate::fault::{LineFault, fault_of};
use crate::place::{line_at, section_after};
use crate::statement::{Line, Section};
use ax_lex::Token;
use ax_symbols::{Symbol, is_feed, symbols_of};
use std::alloc::Global;

/// How many symbols stand before the first line feed.
fn line_len(symbols: &[Symbol]) -> usize
    ensures is { result ≡ position_or_len is_feed symbols.now }
    ensures within { result ≤ length symbols.now }
{
    let mut len = 0;
    for symbol in symbols {
        if is_feed(symbol) {
            return len;
        }
        len += 1;
    }
    len
}

/// The first line, and what stands behind its line feed.
fn first_line(symbols: &[Symbol]) -> (&[Symbol], Option<&[Symbol]>)
    ensures { MatchOption result.1
        (slice_split is_feed symbols.now ≡ result.0.now ∷ [])
        (λ rest. (slice_split is_feed symbols.now ≡ result.0.now ∷ slice_split is_feed rest.now) × (length rest.now < length symbols.now)) }
{
    let (front, rest) = symbols.split_at(line_len(symbols));
    match rest {
        [] => (front, None),
        [_, more @ ..] => (front, Some(more)),
    }
}

fn is_outside(place: Section) -> bool
    ensures { MatchBool result (place ≡ Section.Outside) (place ≡ Section.Outside → ⊥) }
{
    matches!(place, Section::Outside)
}

/// What the line of this number states at its place.
fn one_line(
    alloc: Global,
    place: Section,
    line: &[Symbol],
    number: usize,
) -> Result<Line, LineFault>
    ensures { LineRead place line.now number result }
{
    match line_at(alloc, place, line) {
        Ok(stated) => Ok(stated),
        Err(stop) => Err(fault_of(stop, place, line, number)),
    }
}

/// What the lines state.
fn lines_in(alloc: Global, symbols: &[Symbol]) -> Result<Vec<Line>, LineFault>
    ensures all { IfOk result (λ v. AreLines (slice_split is_feed symbols.now) v.items) }
    ensures fault { MatchResult result (λ _. Unit {0}) (λ e. IsLineFault (slice_split is_feed symbols.now) e) }
{
    let mut lines = Vec::new(alloc);
    let mut place = Section::Outside;
    let mut rest = symbols;
    loop {
        let (front, more) = first_line(rest);
        let line = match one_line(alloc, place, front, lines.len() + 1) {
            Ok(line) => line,
            Err(fault) => return Err(fault),
        };
        place = section_after(place, &line);
        lines.push(line)?;
        let Some(next) = more else {
            if is_outside(place) {
                return Ok(lines);
            }
            return Err(LineFault::Syntax { line: lines.len() });
        };
        rest = next;
    }
}

fn lines_once(alloc: Global, text: &[u8], tokens: &[Token]) -> Result<Vec<Line>, LineFault>
    ensures all { IfOk result (λ v. AreLines (lines_of text.now tokens.now) v.items) }
    ensures fault { MatchResult result (λ _. Unit {0}) (λ e. IsLineFault (lines_of text.now tokens.now) e) }
{
    let symbols = symbols_of(alloc, text, tokens)?;
    lines_in(alloc, &symbols)
}

/// What each line of a text states, from the text's tokens: each line is one production, in its
/// place. The answer's index plus 1 is the line's number.
///
/// # Errors
///
/// The first line that is no production in its place, or the last line where the text ends inside
/// a function, which is the one fault of such a text; or want of memory.
#[tactic(auto, using(crate::proofs::Places::same_all, crate::proofs::Places::no_line_fault, crate::proofs::Places::stated_few, crate::proofs::Places::fault_few, crate::proofs::Places::lines_faultless, crate::proofs::Places::one_fault, crate::proofs::Parameters::params_few))]
pub fn read_lines(alloc: Global, text: &[u8], tokens: &[Token]) -> Result<Vec<Line>, LineFault>
    // Each line is a production in its place, and states this.
    ensures all { IfOk result (λ v. AreLines (lines_of text.now tokens.now) v.items) }
    // Which fault it is.
    ensures fault { MatchResult result (λ _. Unit {0}) (λ e. IsLineFault (lines_of text.now tokens.now) e) }
    // What lines state is answered, unless memory runs out.
    ensures only { (stated : List Line) → AreLines (lines_of text.now tokens.now) stated
        → MatchResult result (λ v. v.items ≡ stated) (λ e. e ≡ LineFault.Memory) }
    // The fault that the lines have is answered, unless memory runs out.
    ensures faulty { (fault : LineFault) → HaveFault (lines_of text.now tokens.now) fault → MatchResult result (λ _. ⊥) (IsOrMemory fault) }
    // No line states more parameters than there are tokens.
    ensures parameters { IfOk result (λ v. All (λ l. param_count l ≤ length tokens.now) v.items) }
    // Lines are at most one more than tokens.
    ensures few { MatchResult result (λ v. length v.items ≤ length tokens.now + 1) (λ e. FaultWithin (length tokens.now + 1) e) }
{
    lines_once(alloc, text, tokens)
}
