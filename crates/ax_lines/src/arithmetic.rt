//! Instructions on numbers.

ghost use Rattle.std.specs.Prelude.{◌≡◌};
ghost use Rattle.ax_symbols.specs.Pieces.{Gives};
ghost use Rattle.ax_symbols.specs.Grammar.{reads};
ghost use Rattle.ax_lines.specs.Productions.{binary, comparison, selection, conversion, alloca, getelementptr, extraction, count_or};

use crate::operand::{alignment, elements, path, typed_value};
use crate::statement::Statement;
use ax_symbols::{
    Pass, Punctuation, Sign, Symbol, Word, binary_operation, cast, condition, part, pass_over,
    strip, type_at, value,
};

const COMMA: [Sign; 1] = [Sign::Mark(Punctuation::Comma)];

/// `add [FLAGS] TYPE V, V`, and the other binary operations.
#[tactic(auto, unfolding(crate::specs::Productions::binary))]
pub fn binary(line: &[Symbol]) -> Option<(Statement, &[Symbol])>
    ensures { Gives (λ x. (x.0, x.1.now)) result (reads binary line.now) }
{
    let (operation, rest) = binary_operation(line)?;
    let ((ty, left), rest) = typed_value(pass_over(Pass::Arithmetic, rest))?;
    let rest = strip(rest, &COMMA)?;
    let (right, rest) = value(rest)?;
    Some((Statement::Bin(operation, ty, left, right), rest))
}

/// `icmp [samesign] PRED TYPE V, V`.
#[tactic(auto, unfolding(crate::specs::Productions::comparison))]
pub fn comparison(line: &[Symbol]) -> Option<(Statement, &[Symbol])>
    ensures { Gives (λ x. (x.0, x.1.now)) result (reads comparison line.now) }
{
    let rest = strip(line, &[Sign::Word(Word::Icmp)])?;
    let (pred, rest) = condition(pass_over(Pass::Comparison, rest))?;
    let ((ty, left), rest) = typed_value(rest)?;
    let rest = strip(rest, &COMMA)?;
    let (right, rest) = value(rest)?;
    Some((Statement::Icmp(pred, ty, left, right), rest))
}

/// `select i1 V, TYPE V, TYPE V`.
#[tactic(auto, unfolding(crate::specs::Productions::selection))]
pub fn selection(line: &[Symbol]) -> Option<(Statement, &[Symbol])>
    ensures { Gives (λ x. (x.0, x.1.now)) result (reads selection line.now) }
{
    let rest = strip(line, &[Sign::Word(Word::Select), Sign::Int(1)])?;
    let (test, rest) = value(rest)?;
    let rest = strip(rest, &COMMA)?;
    let ((taken_type, taken), rest) = typed_value(rest)?;
    let rest = strip(rest, &COMMA)?;
    let ((other_type, other), rest) = typed_value(rest)?;
    let selection = Statement::Select(test, taken_type, taken, other_type, other);
    Some((selection, rest))
}

/// `zext TYPE V to TYPE`, and the other conversions.
#[tactic(auto, unfolding(crate::specs::Productions::conversion))]
pub fn conversion(line: &[Symbol]) -> Option<(Statement, &[Symbol])>
    ensures { Gives (λ x. (x.0, x.1.now)) result (reads conversion line.now) }
{
    let (cast, rest) = cast(line)?;
    let ((from_type, from), rest) = typed_value(pass_over(Pass::Conversion, rest))?;
    let rest = strip(rest, &[Sign::Word(Word::To)])?;
    let (to_type, rest) = type_at(rest)?;
    Some((Statement::Convert(cast, from_type, from, to_type), rest))
}

/// `alloca T [, align N]`.
#[tactic(auto, unfolding(crate::specs::Productions::alloca))]
pub fn alloca(line: &[Symbol]) -> Option<(Statement, &[Symbol])>
    ensures { Gives (λ x. (x.0, x.1.now)) result (reads alloca line.now) }
{
    let rest = strip(line, &[Sign::Word(Word::Alloca)])?;
    let ((ty, array), rest) = elements(rest)?;
    let (align, rest) = alignment(rest)?;
    Some((Statement::Alloca(ty, array.unwrap_or(1), align), rest))
}

/// `getelementptr [inbounds] [nuw] GEP`.
#[tactic(auto, unfolding(crate::specs::Productions::getelementptr))]
pub fn getelementptr(line: &[Symbol]) -> Option<(Statement, &[Symbol])>
    ensures { Gives (λ x. (x.0, x.1.now)) result (reads getelementptr line.now) }
{
    let rest = strip(line, &[Sign::Word(Word::Getelementptr)])?;
    let (path, rest) = path(pass_over(Pass::Path, rest))?;
    Some((Statement::Gep(path), rest))
}

/// `extractvalue { TYPE, i1 } V, 0` or `, 1`.
#[tactic(auto, unfolding(crate::specs::Productions::extraction))]
pub fn extraction(line: &[Symbol]) -> Option<(Statement, &[Symbol])>
    ensures { Gives (λ x. (x.0, x.1.now)) result (reads extraction line.now) }
{
    let rest = strip(
        line,
        &[
            Sign::Word(Word::Extractvalue),
            Sign::Mark(Punctuation::OpenBrace),
        ],
    )?;
    let (ty, rest) = type_at(rest)?;
    let rest = strip(
        rest,
        &[
            Sign::Mark(Punctuation::Comma),
            Sign::Int(1),
            Sign::Mark(Punctuation::CloseBrace),
        ],
    )?;
    let (value, rest) = value(rest)?;
    let rest = strip(rest, &COMMA)?;
    let (part, rest) = part(rest)?;
    Some((Statement::Extract(ty, value, part), rest))
}
