//! Instructions that leave a block.

ghost use Rattle.std.specs.Prelude.{◌≡◌};
ghost use Rattle.ax_symbols.specs.Pieces.{Gives};
ghost use Rattle.ax_symbols.specs.Grammar.{reads};
ghost use Rattle.ax_lines.specs.Productions.{jump, branch, return_void, return_value, unreachable_line};

use crate::operand::typed_value;
use crate::statement::Statement;
use ax_symbols::{Punctuation, Sign, Symbol, Word, local, strip, tail, value};

/// `br label %b TAIL`.
#[tactic(auto, unfolding(crate::specs::Productions::jump))]
pub fn jump(line: &[Symbol]) -> Option<(Statement, &[Symbol])>
    ensures { Gives (λ x. (x.0, x.1.now)) result (reads jump line.now) }
{
    let rest = strip(line, &[Sign::Word(Word::Br), Sign::Word(Word::Label)])?;
    let (block, rest) = local(rest)?;
    let rest = tail(rest)?;
    Some((Statement::Jump(block), rest))
}

/// `br i1 V, label %b, label %b TAIL`.
#[tactic(auto, unfolding(crate::specs::Productions::branch))]
pub fn branch(line: &[Symbol]) -> Option<(Statement, &[Symbol])>
    ensures { Gives (λ x. (x.0, x.1.now)) result (reads branch line.now) }
{
    let rest = strip(line, &[Sign::Word(Word::Br), Sign::Int(1)])?;
    let (test, rest) = value(rest)?;
    let rest = strip(
        rest,
        &[Sign::Mark(Punctuation::Comma), Sign::Word(Word::Label)],
    )?;
    let (taken, rest) = local(rest)?;
    let rest = strip(
        rest,
        &[Sign::Mark(Punctuation::Comma), Sign::Word(Word::Label)],
    )?;
    let (missed, rest) = local(rest)?;
    let rest = tail(rest)?;
    Some((Statement::Branch(test, taken, missed), rest))
}

/// `ret void`.
#[tactic(auto, unfolding(crate::specs::Productions::return_void))]
pub fn return_void(line: &[Symbol]) -> Option<(Statement, &[Symbol])>
    ensures { Gives (λ x. (x.0, x.1.now)) result (reads return_void line.now) }
{
    let rest = strip(line, &[Sign::Word(Word::Ret), Sign::Word(Word::Void)])?;
    Some((Statement::RetVoid, rest))
}

/// `ret TYPE V`.
#[tactic(auto, unfolding(crate::specs::Productions::return_value))]
pub fn return_value(line: &[Symbol]) -> Option<(Statement, &[Symbol])>
    ensures { Gives (λ x. (x.0, x.1.now)) result (reads return_value line.now) }
{
    let rest = strip(line, &[Sign::Word(Word::Ret)])?;
    let ((ty, value), rest) = typed_value(rest)?;
    Some((Statement::Ret(ty, value), rest))
}

/// `unreachable`.
#[tactic(auto, unfolding(crate::specs::Productions::unreachable_line))]
pub fn unreachable_line(line: &[Symbol]) -> Option<(Statement, &[Symbol])>
    ensures { Gives (λ x. (x.0, x.1.now)) result (reads unreachable_line line.now) }
{
    let rest = strip(line, &[Sign::Word(Word::Unreachable)])?;
    Some((Statement::Unreachable, rest))
}
