//! Lines in blocks, by their first two signs.

ghost use Rattle.std.specs.Prelude.{◌≡◌, Some};
ghost use Rattle.ax_lines.specs.Stops.{ReadsAs};
ghost use Rattle.ax_symbols.specs.Grammar.{reads, by};
ghost use Rattle.ax_lines.specs.Productions.{states, load_line, store_line, leave_line, return_line, phi_line, valued, unnamed, result_name, named, in_block, blank};
ghost use Rattle.ax_symbols.specs.Pieces.{Gives};
ghost use Rattle.ax_lines.specs.Stated.{Stated};

use crate::arithmetic::{
    alloca, binary, comparison, conversion, extraction, getelementptr, selection,
};
use crate::calls::{call, phi};
use crate::control::{branch, jump, return_value, return_void, unreachable_line};
use crate::listing::Stop;
use crate::memory::{
    atomic_load, atomic_store, exchange, fence, modification, plain_load, plain_store,
};
use crate::statement::{Line, Statement};
use ax_symbols::{NameSpan, Punctuation, Sign, Symbol, Word, local, sign_at, strip};
use std::alloc::Global;

/// The line of an instruction.
fn stated<'a>(
    name: Option<NameSpan>,
    read: Option<(Statement, &'a [Symbol])>,
) -> Result<(Line, &'a [Symbol]), Stop>
    ensures { Stated name read.entry result }
{
    let (statement, rest) = read.ok_or(Stop::Bad)?;
    Ok((Line::Inst(name, statement), rest))
}

/// A load, by the word behind it.
fn load(line: &[Symbol], second: Sign) -> Option<(Statement, &[Symbol])>
    ensures { Gives (λ x. (x.0, x.1.now)) result (reads (load_line second) line.now) }
{
    match second {
        Sign::Word(Word::Atomic) => atomic_load(line),
        _ => plain_load(line),
    }
}

/// A store, by the word behind it.
fn store(line: &[Symbol], second: Sign) -> Option<(Statement, &[Symbol])>
    ensures { Gives (λ x. (x.0, x.1.now)) result (reads (store_line second) line.now) }
{
    match second {
        Sign::Word(Word::Atomic) => atomic_store(line),
        _ => plain_store(line),
    }
}

/// A jump or a branch, by the word behind `br`.
fn leave(line: &[Symbol], second: Sign) -> Option<(Statement, &[Symbol])>
    ensures { Gives (λ x. (x.0, x.1.now)) result (reads (leave_line second) line.now) }
{
    match second {
        Sign::Word(Word::Label) => jump(line),
        _ => branch(line),
    }
}

/// A return, by the word behind `ret`.
fn leave_function(line: &[Symbol], second: Sign) -> Option<(Statement, &[Symbol])>
    ensures { Gives (λ x. (x.0, x.1.now)) result (reads (return_line second) line.now) }
{
    match second {
        Sign::Word(Word::Void) => return_void(line),
        _ => return_value(line),
    }
}

/// A phi, where phis may stand.
fn phi_line<'a>(
    alloc: Global,
    phis: bool,
    name: Option<NameSpan>,
    line: &'a [Symbol],
) -> Result<(Line, &'a [Symbol]), Stop>
    ensures { ReadsAs (λ x. (x.0, x.1.now)) result (reads (states name (phi_line phis)) line.now) }
{
    if !phis {
        return Err(Stop::Bad);
    }
    let (statement, rest) = phi(alloc, line)?;
    Ok((Line::Inst(name, statement), rest))
}

/// An instruction that can have a result, by its first two signs.
#[tactic(auto, unfolding(crate::specs::Productions::valued))]
fn valued<'a>(
    alloc: Global,
    phis: bool,
    name: Option<NameSpan>,
    signs: (Sign, Sign),
    line: &'a [Symbol],
) -> Result<(Line, &'a [Symbol]), Stop>
    ensures { ReadsAs (λ x. (x.0, x.1.now)) result
        (reads (valued phis name signs.0 signs.1) line.now) }
{
    match signs.0 {
        Sign::Word(Word::Add | Word::Sub | Word::Mul) => stated(name, binary(line)),
        Sign::Word(Word::And | Word::Or | Word::Xor) => stated(name, binary(line)),
        Sign::Word(Word::Shl | Word::Lshr | Word::Ashr) => stated(name, binary(line)),
        Sign::Word(Word::Icmp) => stated(name, comparison(line)),
        Sign::Word(Word::Select) => stated(name, selection(line)),
        Sign::Word(Word::Zext | Word::Sext | Word::Trunc) => stated(name, conversion(line)),
        Sign::Word(Word::Phi) => phi_line(alloc, phis, name, line),
        Sign::Word(Word::Alloca) => stated(name, alloca(line)),
        Sign::Word(Word::Getelementptr) => stated(name, getelementptr(line)),
        Sign::Word(Word::Load) => stated(name, load(line, signs.1)),
        Sign::Word(Word::Cmpxchg) => stated(name, exchange(line)),
        Sign::Word(Word::Atomicrmw) => stated(name, modification(line)),
        Sign::Word(Word::Extractvalue) => stated(name, extraction(line)),
        Sign::Word(Word::Call | Word::Tail) => call(alloc, false, name, line),
        _ => Err(Stop::Bad),
    }
}

/// An instruction without a name for its result.
#[tactic(auto, unfolding(crate::specs::Productions::unnamed))]
fn unnamed<'a>(
    alloc: Global,
    phis: bool,
    signs: (Sign, Sign),
    line: &'a [Symbol],
) -> Result<(Line, &'a [Symbol]), Stop>
    ensures { ReadsAs (λ x. (x.0, x.1.now)) result
        (reads (unnamed phis signs.0 signs.1) line.now) }
{
    match signs.0 {
        Sign::Word(Word::Store) => stated(None, store(line, signs.1)),
        Sign::Word(Word::Fence) => stated(None, fence(line)),
        Sign::Word(Word::Br) => stated(None, leave(line, signs.1)),
        Sign::Word(Word::Ret) => stated(None, leave_function(line, signs.1)),
        Sign::Word(Word::Unreachable) => stated(None, unreachable_line(line)),
        _ => valued(alloc, phis, None, signs, line),
    }
}

/// `%r =`: the name, and what stands behind.
pub fn result_name(line: &[Symbol]) -> Option<(NameSpan, &[Symbol])>
    ensures { Gives (λ x. (x.0, x.1.now)) result (reads result_name line.now) }
{
    let (name, rest) = local(line)?;
    let rest = strip(rest, &[Sign::Mark(Punctuation::Equals)])?;
    Some((name, rest))
}

/// `%r =` and an instruction that has a result.
#[tactic(auto, unfolding(crate::specs::Productions::named))]
fn named<'a>(alloc: Global, phis: bool, line: &'a [Symbol]) -> Result<(Line, &'a [Symbol]), Stop>
    ensures { ReadsAs (λ x. (x.0, x.1.now)) result (reads (named phis) line.now) }
{
    let (name, rest) = result_name(line).ok_or(Stop::Bad)?;
    let signs = (sign_at(rest, 0), sign_at(rest, 1));
    valued(alloc, phis, Some(name), signs, rest)
}

/// A blank line.
#[tactic(auto, unfolding(crate::specs::Productions::blank))]
pub fn blank(line: &[Symbol]) -> Result<(Line, &[Symbol]), Stop>
    ensures { ReadsAs (λ x. (x.0, x.1.now)) result (reads blank line.now) }
{
    match line {
        [] => Ok((Line::Nothing, line)),
        _ => Err(Stop::Bad),
    }
}

/// A line in a block, where phis may stand or not.
#[tactic(auto, unfolding(crate::specs::Productions::in_block))]
pub fn in_block<'a>(
    alloc: Global,
    phis: bool,
    signs: (Sign, Sign),
    line: &'a [Symbol],
) -> Result<(Line, &'a [Symbol]), Stop>
    ensures { ReadsAs (λ x. (x.0, x.1.now)) result
        (reads (in_block phis signs.0 signs.1) line.now) }
{
    match signs.0 {
        Sign::Feed => blank(line),
        Sign::Local => named(alloc, phis, line),
        _ => unnamed(alloc, phis, signs, line),
    }
}
