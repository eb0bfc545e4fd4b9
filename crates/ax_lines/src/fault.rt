//! Why lines are no module, and which fault a bad line has.

ghost use Rattle.std.specs.Prelude.{◌≡◌, ◌≤◌};
ghost use Rattle.ax_lines.specs.Lines.{is_opcode, is_unknown_word, is_local, is_equals, is_tail_word, result_len, opcode_index, is_label_line, has_unknown_opcode, is_opcode_fault};
ghost use Rattle.ax_lines.specs.Faults.{fault_of};
ghost use Rattle.ax_lines.specs.declared.fault.LineFault.TheVariants.{Memory};

use crate::listing::Stop;
use crate::place::is_label;
use crate::statement::Section;
use ax_symbols::{Punctuation, Sign, Symbol, Word, sign_at};
use std::alloc::{AllocError, AllocFailed};
use thiserror::Error;

/// Why the lines of a text are no module; lines are counted from 1.
#[derive(Clone, Copy, Debug, Error)]
pub enum LineFault {
    /// The line is no production in its place, or the last of a text that ends in a function.
    #[error("line {line} is none of a module")]
    Syntax { line: usize },
    /// A line in a function has a word that is no opcode where its opcode would stand.
    #[error("line {line} has an unknown opcode")]
    Opcode { line: usize },
    /// Memory ran out.
    #[error("memory ran out")]
    Memory,
}

impl From<AllocError> for LineFault {
    ghost from_gives = { λ _ e. e ≡ Memory };

    fn from(_e: AllocError) -> LineFault {
        LineFault::Memory
    }
}

impl<T: Drop> From<AllocFailed<T>> for LineFault {
    ghost from_gives = { λ _ e. e ≡ Memory };

    fn from(_e: AllocFailed<T>) -> LineFault {
        LineFault::Memory
    }
}

fn is_opcode(word: Word) -> bool
    ensures { result ≡ is_opcode word }
{
    matches!(
        word,
        Word::Add
            | Word::Sub
            | Word::Mul
            | Word::And
            | Word::Or
            | Word::Xor
            | Word::Shl
            | Word::Lshr
            | Word::Ashr
            | Word::Icmp
            | Word::Select
            | Word::Zext
            | Word::Sext
            | Word::Trunc
            | Word::Phi
            | Word::Br
            | Word::Ret
            | Word::Unreachable
            | Word::Alloca
            | Word::Getelementptr
            | Word::Load
            | Word::Store
            | Word::Cmpxchg
            | Word::Atomicrmw
            | Word::Fence
            | Word::Extractvalue
            | Word::Call
    )
}

fn is_unknown_word(sign: Sign) -> bool
    ensures { result ≡ is_unknown_word sign }
{
    match sign {
        Sign::Word(word) => !is_opcode(word),
        Sign::Int(_) => true,
        _ => false,
    }
}

/// The number of symbols of `%r =`, where it stands there.
fn result_len(line: &[Symbol]) -> usize
    ensures is { result ≡ result_len line.now }
    ensures small { result ≤ 2 }
{
    if matches!(sign_at(line, 0), Sign::Local)
        && matches!(sign_at(line, 1), Sign::Mark(Punctuation::Equals))
    {
        2
    } else {
        0
    }
}

/// The place of the word behind `%r =` and `tail`.
fn opcode_index(line: &[Symbol]) -> usize
    ensures { result ≡ opcode_index line.now }
{
    let behind = result_len(line);
    if matches!(sign_at(line, behind), Sign::Word(Word::Tail)) {
        behind + 1
    } else {
        behind
    }
}

/// Whether a line is `name:` and no more.
fn is_label_line(line: &[Symbol]) -> bool
    ensures { result ≡ is_label_line line.now }
{
    line.len() == 2 && is_label(sign_at(line, 0), sign_at(line, 1))
}

fn has_unknown_opcode(line: &[Symbol]) -> bool
    ensures { result ≡ has_unknown_opcode line.now }
{
    !is_label_line(line) && is_unknown_word(sign_at(line, opcode_index(line)))
}

fn is_opcode_fault(place: Section, line: &[Symbol]) -> bool
    ensures { result ≡ is_opcode_fault place line.now }
{
    match place {
        Section::Outside => false,
        _ => has_unknown_opcode(line),
    }
}

/// The fault of a line that is no production at its place.
pub(crate) fn fault_of(stop: Stop, place: Section, line: &[Symbol], number: usize) -> LineFault
    ensures { result ≡ fault_of stop place line.now number }
{
    match stop {
        Stop::Memory => LineFault::Memory,
        Stop::Bad => {
            if is_opcode_fault(place, line) {
                LineFault::Opcode { line: number }
            } else {
                LineFault::Syntax { line: number }
            }
        }
    }
}
