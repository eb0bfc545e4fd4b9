//! Modules from their texts.

ghost use Rattle.std.specs.Prelude.{◌≡◌, ◌<◌, ◌≤◌, ◌+◌, ◌-◌, ◌^◌, ◌==◌, ℕ, List, length, take, count_by, MatchResult, IfOk};
ghost use Rattle.ax_module.specs.declared.module.Module.{Module};
ghost use Rattle.ax_module.specs.WellFormed.{IsModule};
ghost use Rattle.ax_lex.specs.Tokens.{AreTokens};
ghost use Rattle.ax_lines.specs.Lines.{lines_of};
ghost use Rattle.ax_lines.specs.Faults.{IsLineFault, FaultWithin};
ghost use Rattle.ax_read.specs.declared.fault.ReadFault.{ReadFault};
ghost use Rattle.ax_read.specs.Derivation.{Says, Derives, HasFault, IsOrMemory, IsReadFault, line_at};
ghost use Rattle.ax_read.specs.Reads.{TokensRead, LinesRead, ModuleRead};

use crate::fault::ReadFault;
use ax_lex::{LexFault, Token, tokens};
use ax_lines::{Line, LineFault, read_lines};
use ax_module::Module;
use ax_scope::{ScopeFault, module_of};
use std::alloc::Global;

fn feeds(bytes: &[u8]) -> usize
    ensures is { result ≡ count_by (λ b. b == 10) bytes.now }
    ensures within { result ≤ length bytes.now }
{
    bytes.iter().filter(|b| **b == b'\n').count()
}

/// The line of a place of the text.
fn line_at(text: &[u8], at: usize) -> usize
    requires { at ≤ length text.now }
    ensures is { result ≡ line_at text.now at }
    ensures within { result ≤ length text.now + 1 }
{
    let (before, _) = text.split_at(at);
    feeds(before) + 1
}

/// The tokens of the text, or the line of the first byte that starts none.
fn tokens_of(alloc: Global, text: &[u8]) -> Result<Vec<Token>, ReadFault>
    requires { length text.now < 2 ^ 32 - 1 }
    ensures { TokensRead text.now result }
{
    match tokens(alloc, text) {
        Ok(tokens) => Ok(tokens),
        Err(LexFault::Memory) => Err(ReadFault::Memory),
        Err(LexFault::Byte { at }) => Err(ReadFault::Syntax {
            line: line_at(text, at) as u32,
        }),
    }
}

/// What the lines of the text state, or the first that is no production in its place.
#[tactic(auto, using(crate::proofs::Derived::params_below))]
fn stated_in(alloc: Global, text: &[u8]) -> Result<Vec<Line>, ReadFault>
    requires { length text.now < 2 ^ 32 - 1 }
    ensures { LinesRead text.now result }
{
    let tokens = tokens_of(alloc, text)?;
    match read_lines(alloc, text, &tokens) {
        Ok(lines) => Ok(lines),
        Err(LineFault::Memory) => Err(ReadFault::Memory),
        Err(LineFault::Syntax { line }) => Err(ReadFault::Syntax { line: line as u32 }),
        Err(LineFault::Opcode { line }) => Err(ReadFault::Opcode { line: line as u32 }),
    }
}

#[tactic(auto, using(crate::proofs::Derived::name_fault_few))]
fn read_once(alloc: Global, text: &[u8]) -> Result<Module, ReadFault>
    requires { length text.now < 2 ^ 32 - 1 }
    ensures { ModuleRead text.now result }
{
    let lines = stated_in(alloc, text)?;
    match module_of(alloc, text, &lines) {
        Ok(module) => Ok(module),
        Err(ScopeFault::Memory) => Err(ReadFault::Memory),
        Err(ScopeFault::Name { line }) => Err(ReadFault::Name { line: line as u32 }),
    }
}

/// The module of a text in LLVM's notation (LLVM Language Reference; the part of it that is read is
/// in docs/FORMATS.md). The text is shorter than 2^32 - 1 bytes.
///
/// # Errors
///
/// Where the text derives no module, the one fault that it has, which comes first in the order of
/// `ReadFault`, with its line; or want of memory.
pub fn read(alloc: Global, text: &[u8]) -> Result<Module, ReadFault>
    requires { length text.now < 2 ^ 32 - 1 }
    // The text derives what is answered.
    ensures found { IfOk result (λ m. Derives text.now m) }
    // What the text derives is answered, unless memory runs out.
    ensures only { (m : Module) → Derives text.now m → MatchResult result (λ r. r ≡ m) (λ e. e ≡ ReadFault.Memory) }
    // The fault that the text has is answered, unless memory runs out.
    ensures faulty { (fault : ReadFault) → HasFault text.now fault → MatchResult result (λ _. ⊥) (IsOrMemory fault) }
    // What is answered is well formed.
    ensures well_formed { IfOk result IsModule }
    // Which fault it is.
    ensures fault { MatchResult result (λ _. Unit {0}) (λ e. IsReadFault text.now e) }
{
    read_once(alloc, text)
}
