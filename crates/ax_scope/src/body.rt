//! The lines of a function.

ghost use Rattle.std.specs.Prelude.{◌≡◌, ◌++◌, ◌∷◌, ◌+◌, ◌<◌, ◌^◌, true, cond, length, IfOk, OnOk, List, Option, Some};
ghost use Rattle.ax_scope.specs.Answers.{Declares, Passes, PassesAt, Finds, first_fault};
ghost use Rattle.ax_scope.specs.Around.{looks};
ghost use Rattle.ax_scope.specs.Stops.{Resolves};
ghost use Rattle.ax_scope.specs.Faults.{stated, names_of, body_faults};
ghost use Rattle.ax_scope.specs.Module.{ends_block, insts_in, empty_block, onto, blocks_in};
ghost use Rattle.ax_module.specs.declared.module.Block.{Block};
ghost use Rattle.ax_lines.specs.Productions.{is_terminator};

use crate::declared::{block_name, first_behind, result_name};
use crate::fault::{NameStop, ScopeFault};
use crate::inst::inst_of;
use crate::locals::Names;
use crate::outer::declare;
use crate::seen::Seen;
use ax_lines::{Line, Statement};
use ax_module::{Block, Inst};
use ax_words::Items;
use std::alloc::{AllocError, Global};

#[tactic(auto, unfolding(crate::specs::Faults::stated))]
fn stated(alloc: Global, names: &Names, line: &Line) -> Result<Option<Inst>, NameStop>
    ensures { Resolves (λ o. o) result (stated (looks names.now) line.now) }
{
    match line {
        Line::Inst(_, statement) => {
            let inst = inst_of(alloc, names, statement)?;
            Ok(Some(inst))
        }
        _ => Ok(None),
    }
}

#[tactic(auto, using(crate::proofs::Repeats::again_append))]
fn declare_locals(
    alloc: Global,
    text: &[u8],
    entry: &[u8],
    first: bool,
    so_far: &mut Seen,
    line: &Line,
) -> Result<(), NameStop>
    ensures { Declares so_far.old so_far.new (names_of text.now entry.now first line.now) result }
{
    declare(alloc, so_far, block_name(text, entry, first, line))?;
    declare(alloc, so_far, result_name(text, line))
}

/// Declares the names of a line, and gives its instruction, where it has one.
fn pass(
    alloc: Global,
    names: &Names,
    entry: &[u8],
    first: bool,
    so_far: &mut Seen,
    line: &Line,
) -> Result<Option<Inst>, NameStop>
    ensures { Passes (record { looks = looks names.now; entry = entry.now; first = first; so_far = so_far.old }) line.now so_far.new result }
{
    declare_locals(alloc, names.text, entry, first, so_far, line)?;
    stated(alloc, names, line)
}

/// The same, with the number of the line.
fn pass_at(
    alloc: Global,
    names: &Names,
    entry: &[u8],
    first: bool,
    so_far: &mut Seen,
    line: &Line,
    number: usize,
) -> Result<Option<Inst>, ScopeFault>
    ensures { PassesAt (record { looks = looks names.now; entry = entry.now; first = first; so_far = so_far.old }) line.now so_far.new number result }
{
    match pass(alloc, names, entry, first, so_far, line) {
        Ok(inst) => Ok(inst),
        Err(NameStop::Name) => Err(ScopeFault::Name { line: number }),
        Err(NameStop::Memory) => Err(ScopeFault::Memory),
    }
}

#[tactic(auto, unfolding(ax_lines::specs::Productions::is_terminator))]
fn is_terminator(statement: &Statement) -> bool
    ensures { result ≡ is_terminator statement.now }
{
    matches!(
        statement,
        Statement::Jump(_)
            | Statement::Branch(..)
            | Statement::RetVoid
            | Statement::Ret(..)
            | Statement::Unreachable
    )
}

#[tactic(auto, unfolding(crate::specs::Module::ends_block))]
fn ends_block(line: &Line) -> bool
    ensures { result ≡ ends_block line.now }
{
    match line {
        Line::Inst(_, statement) => is_terminator(statement),
        _ => false,
    }
}

fn push_inst(block: &mut Vec<Inst>, inst: Option<Inst>) -> Result<(), AllocError>
    ensures { OnOk result (block.new.items ≡ block.old.items ++ insts_in (Some inst)) }
{
    if let Some(inst) = inst {
        block.push(inst)?;
    }
    Ok(())
}

/// Ends a block, if its last line does, and gives what the next line goes behind.
fn close(
    alloc: Global,
    blocks: &mut Vec<Block>,
    block: Vec<Inst>,
    ends: bool,
) -> Result<Vec<Inst>, AllocError>
    ensures { IfOk result (λ v. (bs : List Block) → blocks.new.items ++ onto v.items bs ≡ blocks.old.items ++ onto block.items (cond ends (empty_block ∷ bs) bs)) }
{
    if !ends {
        return Ok(block);
    }
    blocks.push(Block {
        insts: Items::of(block),
    })?;
    Ok(Vec::new(alloc))
}

/// The blocks of a function's lines, of which the first has this number.
pub fn blocks_in(
    alloc: Global,
    names: &Names,
    entry: &[u8],
    params: Seen,
    inside: &[Line],
    start: usize,
) -> Result<Vec<Block>, ScopeFault>
    requires { start + length inside.now < 2 ^ 64 }
    ensures built { IfOk result (λ v. v.items ≡ blocks_in (looks names.now) inside.now) }
    ensures found { Finds result (first_fault start (body_faults (record { looks = looks names.now; entry = entry.now; first = true; so_far = params }) inside.now)) }
{
    let mut so_far = params;
    let mut blocks = Vec::new(alloc);
    let mut block = Vec::new(alloc);
    let mut first = true;
    let mut number = start;
    for line in inside {
        let inst = pass_at(alloc, names, entry, first, &mut so_far, line, number)?;
        push_inst(&mut block, inst)?;
        block = close(alloc, &mut blocks, block, ends_block(line))?;
        first = first_behind(first, line);
        number += 1;
    }
    Ok(blocks)
}
