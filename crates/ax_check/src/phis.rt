//! The blocks that a phi names.
ghost use Rattle.std.specs.Prelude.{◌≡◌, ◌<◌, ℕ, IfOk, length, vec_len, IsTrue, ◌↔◌, Option, Some, None, MatchOption, false, slice_index_or};
ghost use Rattle.std.specs.List.{All};
ghost use Rattle.ax_check.specs.Walk.{Leads, IsInRange};
ghost use Rattle.ax_check.specs.Phis.{Clashes, MissesOne, NamesOther, HasWrongBlocks, IsTable};

use crate::exits::Exit;
use crate::walks::Walks;
use ax_module::Operand;
use std::alloc::{AllocError, Global};

/// Whether block `p` leads to block `b`.
fn leads(walks: &Walks, p: usize, b: usize) -> bool
    ensures { IsTrue result ↔ Leads walks.now p b }
{
    match walks.exit(p) {
        Exit::Stop => false,
        Exit::Jump(x) => b == x as usize,
        Exit::Branch(x, y) => b == x as usize || b == y as usize,
    }
}

/// Whether an entry names a block that is no predecessor.
fn names_other(walks: &Walks, b: usize, entries: &[(Operand, u32)]) -> bool
    ensures other { IsTrue result → NamesOther walks.now b entries.now }
    ensures all { result ≡ false → All (λ e. Leads walks.now e.1 b) entries.now }
{
    for (_operand, p) in entries {
        if !leads(walks, *p as usize, b) {
            return true;
        }
    }
    false
}

/// Whether two operands are the same.
fn is_same(x: Operand, y: Operand) -> bool
    ensures { IsTrue result ↔ (x ≡ y) }
{
    x == y
}

/// The operand of each block that is named; none where one block is named with two.
fn operands(
    alloc: Global,
    blocks: usize,
    entries: &[(Operand, u32)],
) -> Result<Option<Vec<Option<Operand>>>, AllocError>
    requires { All (λ e. e.1 < blocks) entries.now }
    ensures { IfOk result (λ o. MatchOption o (Clashes entries.now) (λ t. IsTable t.items entries.now)) }
{
    let mut table: Vec<Option<Operand>> = vec![in alloc; None; blocks]?;
    for (operand, p) in entries {
        match table[*p as usize] {
            None => table[*p as usize] = Some(*operand),
            Some(first) => {
                if !is_same(first, *operand) {
                    return Ok(None);
                }
            }
        }
    }
    Ok(Some(table))
}

/// Whether a predecessor has no operand.
fn misses_one(walks: &Walks, b: usize, table: &[Option<Operand>]) -> bool
    ensures { IsTrue result ↔ (p : ℕ) × Leads walks.now p b × (slice_index_or table.now p None ≡ None) }
{
    for p in 0..walks.len() {
        if leads(walks, p, b) && table.get(p).copied().flatten().is_none() {
            return true;
        }
    }
    false
}

/// Whether the blocks of a phi of block `b` aren't exactly the predecessors, or it names one with two operands.
pub fn has_wrong_blocks(
    alloc: Global,
    walks: &Walks,
    b: usize,
    entries: &[(Operand, u32)],
) -> Result<bool, AllocError>
    ensures { IfOk result (λ r. IsTrue r ↔ HasWrongBlocks walks.now b entries.now) }
{
    if names_other(walks, b, entries) {
        return Ok(true);
    }
    match operands(alloc, walks.len(), entries)? {
        None => Ok(true),
        Some(table) => Ok(misses_one(walks, b, table.as_slice())),
    }
}
