//! The memory that a machine takes at its start.

ghost use Rattle.std.specs.Prelude.{◌≡◌, ◌≤◌, ◌++◌, IsTrue, length, map, IfOk, OnOk};
ghost use Rattle.std.specs.List.{flat_map, list_all};
ghost use Rattle.ax_cells.specs.Memories.{initial_array, initial_cells, starts_from, zeros_of};
ghost use Rattle.ax_cells.specs.Narrow.{is_narrow, is_narrow_global};

use crate::arrays::Array;
use crate::value::constant;
use ax_module::{Block, Inst, Operand, Ty, module};
use std::alloc::{AllocError, Global};

/// The initial numbers of a global's elements: its constants, and zeros where it has none.
fn initial_cells(
    alloc: Global,
    elem: Ty,
    count: u64,
    init: &[Operand],
) -> Result<Vec<u128>, AllocError>
    requires { IsTrue (is_narrow elem) }
    ensures { IfOk result (λ v. v.items ≡ initial_cells elem count init.now) }
{
    if init.is_empty() {
        vec![in alloc; 0; count as usize]
    } else {
        init.iter().map(|v| constant(elem, *v)).collect(alloc)
    }
}

/// The arrays of a module's globals, one for each, in order, with their initial numbers. Types have
/// at most 128 bits, and a global has no constants or one for each element. It fails only where there
/// is no memory.
#[tactic(auto, using(crate::proofs::Starts::globals))]
pub fn initial_arrays(alloc: Global, globals: &[module::Global]) -> Result<Vec<Array>, AllocError>
    requires { IsTrue (list_all is_narrow_global globals.now) }
    ensures { IfOk result (λ v. v.items ≡ map initial_array globals.now) }
{
    let mut arrays = Vec::with_capacity(alloc, globals.len())?;
    for global in globals {
        let init = global.init.as_slice();
        let cells = initial_cells(alloc, global.elem, global.count, init)?;
        arrays.push(Array::of(global.elem, cells))?;
    }
    Ok(arrays)
}

/// The array of an instruction: the elements of an alloca, or none.
#[tactic(auto, unfolding(ax_source_run::specs::SourcePointers::elements_of_alloca))]
fn array_of(alloc: Global, inst: &Inst) -> Result<Array, AllocError>
    ensures { IfOk result (λ a. a ≡ zeros_of inst.now) }
{
    match inst {
        Inst::Alloca(ty, count, _) => Array::zeros(alloc, *ty, *count),
        _ => Array::zeros(alloc, Ty::I8, 0),
    }
}

fn push_arrays(alloc: Global, arrays: &mut Vec<Array>, insts: &[Inst]) -> Result<(), AllocError>
    ensures { OnOk result (arrays.new.items ≡ arrays.old.items ++ map zeros_of insts.now) }
{
    for inst in insts {
        arrays.push(array_of(alloc, inst)?)?;
    }
    Ok(())
}

/// The arrays of a function's instructions, one for each, in order: the elements of an alloca, each 0,
/// and none of any other. It fails only where there is no memory.
#[tactic(auto, using(crate::proofs::Starts::blocks))]
pub fn alloca_arrays(alloc: Global, blocks: &[Block]) -> Result<Vec<Array>, AllocError>
    ensures { IfOk result (λ v. v.items ≡ map zeros_of (flat_map (λ block. block.insts) blocks.now)) }
{
    let mut arrays = Vec::new(alloc);
    for block in blocks {
        push_arrays(alloc, &mut arrays, block.insts.as_slice())?;
    }
    Ok(arrays)
}

/// The number of each block's first instruction in its function, which has at most 2,048. It fails
/// only where there is no memory.
#[tactic(auto, using(crate::proofs::Starts::blocks))]
pub fn block_starts(alloc: Global, blocks: &[Block]) -> Result<Vec<usize>, AllocError>
    requires { length (flat_map (λ block. block.insts) blocks.now) ≤ 2048 }
    ensures { IfOk result (λ v. v.items ≡ starts_from 0 blocks.now) }
{
    let mut starts = Vec::with_capacity(alloc, blocks.len())?;
    let mut n = 0;
    for block in blocks {
        starts.push(n)?;
        n += block.insts.as_slice().len();
    }
    Ok(starts)
}
