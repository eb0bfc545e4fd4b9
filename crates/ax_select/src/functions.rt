//! The code of a module's functions.

ghost use Rattle.std.specs.Prelude.{◌≡◌, ℕ, ◌+◌, ◌<◌, ◌≤◌, ◌^◌, ◌∷◌, [], OnOk, Some, length, slice_get};
ghost use Rattle.std.specs.List.{flat_map};
ghost use Rattle.ax_module.specs.declared.inst.Inst.{Inst};
ghost use Rattle.ax_source_run.specs.SourceInstructions.{first_number, insts_of_block};
ghost use Rattle.ax_cells.specs.Memories.{starts_from};
ghost use Rattle.ax_mid.specs.Built.{pushed};
ghost use Rattle.ax_mid.specs.declared.instruction.MidInst.{MidInst};
ghost use Rattle.ax_selected.specs.Registers.{block_label};
ghost use Rattle.ax_selected.specs.Selected.{blocks_lines, function_lines, functions_lines, insts_lines, silent as silent_line};
ghost use Rattle.ax_select.specs.Ready.{IsReady, IsReadyFunction, IsReadyProgram};

use crate::pieces::{Setting, push_piece};
use ax_cells::block_starts;
use ax_check::Accepted;
use ax_mid::MidInst;
use ax_module::{Function, Inst};
use ax_pieces::{Code, block_label, silent};
use ax_reach::Pointers;
use ax_words::Site;
use std::alloc::{AllocError, Global};

/// Appends the label of the block whose first instruction is at a site.
fn push_label(code: &mut Code, site: Site) -> Result<(), AllocError>
    requires function { site.function < 64 }
    requires instruction { site.instruction ≤ 2048 }
    ensures { OnOk result (code.new ≡ pushed (silent_line site.function site.instruction (MidInst.Label (block_label site.function site.instruction)) ∷ []) code.old) }
{
    let label = block_label(site.function, site.instruction);
    silent(code, site, MidInst::Label(label))
}

/// Appends the code of instructions of block `b`, of which the first has the number `start`.
fn push_insts(
    alloc: Global,
    code: &mut Code,
    setting: &Setting,
    function: u32,
    b: u32,
    start: u32,
    insts: &[Inst],
) -> Result<(), AllocError>
    requires function { setting.now.pointers.function ≡ function }
    requires few { start + length insts.now ≤ 2048 }
    requires ready { (i : ℕ) (x : Inst) → slice_get insts.now i ≡ Some x → IsReady setting.now.blocks.now setting.now.starts.items function b (start + i) x }
    ensures { OnOk result (code.new ≡ pushed (insts_lines setting.now.pointers.program function setting.now.blocks.now b start insts.now) code.old) }
{
    let mut instruction = start;
    for inst in insts {
        let site = Site {
            function,
            instruction,
        };
        push_piece(alloc, code, setting, b, site, inst)?;
        instruction += 1;
    }
    Ok(())
}

/// Appends the code of a function's blocks, each behind its label.
fn push_blocks(
    alloc: Global,
    code: &mut Code,
    setting: &Setting,
    function: u32,
) -> Result<(), AllocError>
    requires number { function < 64 }
    requires function { setting.now.pointers.function ≡ function }
    requires starts { setting.now.starts.items ≡ starts_from 0 setting.now.blocks.now }
    requires ready { IsReadyFunction function setting.now.blocks.now }
    ensures { OnOk result (code.new ≡ pushed (blocks_lines setting.now.pointers.program function setting.now.blocks.now 0 0 setting.now.blocks.now) code.old) }
{
    let mut start = 0;
    let mut b = 0;
    for block in setting.blocks {
        let insts = block.insts.as_slice();
        let site = Site {
            function,
            instruction: start,
        };
        push_label(code, site)?;
        push_insts(alloc, code, setting, function, b, start, insts)?;
        start += insts.len() as u32;
        b += 1;
    }
    Ok(())
}

/// Appends the code of function number `f`.
fn push_function(
    alloc: Global,
    code: &mut Code,
    program: &Accepted,
    f: u32,
    function: &Function,
) -> Result<(), AllocError>
    requires number { f < length program.now.source.functions }
    requires few { f < 64 }
    requires ready { IsReadyFunction f function.now.blocks }
    ensures { OnOk result (code.new ≡ pushed (function_lines program.now f function.now) code.old) }
{
    let blocks = function.blocks.as_slice();
    let setting = Setting {
        blocks,
        starts: block_starts(alloc, blocks)?,
        pointers: Pointers::of(alloc, program, f)?,
    };
    push_blocks(alloc, code, &setting, f)
}

/// Appends the code of all functions of a program.
pub(crate) fn push_functions(
    alloc: Global,
    code: &mut Code,
    program: &Accepted,
    functions: &[Function],
) -> Result<(), AllocError>
    requires ready { IsReadyProgram program.now }
    requires functions { functions.now ≡ program.now.source.functions }
    ensures { OnOk result (code.new ≡ pushed (functions_lines program.now 0 functions.now) code.old) }
{
    let mut f = 0;
    for function in functions {
        push_function(alloc, code, program, f, function)?;
        f += 1;
    }
    Ok(())
}
