//! Selection.

ghost use Rattle.std.specs.Prelude.{◌≡◌, IfOk};
ghost use Rattle.ax_selected.specs.Formed.{IsFormed, LinesAreSmall};
ghost use Rattle.ax_selected.specs.InStep.{GoesOn, RunsInStep, StandsAtSites};
ghost use Rattle.ax_selected.specs.Operations.{AccessesAreAtSites, OperationsAreAtSites};
ghost use Rattle.ax_selected.specs.Selected.{selected};

use crate::functions::push_functions;
use crate::globals::mid_globals;
use crate::laws::accepted_modules_are_ready;
use ax_check::Accepted;
use ax_mid::{Builder, Mid, Virtual};
use ax_selected::{
    selected_accesses_are_at_sites, selected_code_is_formed, selected_code_runs_in_step,
    selected_lines_are_small, selected_operations_are_at_sites,
};
use std::alloc::{AllocError, Global};

/// The middle code of an accepted module on its target, over its layout.
///
/// Where the module's atomic instructions and calls need no routine, the middle machine on this code
/// is in step with the source machine after every list of source events, from all entries and
/// wherever the frames lie, and the line that has a running processor's next event is at the site of
/// the instruction at which it stands, and can be (LLVM Language Reference, as far as the checker
/// accepts it).
/// Sites never fall, each label stands once, the globals have their places and classes, each atomic
/// operation is that of the instruction at its site, and each plain access one of the instruction's.
/// Each line has the shape of its kind, and its numbers fit. It fails only where there is no memory.
pub fn select(alloc: Global, a: &Accepted) -> Result<Mid<Virtual>, AllocError>
    ensures step { IfOk result (λ m. RunsInStep a.now m) }
    ensures sites { IfOk result (λ m. StandsAtSites a.now m) }
    ensures goes_on { IfOk result (λ m. GoesOn a.now m) }
    ensures operations { IfOk result (λ m. OperationsAreAtSites a.now m) }
    ensures accesses { IfOk result (λ m. AccessesAreAtSites a.now m) }
    ensures formed { IfOk result (λ m. IsFormed a.now m) }
    ensures small { IfOk result (λ m. LinesAreSmall m) }
    ensures code { IfOk result (λ m. m ≡ selected a.now) }
{
    a.is_without_faults();
    accepted_modules_are_ready();
    selected_code_runs_in_step();
    selected_operations_are_at_sites();
    selected_accesses_are_at_sites();
    selected_code_is_formed();
    selected_lines_are_small();
    let m = a.module();
    let variables = m.globals.as_slice();
    let functions = m.functions.as_slice();
    let globals = mid_globals(alloc, a, variables)?;
    let mut code = Builder::new(alloc, globals);
    push_functions(alloc, &mut code, a, functions)?;
    Ok(code.finish())
}
