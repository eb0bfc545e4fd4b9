//! What holds of middle code.

ghost use Rattle.ax_selected.specs.Laid.{CodeIsLaid};
ghost use Rattle.ax_selected.specs.InStep.{PiecesKeepRunsInStep, SelectedCodeGoesOn, SelectedCodeRunsInStep, SelectedCodeStandsAtSites};
ghost use Rattle.ax_selected.specs.Formed.{SelectedCodeIsFormed, SelectedLinesAreSmall};
ghost use Rattle.ax_selected.specs.Operations.{SelectedAccessesAreAtSites, SelectedOperationsAreAtSites};

use ax_check::laws::{
    accepted_can_be_laid_out, accepted_functions_are_within_limits,
    accepted_instructions_are_sound, accepted_passes_tests,
};
use ax_layout::regions::objects_are_apart;
use ax_ops::results_fit;
use ax_standing::processors_stand_on_walks;
use ax_typed::numbers_are_typed;

/// Where the code of each instruction keeps its contract, source and middle code are in step after
/// every list of events: objects, outputs, statuses, stores that wait and what looks saw.
#[tactic(auto, using(crate::proofs::Beginning::all_in_step))]
pub fn pieces_keep_runs_in_step()
    ensures { PiecesKeepRunsInStep }
{}

/// Each instruction's lines stand where its code begins, the next one's behind them, each label
/// stands once, and behind a block's label begins its first instruction that is no phi.
#[tactic(auto, using(crate::proofs::Rises::code_is_laid))]
pub fn code_is_laid()
    ensures { CodeIsLaid }
{}

/// Each atomic operation of the code has the operation, width, order and weakness of the instruction
/// at its site, and where the module needs no routine the decision table has a way for it that calls
/// none.
#[tactic(auto, using(crate::proofs::Operating::operations_are_at_sites))]
pub fn selected_operations_are_at_sites()
    ensures { SelectedOperationsAreAtSites }
{}

/// Each plain load or store of the code is one of the plain load or store at its site: of the bytes of
/// the object's element, or, where that has 16, of one half of them.
#[tactic(auto, using(crate::proofs::Reached::accesses_are_at_sites))]
pub fn selected_accesses_are_at_sites()
    ensures { SelectedAccessesAreAtSites }
{}

/// Of each accepted module whose atomic instructions and calls need no routine, the middle code is in
/// step with the source after every list of events, from all entries, wherever the frames lie; and the
/// line that has a running processor's next event is at the site of the instruction at which it stands,
/// and can be.
pub fn selected_code_runs_in_step()
    ensures step { SelectedCodeRunsInStep }
    ensures sites { SelectedCodeStandsAtSites }
    ensures goes_on { SelectedCodeGoesOn }
{
    accepted_instructions_are_sound();
    accepted_passes_tests();
    accepted_functions_are_within_limits();
    accepted_can_be_laid_out();
    objects_are_apart();
    results_fit();
    numbers_are_typed();
    processors_stand_on_walks();
}

/// Of each accepted module the middle code's sites never fall, each label stands once, its globals lie
/// apart and in their region with the classes that they have on the target, and where the module needs
/// no routine each atomic operation has a way that calls none and an order that its row takes.
pub fn selected_code_is_formed()
    ensures { SelectedCodeIsFormed }
{
    accepted_instructions_are_sound();
    accepted_passes_tests();
    accepted_functions_are_within_limits();
    accepted_can_be_laid_out();
    objects_are_apart();
    results_fit();
    numbers_are_typed();
    processors_stand_on_walks();
}

/// Of each accepted module each line of the middle code has a tag that goes with its instruction, a
/// constant that fits a register, an address of at most the frame's 32,768 bytes, and registers of
/// which there are four for each of 2,048 instructions.
pub fn selected_lines_are_small()
    ensures { SelectedLinesAreSmall }
{
    accepted_instructions_are_sound();
    accepted_passes_tests();
    accepted_functions_are_within_limits();
    accepted_can_be_laid_out();
    objects_are_apart();
    results_fit();
    numbers_are_typed();
    processors_stand_on_walks();
}
