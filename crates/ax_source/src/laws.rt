//! Accepted modules can run.

ghost use Rattle.ax_source_run.specs.SourceState.{SourceProgram};
ghost use Rattle.ax_check.specs.Accepted.{IsAccepted};
ghost use Rattle.ax_source.specs.Runnable.{IsRunnable};

use ax_check::laws::{
    accepted_can_be_laid_out, accepted_functions_are_within_limits,
    accepted_instructions_are_sound, accepted_passes_tests,
};

/// The source machine can run each accepted module.
pub fn accepted_modules_are_runnable()
    ensures { (program : SourceProgram) → IsAccepted program → IsRunnable program }
{
    accepted_passes_tests();
    accepted_instructions_are_sound();
    accepted_can_be_laid_out();
    accepted_functions_are_within_limits();
}
