//! Accepted modules can be selected.

ghost use Rattle.ax_source_run.specs.SourceState.{SourceProgram};
ghost use Rattle.ax_check.specs.Accepted.{IsAccepted};
ghost use Rattle.ax_select.specs.Ready.{IsReadyProgram};

use ax_check::laws::{
    accepted_can_be_laid_out, accepted_functions_are_within_limits, accepted_instructions_are_sound,
};

/// Each instruction of an accepted module is as the code of its kind asks: its types have at most
/// 128 bits, its operands and pointers name some of the at most 2,048 instructions of its function,
/// its shifts are by constants below the width, and its branches lead to blocks.
pub fn accepted_modules_are_ready()
    ensures { (program : SourceProgram) → IsAccepted program → IsReadyProgram program }
{
    accepted_instructions_are_sound();
    accepted_functions_are_within_limits();
    accepted_can_be_laid_out();
}
