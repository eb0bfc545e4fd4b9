//! What holds of the selected code of each accepted module.

ghost use Rattle.ax_formed.specs.WellFormed.{SelectedCodeIsWellFormed, SelectedCodeKeepsRules};

use ax_check::laws::accepted_functions_are_within_limits;
use ax_selected::{selected_code_is_formed, selected_lines_are_small};

/// Of each accepted module the middle code keeps the rules of well formed code: what
/// `selected_code_is_formed` says, each label that a line names stands in the line's function, the
/// registers and the frame of each function take at most 114,688 bytes, each line has a tag and numbers
/// that go with its instruction, functions are numbered from 0 without a gap and end with a jump, a
/// branch, a trap or a return, and there are at most 68,288,512 lines, which weigh no more. Where the
/// module needs no routine the code is well formed for its target.
pub fn selected_code_is_well_formed()
    ensures rules { SelectedCodeKeepsRules }
    ensures whole { SelectedCodeIsWellFormed }
{
    accepted_functions_are_within_limits();
    selected_lines_are_small();
    selected_code_is_formed();
}
