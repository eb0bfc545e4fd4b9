//! What holds of x86-64's code of each middle instruction.

ghost use Rattle.ax_sound_x86.specs.Laws.{X86OperationsAreSound, X86PiecesAreSound};

use ax_emit_x86::line_code_is_steady;
use ax_mid::Virtual;

/// Where the code of atomic operations is sound, so is the code of each middle instruction: it has one
/// length, at most 31 instructions for each unit of its weight, registers and numbers are in their
/// ranges, and each jump leads to a place of the code. It is for frames that have more than the 32
/// kilobytes for allocas below the stack pointer.
pub fn x86_pieces_are_sound()
    ensures { X86PiecesAreSound }
{
    line_code_is_steady::<Virtual>();
}

/// The code of atomic operations is sound, on each target.
pub fn x86_operations_are_sound()
    ensures { X86OperationsAreSound }
{}
