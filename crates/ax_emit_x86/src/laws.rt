//! What holds of x86-64 code of middle code.

ghost use Rattle.ax_emit_x86.specs.Emitters.{LineCodeIsSteady};
ghost use Rattle.ax_emit_x86.specs.Laws.{X86CodeFollows, X86LineFollows};

use ax_emit::{
    MiddleProgram, access_line_follows, atomic_line_follows, branched_line_follows,
    computed_line_follows, emitted_code_follows, ended_line_follows, label_line_follows,
};
use ax_x86::X86;

/// The x86-64 code of each middle instruction that calls no routine keeps the contract of its line,
/// with those of the expansion of an atomic operation, and of one access to what all share, as
/// premises.
pub fn x86_line_follows<M: MiddleProgram>()
    ensures { (case : M.Case) → X86LineFollows (M.program case) }
{
    computed_line_follows::<X86, M>();
    ended_line_follows::<X86, M>();
    branched_line_follows::<X86, M>();
    atomic_line_follows::<X86, M>();
    access_line_follows::<X86, M>();
    label_line_follows::<X86, M>();
}

/// So the image that is laid out from these lines' code keeps in step with the middle machine that
/// makes one step a line.
pub fn x86_code_follows<M: MiddleProgram>()
    ensures { (case : M.Case) → X86CodeFollows (M.program case) }
{
    x86_line_follows::<M>();
    emitted_code_follows::<X86, M>();
}

/// The code of a line has one size, wherever it and the other lines stand, where the code of each
/// atomic operation has one length.
pub fn line_code_is_steady<R>()
    ensures { LineCodeIsSteady R }
{}
