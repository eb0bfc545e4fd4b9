//! What holds of RV64 code of middle code.

ghost use Rattle.ax_emit_rv.specs.Emitters.{LineCodeIsSteady};
ghost use Rattle.ax_emit_rv.specs.Laws.{RvCodeFollows, RvLineFollows};

use ax_emit::{
    MiddleProgram, access_line_follows, atomic_line_follows, branched_line_follows,
    computed_line_follows, emitted_code_follows, ended_line_follows, label_line_follows,
};
use ax_rv::Rv64;

/// The RV64 code of each middle instruction that calls no routine keeps the contract of its line,
/// with those of the expansion of an atomic operation, and of one access to what all share, as
/// premises.
pub fn rv_line_follows<M: MiddleProgram>()
    ensures { (case : M.Case) → RvLineFollows (M.program case) }
{
    computed_line_follows::<Rv64, M>();
    ended_line_follows::<Rv64, M>();
    branched_line_follows::<Rv64, M>();
    atomic_line_follows::<Rv64, M>();
    access_line_follows::<Rv64, M>();
    label_line_follows::<Rv64, M>();
}

/// So the image that is laid out from these lines' code keeps in step with the middle machine that
/// makes one step a line.
pub fn rv_code_follows<M: MiddleProgram>()
    ensures { (case : M.Case) → RvCodeFollows (M.program case) }
{
    rv_line_follows::<M>();
    emitted_code_follows::<Rv64, M>();
}

/// The code of a line has one size, wherever it and the other lines stand, where the code of each
/// atomic operation has one length.
pub fn line_code_is_steady<R>()
    ensures { LineCodeIsSteady R }
{}
