//! What holds of AArch64 code of middle code.

ghost use Rattle.ax_emit_arm.specs.Emitters.{LineCodeIsSteady};
ghost use Rattle.ax_emit_arm.specs.Laws.{ArmCodeFollows, ArmLineFollows};

use ax_arm::Arm;
use ax_emit::{
    MiddleProgram, access_line_follows, atomic_line_follows, branched_line_follows,
    computed_line_follows, emitted_code_follows, ended_line_follows, label_line_follows,
};

/// The AArch64 code of each middle instruction that calls no routine keeps the contract of its line,
/// with those of the expansion of an atomic operation, and of one access to what all share, as
/// premises.
pub fn arm_line_follows<M: MiddleProgram>()
    ensures { (case : M.Case) → ArmLineFollows (M.program case) }
{
    computed_line_follows::<Arm, M>();
    ended_line_follows::<Arm, M>();
    branched_line_follows::<Arm, M>();
    atomic_line_follows::<Arm, M>();
    access_line_follows::<Arm, M>();
    label_line_follows::<Arm, M>();
}

/// So the image that is laid out from these lines' code keeps in step with the middle machine that
/// makes one step a line.
pub fn arm_code_follows<M: MiddleProgram>()
    ensures { (case : M.Case) → ArmCodeFollows (M.program case) }
{
    arm_line_follows::<M>();
    emitted_code_follows::<Arm, M>();
}

/// The code of a line has one size, wherever it and the other lines stand, where the code of each
/// atomic operation has one length.
pub fn line_code_is_steady<R>()
    ensures { LineCodeIsSteady R }
{}
