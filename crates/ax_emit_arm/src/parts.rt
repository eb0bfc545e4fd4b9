//! Instructions with their marks, as they are appended to code.

ghost use Rattle.std.specs.Prelude.{◌≡◌, ◌++◌, [], ◌∷◌, OnOk};
ghost use Rattle.ax_expand.specs.Standing.{silently};

use ax_arm::ArmInstr;
use ax_tags::Tag;
use std::alloc::AllocError;

/// Instructions, each with its mark.
pub type Piece = Vec<(ArmInstr, Tag)>;

/// Appends an instruction that has no event. The only error is memory.
pub fn push_silent(out: &mut Piece, inst: ArmInstr) -> Result<(), AllocError>
    ensures { OnOk result (out.new.items ≡ out.old.items ++ silently (inst ∷ [])) }
{
    Ok(out.push((inst, Tag::Silent))?)
}

/// Appends the instruction that has the event. The only error is memory.
pub fn push_acting(out: &mut Piece, inst: ArmInstr) -> Result<(), AllocError>
    ensures { OnOk result (out.new.items ≡ out.old.items ++ (inst, Tag.Act) ∷ []) }
{
    Ok(out.push((inst, Tag::Act))?)
}
