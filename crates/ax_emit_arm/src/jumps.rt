//! The code of jumps, branches and outputs.

ghost use Rattle.std.specs.Prelude.{◌≡◌, ◌<◌, ◌+◌, ◌^◌, ◌++◌, [], ◌∷◌, OnOk};
ghost use Rattle.ax_emit.specs.Lines.{branch_code};
ghost use Rattle.ax_tags.specs.declared.tags.Tag.TheVariants.{Act};
ghost use Rattle.ax_expand.specs.Standing.{silently};
ghost use Rattle.ax_emit_arm.specs.Code.{distance, get_one, jump_to, turn};
ghost use Rattle.ax_emit_arm.specs.Emitters.{slot_of};

use crate::parts::{Piece, push_acting, push_silent};
use crate::slots::{NUMBER, push_get};
use ax_arm::ArmInstr;
use ax_mid::Virtual;
use std::alloc::AllocError;

/// The distance of a jump from its own place.
fn distance(place: u32, target: u32) -> i32
    requires place { place < 2 ^ 31 }
    requires target { target < 2 ^ 31 }
    ensures { result ≡ distance place target }
{
    if place <= target {
        (target - place) as i32
    } else {
        -1 - (place - target - 1) as i32
    }
}

/// Appends a jump, which has the event, at its place.
pub(crate) fn push_jump(out: &mut Piece, place: u32, target: u32) -> Result<(), AllocError>
    requires place { place < 2 ^ 31 }
    requires target { target < 2 ^ 31 }
    ensures { OnOk result (out.new.items ≡ out.old.items ++ (jump_to place target, Act) ∷ []) }
{
    let d = distance(place, target);
    push_acting(out, ArmInstr::B { d })
}

/// The places that a branch goes to: where its test isn't 0, and where it is.
#[derive(Clone, Copy)]
pub(crate) struct Targets {
    pub high: u32,
    pub low: u32,
}

/// Appends the code of a branch from a place on: a silent jump over the jump to `low`.
pub(crate) fn push_branch(
    out: &mut Piece,
    test: Virtual,
    targets: Targets,
    start: u32,
) -> Result<(), AllocError>
    requires start { start + 6 < 2 ^ 31 }
    requires high { targets.high < 2 ^ 31 }
    requires low { targets.low < 2 ^ 31 }
    ensures { OnOk result (out.new.items ≡ out.old.items ++ branch_code (get_one slot_of 0 test) turn jump_to targets.high targets.low start) }
{
    push_get(out, NUMBER, test)?;
    push_silent(out, ArmInstr::Cbnz { rt: NUMBER, d: 2 })?;
    push_jump(out, start + 4, targets.low)?;
    push_jump(out, start + 5, targets.high)?;
    Ok(())
}

/// Appends the code of an output.
pub(crate) fn push_out(out: &mut Piece, from: Virtual) -> Result<(), AllocError>
    ensures { OnOk result (out.new.items ≡ out.old.items ++ (silently (get_one slot_of 0 from) ++ (ArmInstr.Svc, Act) ∷ [])) }
{
    push_get(out, NUMBER, from)?;
    push_acting(out, ArmInstr::Svc)?;
    Ok(())
}
