//! The code of jumps, branches and outputs.

ghost use Rattle.std.specs.Prelude.{◌≡◌, ◌<◌, ◌+◌, ◌^◌, ◌++◌, [], ◌∷◌, OnOk, length, pos};
ghost use Rattle.ax_emit.specs.Lines.{branch_code};
ghost use Rattle.ax_tags.specs.declared.tags.Tag.TheVariants.{Act};
ghost use Rattle.ax_expand.specs.Standing.{silently};
ghost use Rattle.ax_emit_rv.specs.Code.{distance, get_one, jump_to};
ghost use Rattle.ax_emit_rv.specs.Emitters.{slot_of};

use crate::parts::{Piece, push_acting, push_silent};
use crate::slots::{push_get_one, size_of_get};
use ax_mid::Virtual;
use ax_rv::{Condition, RvInstr};
use std::alloc::AllocError;

/// The distance of a jump from its own place.
fn distance(place: u32, target: u32) -> i32
    requires place { place < 2 ^ 31 }
    requires target { target < 2 ^ 31 }
    ensures { result ≡ distance place target }
{
    if place <= target {
        (target - place) as i32
    } else {
        -1 - (place - target - 1) as i32
    }
}

/// Appends a jump, which has the event, at its place.
pub(crate) fn push_jump(out: &mut Piece, place: u32, target: u32) -> Result<(), AllocError>
    requires place { place < 2 ^ 31 }
    requires target { target < 2 ^ 31 }
    ensures { OnOk result (out.new.items ≡ out.old.items ++ (jump_to place target, Act) ∷ []) }
{
    let distance = distance(place, target);
    push_acting(out, RvInstr::Jump { distance })
}

/// The places that a branch goes to: where its test isn't 0, and where it is.
#[derive(Clone, Copy)]
pub(crate) struct Targets {
    pub high: u32,
    pub low: u32,
}

/// Appends the code of a branch from a place on: a silent jump over the jump to `low`.
pub(crate) fn push_branch(
    out: &mut Piece,
    test: Virtual,
    targets: Targets,
    start: u32,
) -> Result<(), AllocError>
    requires start { start + length (get_one slot_of 5 test) + 2 < 2 ^ 31 }
    requires high { targets.high < 2 ^ 31 }
    requires low { targets.low < 2 ^ 31 }
    ensures { OnOk result (out.new.items ≡ out.old.items ++ branch_code (get_one slot_of 5 test) (RvInstr.Branch Condition.NotEqual 5 0 (pos 2)) jump_to targets.high targets.low start) }
{
    let turn = start + size_of_get(test.0);
    push_get_one(out, 5, test)?;
    push_silent(
        out,
        RvInstr::Branch {
            condition: Condition::NotEqual,
            rs1: 5,
            rs2: 0,
            distance: 2,
        },
    )?;
    push_jump(out, turn + 1, targets.low)?;
    push_jump(out, turn + 2, targets.high)?;
    Ok(())
}

/// Appends the code of an output.
pub(crate) fn push_out(out: &mut Piece, from: Virtual) -> Result<(), AllocError>
    ensures { OnOk result (out.new.items ≡ out.old.items ++ (silently (get_one slot_of 10 from) ++ (RvInstr.Ecall, Act) ∷ [])) }
{
    push_get_one(out, 10, from)?;
    push_acting(out, RvInstr::Ecall)?;
    Ok(())
}
