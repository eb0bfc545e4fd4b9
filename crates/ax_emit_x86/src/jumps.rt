//! The code of jumps, branches and outputs.

ghost use Rattle.std.specs.Prelude.{◌≡◌, ◌<◌, ◌+◌, ◌^◌, ◌++◌, [], ◌∷◌, OnOk};
ghost use Rattle.ax_emit.specs.Lines.{branch_code};
ghost use Rattle.ax_tags.specs.declared.tags.Tag.TheVariants.{Act};
ghost use Rattle.ax_expand.specs.Standing.{silently};
ghost use Rattle.ax_emit_x86.specs.Code.{distance, get_one, jump_to, test_code, turn};
ghost use Rattle.ax_emit_x86.specs.Emitters.{IsReached, slot_of};

use crate::computed::push_test;
use crate::parts::{Piece, push_acting, push_silent};
use crate::slots::{RAX, RDI, push_get};
use ax_mid::Virtual;
use ax_x86::{Condition, X86Instr};
use std::alloc::AllocError;

/// The distance of a jump from its own place.
fn distance(place: u32, target: u32) -> i32
    requires place { place < 2 ^ 31 }
    requires target { target < 2 ^ 31 }
    ensures { result ≡ distance place target }
{
    if place <= target {
        (target - place) as i32
    } else {
        -1 - (place - target - 1) as i32
    }
}

/// Appends a jump, which has the event, at its place.
pub(crate) fn push_jump(out: &mut Piece, place: u32, target: u32) -> Result<(), AllocError>
    requires place { place < 2 ^ 31 }
    requires target { target < 2 ^ 31 }
    ensures { OnOk result (out.new.items ≡ out.old.items ++ (jump_to place target, Act) ∷ []) }
{
    let distance = distance(place, target);
    push_acting(out, X86Instr::Jmp { distance })
}

/// The places that a branch goes to: where its test isn't 0, and where it is.
#[derive(Clone, Copy)]
pub(crate) struct Targets {
    pub high: u32,
    pub low: u32,
}

/// Appends the code of a branch from a place on: a silent jump over the jump to `low`.
pub(crate) fn push_branch(
    out: &mut Piece,
    test: Virtual,
    targets: Targets,
    start: u32,
) -> Result<(), AllocError>
    requires test { IsReached test }
    requires start { start + 6 < 2 ^ 31 }
    requires high { targets.high < 2 ^ 31 }
    requires low { targets.low < 2 ^ 31 }
    ensures { OnOk result (out.new.items ≡ out.old.items ++ branch_code (get_one slot_of 0 test ++ test_code) turn jump_to targets.high targets.low start) }
{
    push_get(out, RAX, test)?;
    push_test(out)?;
    push_silent(
        out,
        X86Instr::Jcc {
            condition: Condition::NotEqual,
            distance: 2,
        },
    )?;
    push_jump(out, start + 4, targets.low)?;
    push_jump(out, start + 5, targets.high)?;
    Ok(())
}

/// Appends the code of an output.
pub(crate) fn push_out(out: &mut Piece, from: Virtual) -> Result<(), AllocError>
    requires { IsReached from }
    ensures { OnOk result (out.new.items ≡ out.old.items ++ (silently (get_one slot_of 7 from) ++ (X86Instr.Syscall, Act) ∷ [])) }
{
    push_get(out, RDI, from)?;
    push_acting(out, X86Instr::Syscall)?;
    Ok(())
}
