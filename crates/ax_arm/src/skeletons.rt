//! The skeletons of AArch64 code.

ghost use Rattle.std.specs.Prelude.{◌≡◌, IfOk, option_to_list};
ghost use Rattle.ax_isa.specs.Marks.{is_among};
ghost use Rattle.ax_arm.specs.Skeletons.{cas_code, casp_code, fence_code, lse_code, mark_of, skeleton, with_ending};

use crate::effects::bytes_of;
use crate::instructions::{ArmInstr, Barrier, Ending, Lse};
use ax_isa::access_mark;
use ax_words::MarkCode::*;
use ax_words::{FenceCode, Mark, MarkCode};
use std::alloc::{AllocError, Global};

/// The memory, fence and call instructions of some code in order, with sizes and marks, without
/// those whose base is one of the registers in `skip`. The only error is that memory fails.
pub fn skeleton(alloc: Global, code: &[ArmInstr], skip: &[u8]) -> Result<Vec<Mark>, AllocError>
    ensures { IfOk result (λ marks. marks.items ≡ skeleton (is_among skip.now) code.now) }
{
    let mut marks = Vec::new(alloc);
    for i in code {
        if let Some(mark) = mark_of(i, skip) {
            marks.push(mark)?;
        }
    }
    Ok(marks)
}

#[tactic(auto, unfolding(crate::specs::Skeletons::mark_of))]
fn mark_of(i: &ArmInstr, skip: &[u8]) -> Option<Mark>
    ensures { option_to_list result ≡ mark_of (is_among skip.now) i.now }
{
    match *i {
        ArmInstr::Ldr { size, rn, .. } => access_mark(skip, rn, Ldr, bytes_of(size)),
        ArmInstr::Ldar { size, rn, .. } => access_mark(skip, rn, Ldar, bytes_of(size)),
        ArmInstr::Str { size, rn, .. } => access_mark(skip, rn, Str, bytes_of(size)),
        ArmInstr::Stlr { size, rn, .. } => access_mark(skip, rn, Stlr, bytes_of(size)),
        ArmInstr::Ldxr { size, rn, .. } => access_mark(skip, rn, Ldxr, bytes_of(size)),
        ArmInstr::Ldaxr { size, rn, .. } => access_mark(skip, rn, Ldaxr, bytes_of(size)),
        ArmInstr::Ldxp { rn, .. } => access_mark(skip, rn, Ldxp, 16),
        ArmInstr::Ldaxp { rn, .. } => access_mark(skip, rn, Ldaxp, 16),
        ArmInstr::Stxr { size, rn, .. } => access_mark(skip, rn, Stxr, bytes_of(size)),
        ArmInstr::Stlxr { size, rn, .. } => access_mark(skip, rn, Stlxr, bytes_of(size)),
        ArmInstr::Stxp { rn, .. } => access_mark(skip, rn, Stxp, 16),
        ArmInstr::Stlxp { rn, .. } => access_mark(skip, rn, Stlxp, 16),
        ArmInstr::Lse {
            op,
            ending,
            size,
            rn,
            ..
        } => access_mark(skip, rn, lse_code(op, ending), bytes_of(size)),
        ArmInstr::Cas {
            ending,
            size,
            rn,
            ..
        } => access_mark(skip, rn, cas_code(ending), bytes_of(size)),
        ArmInstr::Casp { ending, rn, .. } => access_mark(skip, rn, casp_code(ending), 16),
        ArmInstr::Dmb(barrier) => Some(Mark::Fence(fence_code(barrier))),
        ArmInstr::Bl { routine, .. } => Some(Mark::Call(routine)),
        _ => None,
    }
}

fn with_ending(
    ending: Ending,
    plain: MarkCode,
    acquire: MarkCode,
    release: MarkCode,
    both: MarkCode,
) -> MarkCode
    ensures { result ≡ with_ending ending plain acquire release both }
{
    match ending {
        Ending::Plain => plain,
        Ending::Acquire => acquire,
        Ending::Release => release,
        Ending::AcquireRelease => both,
    }
}

fn lse_code(op: Lse, ending: Ending) -> MarkCode
    ensures { result ≡ lse_code op ending }
{
    match op {
        Lse::Swp => with_ending(ending, Swp, Swpa, Swpl, Swpal),
        Lse::Ldadd => with_ending(ending, Ldadd, Ldadda, Ldaddl, Ldaddal),
        Lse::Ldclr => with_ending(ending, Ldclr, Ldclra, Ldclrl, Ldclral),
        Lse::Ldset => with_ending(ending, Ldset, Ldseta, Ldsetl, Ldsetal),
        Lse::Ldeor => with_ending(ending, Ldeor, Ldeora, Ldeorl, Ldeoral),
        Lse::Ldsmax => with_ending(ending, Ldsmax, Ldsmaxa, Ldsmaxl, Ldsmaxal),
        Lse::Ldsmin => with_ending(ending, Ldsmin, Ldsmina, Ldsminl, Ldsminal),
        Lse::Ldumax => with_ending(ending, Ldumax, Ldumaxa, Ldumaxl, Ldumaxal),
        Lse::Ldumin => with_ending(ending, Ldumin, Ldumina, Lduminl, Lduminal),
    }
}

fn cas_code(ending: Ending) -> MarkCode
    ensures { result ≡ cas_code ending }
{
    with_ending(ending, Cas, Casa, Casl, Casal)
}

fn casp_code(ending: Ending) -> MarkCode
    ensures { result ≡ casp_code ending }
{
    with_ending(ending, Casp, Caspa, Caspl, Caspal)
}

fn fence_code(barrier: Barrier) -> FenceCode
    ensures { result ≡ fence_code barrier }
{
    match barrier {
        Barrier::Ish => FenceCode::DmbIsh,
        Barrier::Ishld => FenceCode::DmbIshld,
    }
}
