//! The skeleton of RV64 code.

ghost use Rattle.std.specs.Prelude.{◌≡◌, IfOk, option_to_list};
ghost use Rattle.ax_isa.specs.Marks.{is_among};
ghost use Rattle.ax_rv.specs.Skeleton.{amo_code, ended, fence_code, load_code, mark_of, skeleton, store_code};

use crate::instructions::{Amo, Ending, FenceSets, RvInstr};
use crate::isa::{load_bytes, size_bytes, store_bytes};
use ax_isa::access_mark;
use ax_words::MarkCode::*;
use ax_words::{FenceCode, Mark, MarkCode};
use std::alloc::{AllocError, Global};

/// The memory, fence and call instructions of some code in order, with sizes and marks, without
/// those whose base is one of the registers in `skip`. The only error is that memory fails.
pub fn skeleton(alloc: Global, code: &[RvInstr], skip: &[u8]) -> Result<Vec<Mark>, AllocError>
    ensures { IfOk result (λ marks. marks.items ≡ skeleton (is_among skip.now) code.now) }
{
    let mut marks = Vec::new(alloc);
    for i in code {
        if let Some(mark) = mark_of(i, skip) {
            marks.push(mark)?;
        }
    }
    Ok(marks)
}

/// The mark of an instruction.
fn mark_of(i: &RvInstr, skip: &[u8]) -> Option<Mark>
    ensures { option_to_list result ≡ mark_of (is_among skip.now) i.now }
{
    match *i {
        RvInstr::Load { form, rs1, .. } => access_mark(skip, rs1, RvLoad, load_bytes(form)),
        RvInstr::Store { form, rs1, .. } => access_mark(skip, rs1, RvStore, store_bytes(form)),
        RvInstr::LoadReserved {
            size,
            ending,
            rs1,
            ..
        } => access_mark(skip, rs1, load_code(ending), size_bytes(size)),
        RvInstr::StoreConditional {
            size,
            ending,
            rs1,
            ..
        } => access_mark(skip, rs1, store_code(ending), size_bytes(size)),
        RvInstr::Amo {
            op,
            size,
            ending,
            rs1,
            ..
        } => access_mark(skip, rs1, amo_code(op, ending), size_bytes(size)),
        RvInstr::Fence(sets) => Some(Mark::Fence(fence_code(sets))),
        RvInstr::Call { routine, .. } => Some(Mark::Call(routine)),
        _ => None,
    }
}

/// The code of an instruction whose name ends in its order.
fn ended(
    plain: MarkCode,
    acquire: MarkCode,
    release: MarkCode,
    both: MarkCode,
    ending: Ending,
) -> MarkCode
    ensures { result ≡ ended plain acquire release both ending }
{
    match ending {
        Ending::Plain => plain,
        Ending::Acquire => acquire,
        Ending::Release => release,
        Ending::AcquireRelease => both,
    }
}

/// The code of a linked load, which has no ending `.rl`.
fn load_code(ending: Ending) -> MarkCode
    ensures { result ≡ load_code ending }
{
    ended(Lr, LrAq, Lr, LrAqrl, ending)
}

/// The code of a pair store, which has no ending with `.aq`.
fn store_code(ending: Ending) -> MarkCode
    ensures { result ≡ store_code ending }
{
    ended(Sc, Sc, ScRl, ScRl, ending)
}

fn amo_code(op: Amo, ending: Ending) -> MarkCode
    ensures { result ≡ amo_code op ending }
{
    match op {
        Amo::Swap => ended(Amoswap, AmoswapAq, AmoswapRl, AmoswapAqrl, ending),
        Amo::Add => ended(Amoadd, AmoaddAq, AmoaddRl, AmoaddAqrl, ending),
        Amo::And => ended(Amoand, AmoandAq, AmoandRl, AmoandAqrl, ending),
        Amo::Or => ended(Amoor, AmoorAq, AmoorRl, AmoorAqrl, ending),
        Amo::Xor => ended(Amoxor, AmoxorAq, AmoxorRl, AmoxorAqrl, ending),
        Amo::Max => ended(Amomax, AmomaxAq, AmomaxRl, AmomaxAqrl, ending),
        Amo::Min => ended(Amomin, AmominAq, AmominRl, AmominAqrl, ending),
        Amo::MaxUnsigned => ended(Amomaxu, AmomaxuAq, AmomaxuRl, AmomaxuAqrl, ending),
        Amo::MinUnsigned => ended(Amominu, AmominuAq, AmominuRl, AmominuAqrl, ending),
    }
}

fn fence_code(sets: FenceSets) -> FenceCode
    ensures { result ≡ fence_code sets }
{
    match sets {
        FenceSets::ReadBeforeAll => FenceCode::FenceRRw,
        FenceSets::AllBeforeWrite => FenceCode::FenceRwW,
        FenceSets::AllBeforeAll => FenceCode::FenceRwRw,
        FenceSets::TotalStoreOrder => FenceCode::FenceTso,
    }
}
