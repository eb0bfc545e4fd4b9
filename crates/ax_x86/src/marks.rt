//! The skeleton of x86-64 code.

ghost use Rattle.std.specs.Prelude.{◌≡◌, IfOk, option_to_list};
ghost use Rattle.ax_isa.specs.Marks.{is_among};
ghost use Rattle.ax_x86.specs.Skeleton.{mark_of, skeleton};

use crate::instructions::X86Instr;
use ax_isa::access_mark;
use ax_words::{FenceCode, Mark, MarkCode};
use std::alloc::{AllocError, Global};

/// The memory, fence and call instructions of a code range in order, with their sizes in bytes,
/// without the accesses whose base is one of the registers in `skip`. The only error is that memory
/// fails.
pub fn skeleton(alloc: Global, code: &[X86Instr], skip: &[u8]) -> Result<Vec<Mark>, AllocError>
    ensures { IfOk result (λ marks. marks.items ≡ skeleton (is_among skip.now) code.now) }
{
    let mut marks = Vec::new(alloc);
    for i in code {
        if let Some(mark) = mark_of(i, skip) {
            marks.push(mark)?;
        }
    }
    Ok(marks)
}

/// The mark of an instruction.
#[tactic(auto, unfolding(crate::specs::Skeleton::mark_of))]
fn mark_of(i: &X86Instr, skip: &[u8]) -> Option<Mark>
    ensures { option_to_list result ≡ mark_of (is_among skip.now) i.now }
{
    match *i {
        X86Instr::Load { size, memory, .. } => {
            access_mark(skip, memory.base, MarkCode::X86Load, size.bytes())
        }
        X86Instr::Store { size, memory, .. } => {
            access_mark(skip, memory.base, MarkCode::X86Store, size.bytes())
        }
        X86Instr::Xchg { size, memory, .. } => {
            access_mark(skip, memory.base, MarkCode::Xchg, size.bytes())
        }
        X86Instr::LockXadd { size, memory, .. } => {
            access_mark(skip, memory.base, MarkCode::LockXadd, size.bytes())
        }
        X86Instr::LockCmpxchg { size, memory, .. } => {
            access_mark(skip, memory.base, MarkCode::LockCmpxchg, size.bytes())
        }
        X86Instr::LockCmpxchg16b { memory } => {
            access_mark(skip, memory.base, MarkCode::LockCmpxchg16b, 16)
        }
        X86Instr::Mfence => Some(Mark::Fence(FenceCode::Mfence)),
        X86Instr::Call { routine, .. } => Some(Mark::Call(routine)),
        _ => None,
    }
}
