//! The rows of x86-64.

ghost use Rattle.std.specs.Prelude.{◌≡◌};
ghost use Rattle.ax_target.specs.X86Rows.{x86_fence, x86_inline, x86_loop};

use crate::endings::{access, row_from};
use arrayvec::ArrayVec;
use ax_words::MarkCode::{LockCmpxchg, LockCmpxchg16b, LockXadd, X86Load, X86Store, Xchg};
use ax_words::{FenceCode, Mark, Op, Order, RmwOp, Width};

pub(crate) fn inline(op: Op, order: Order, width: Width) -> ArrayVec<Mark, 6>
    ensures { result.items ≡ x86_inline op order width }
{
    let code = match (op, width) {
        (Op::Fence, _) => return fence(order),
        (Op::Load | Op::Cmpxchg, Width::W128) => LockCmpxchg16b,
        (_, Width::W128) => return ArrayVec::new(),
        (Op::Load, _) => X86Load,
        (Op::Store, _) if matches!(order, Order::SeqCst) => Xchg,
        (Op::Store, _) => X86Store,
        (Op::Cmpxchg, _) => LockCmpxchg,
        (Op::Rmw(RmwOp::Xchg), _) => Xchg,
        (Op::Rmw(RmwOp::Add | RmwOp::Sub), _) => LockXadd,
        (Op::Rmw(_), _) => return ArrayVec::new(),
    };
    row_from(&[access(code, width)])
}

fn fence(order: Order) -> ArrayVec<Mark, 6>
    ensures { result.items ≡ x86_fence order }
{
    match order {
        Order::SeqCst => row_from(&[Mark::Fence(FenceCode::Mfence)]),
        _ => ArrayVec::new(),
    }
}

/// The loop of a compare-and-swap. Of 16 bytes the first compares with zero and stores zero, and so
/// loads.
pub(crate) fn compare_loop(width: Width) -> ArrayVec<Mark, 6>
    ensures { result.items ≡ x86_loop width }
{
    let (load, swap) = match width {
        Width::W128 => (LockCmpxchg16b, LockCmpxchg16b),
        _ => (X86Load, LockCmpxchg),
    };
    row_from(&[access(load, width), access(swap, width)])
}
