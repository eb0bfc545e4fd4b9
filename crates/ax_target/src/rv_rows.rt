//! The rows of RV64.

ghost use Rattle.std.specs.Prelude.{◌≡◌};
ghost use Rattle.ax_words.specs.Width.{bytes_of};
ghost use Rattle.ax_target.specs.RvRows.{amo_codes as amo_codes_of, rv_fence, rv_inline, rv_load, rv_pair, rv_rmw, rv_store};

use crate::endings::{Codes, access, releases, row_from};
use arrayvec::ArrayVec;
use ax_words::MarkCode::*;
use ax_words::{FenceCode, Mark, Op, Order, RmwOp, Width};

const READ_BEFORE_ALL: Mark = Mark::Fence(FenceCode::FenceRRw);

const ALL_BEFORE_WRITE: Mark = Mark::Fence(FenceCode::FenceRwW);

const ALL_BEFORE_ALL: Mark = Mark::Fence(FenceCode::FenceRwRw);

const TOTAL_STORE_ORDER: Mark = Mark::Fence(FenceCode::FenceTso);

pub(crate) fn inline(op: Op, order: Order, width: Width) -> ArrayVec<Mark, 6>
    ensures { result.items ≡ rv_inline op order (bytes_of width) }
{
    match op {
        Op::Load => load(order, access(RvLoad, width)),
        Op::Store => store(order, access(RvStore, width)),
        Op::Rmw(op) => amo(op, order, width),
        Op::Cmpxchg => ArrayVec::new(),
        Op::Fence => fence(order),
    }
}

fn load(order: Order, load: Mark) -> ArrayVec<Mark, 6>
    ensures { result.items ≡ rv_load order load }
{
    match order {
        Order::Unordered | Order::Monotonic => row_from(&[load]),
        Order::Acquire => row_from(&[load, READ_BEFORE_ALL]),
        Order::SeqCst => row_from(&[ALL_BEFORE_ALL, load, READ_BEFORE_ALL]),
        Order::Release | Order::AcqRel => ArrayVec::new(),
    }
}

fn store(order: Order, store: Mark) -> ArrayVec<Mark, 6>
    ensures { result.items ≡ rv_store order store }
{
    match order {
        Order::Unordered | Order::Monotonic => row_from(&[store]),
        Order::Release | Order::SeqCst => row_from(&[ALL_BEFORE_WRITE, store]),
        Order::Acquire | Order::AcqRel => ArrayVec::new(),
    }
}

fn fence(order: Order) -> ArrayVec<Mark, 6>
    ensures { result.items ≡ rv_fence order }
{
    let fence = match order {
        Order::Unordered | Order::Monotonic => return ArrayVec::new(),
        Order::Acquire => READ_BEFORE_ALL,
        Order::Release => ALL_BEFORE_WRITE,
        Order::AcqRel => TOTAL_STORE_ORDER,
        Order::SeqCst => ALL_BEFORE_ALL,
    };
    row_from(&[fence])
}

/// The loop of a linked load and its store, on an object of the width.
pub(crate) fn pair_loop(order: Order, width: Width) -> ArrayVec<Mark, 6>
    ensures { result.items ≡ rv_pair order (bytes_of width) }
{
    let load = match order {
        Order::Unordered | Order::Monotonic | Order::Release => Lr,
        Order::Acquire | Order::AcqRel => LrAq,
        Order::SeqCst => LrAqrl,
    };
    let store = if releases(order) { ScRl } else { Sc };
    row_from(&[access(load, width), access(store, width)])
}

fn amo(op: RmwOp, order: Order, width: Width) -> ArrayVec<Mark, 6>
    ensures { result.items ≡ rv_rmw op order (bytes_of width) }
{
    match amo_codes(op) {
        Some(codes) => row_from(&[access(codes.with(order), width)]),
        None => ArrayVec::new(),
    }
}

/// The instruction of a read-modify-write. Nand has none.
fn amo_codes(op: RmwOp) -> Option<Codes>
    ensures { result ≡ amo_codes_of op }
{
    let codes = match op {
        RmwOp::Xchg => Codes::of(Amoswap, AmoswapAq, AmoswapRl, AmoswapAqrl),
        RmwOp::Add | RmwOp::Sub => Codes::of(Amoadd, AmoaddAq, AmoaddRl, AmoaddAqrl),
        RmwOp::And => Codes::of(Amoand, AmoandAq, AmoandRl, AmoandAqrl),
        RmwOp::Or => Codes::of(Amoor, AmoorAq, AmoorRl, AmoorAqrl),
        RmwOp::Xor => Codes::of(Amoxor, AmoxorAq, AmoxorRl, AmoxorAqrl),
        RmwOp::Max => Codes::of(Amomax, AmomaxAq, AmomaxRl, AmomaxAqrl),
        RmwOp::Min => Codes::of(Amomin, AmominAq, AmominRl, AmominAqrl),
        RmwOp::UMax => Codes::of(Amomaxu, AmomaxuAq, AmomaxuRl, AmomaxuAqrl),
        RmwOp::UMin => Codes::of(Amominu, AmominuAq, AmominuRl, AmominuAqrl),
        RmwOp::Nand => return None,
    };
    Some(codes)
}
