//! The rows of AArch64, without and with LSE.

ghost use Rattle.std.specs.Prelude.{◌≡◌};
ghost use Rattle.ax_target.specs.ArmRows.{
  arm_fence,
  arm_inline,
  arm_pair,
  cas as cas_of,
  casp as casp_of,
  linked_load as linked_load_of,
  lse_codes as lse_codes_of,
  lse_inline,
  lse_loop,
  pair_store as pair_store_of,
};

use crate::endings::{Codes, access, acquires, releases, row_from};
use arrayvec::ArrayVec;
use ax_words::MarkCode::*;
use ax_words::{FenceCode, Mark, MarkCode, Op, Order, RmwOp, Width};

/// Loads, stores and fences, which both targets have alike.
pub(crate) fn inline(op: Op, order: Order, width: Width) -> ArrayVec<Mark, 6>
    ensures { result.items ≡ arm_inline op order width }
{
    let code = match op {
        Op::Load if acquires(order) => Ldar,
        Op::Load => Ldr,
        Op::Store if releases(order) => Stlr,
        Op::Store => Str,
        Op::Fence => return fence(order),
        Op::Cmpxchg | Op::Rmw(_) => return ArrayVec::new(),
    };
    row_from(&[access(code, width)])
}

fn fence(order: Order) -> ArrayVec<Mark, 6>
    ensures { result.items ≡ arm_fence order }
{
    let code = match order {
        Order::Unordered | Order::Monotonic => return ArrayVec::new(),
        Order::Acquire => FenceCode::DmbIshld,
        Order::Release | Order::AcqRel | Order::SeqCst => FenceCode::DmbIsh,
    };
    row_from(&[Mark::Fence(code)])
}

/// The loop of a linked load and its store. A compare-exchange of 16 bytes that finds another value
/// stores the loaded one back, since only a store that succeeds shows that both halves are of one
/// moment.
pub(crate) fn pair_loop(op: Op, order: Order, width: Width) -> ArrayVec<Mark, 6>
    ensures { result.items ≡ arm_pair op order width }
{
    let load = linked_load(order, width);
    let store = pair_store(order, width);
    match (op, width) {
        (Op::Cmpxchg, Width::W128) => row_from(&[load, store, store]),
        _ => row_from(&[load, store]),
    }
}

fn linked_load(order: Order, width: Width) -> Mark
    ensures { result ≡ linked_load_of order width }
{
    let code = match (width, acquires(order)) {
        (Width::W128, true) => Ldaxp,
        (Width::W128, false) => Ldxp,
        (_, true) => Ldaxr,
        (_, false) => Ldxr,
    };
    access(code, width)
}

fn pair_store(order: Order, width: Width) -> Mark
    ensures { result ≡ pair_store_of order width }
{
    let code = match (width, releases(order)) {
        (Width::W128, true) => Stlxp,
        (Width::W128, false) => Stxp,
        (_, true) => Stlxr,
        (_, false) => Stxr,
    };
    access(code, width)
}

pub(crate) fn lse_row(op: Op, order: Order, width: Width) -> ArrayVec<Mark, 6>
    ensures { result.items ≡ lse_inline op order width }
{
    let code = match (op, width) {
        (Op::Fence, _) => return fence(order),
        (Op::Load | Op::Cmpxchg, Width::W128) => casp(order),
        (_, Width::W128) => return ArrayVec::new(),
        (Op::Load | Op::Store, _) => return inline(op, order, width),
        (Op::Cmpxchg, _) => cas(order),
        (Op::Rmw(op), _) => match lse_codes(op) {
            Some(codes) => codes.with(order),
            None => return ArrayVec::new(),
        },
    };
    row_from(&[access(code, width)])
}

/// The loop of a compare-and-swap. Of 16 bytes the first compares with zero and stores zero, and so
/// loads; only the one that swaps has the order.
pub(crate) fn compare_loop(order: Order, width: Width) -> ArrayVec<Mark, 6>
    ensures { result.items ≡ lse_loop order width }
{
    let (load, swap) = match width {
        Width::W128 => (Casp, casp(order)),
        _ => (Ldr, cas(order)),
    };
    row_from(&[access(load, width), access(swap, width)])
}

fn cas(order: Order) -> MarkCode
    ensures { result ≡ cas_of order }
{
    Codes::of(Cas, Casa, Casl, Casal).with(order)
}

fn casp(order: Order) -> MarkCode
    ensures { result ≡ casp_of order }
{
    Codes::of(Casp, Caspa, Caspl, Caspal).with(order)
}

/// The instruction of a read-modify-write. Nand has none.
fn lse_codes(op: RmwOp) -> Option<Codes>
    ensures { result ≡ lse_codes_of op }
{
    let codes = match op {
        RmwOp::Xchg => Codes::of(Swp, Swpa, Swpl, Swpal),
        RmwOp::Add | RmwOp::Sub => Codes::of(Ldadd, Ldadda, Ldaddl, Ldaddal),
        RmwOp::And => Codes::of(Ldclr, Ldclra, Ldclrl, Ldclral),
        RmwOp::Or => Codes::of(Ldset, Ldseta, Ldsetl, Ldsetal),
        RmwOp::Xor => Codes::of(Ldeor, Ldeora, Ldeorl, Ldeoral),
        RmwOp::Max => Codes::of(Ldsmax, Ldsmaxa, Ldsmaxl, Ldsmaxal),
        RmwOp::Min => Codes::of(Ldsmin, Ldsmina, Ldsminl, Ldsminal),
        RmwOp::UMax => Codes::of(Ldumax, Ldumaxa, Ldumaxl, Ldumaxal),
        RmwOp::UMin => Codes::of(Ldumin, Ldumina, Lduminl, Lduminal),
        RmwOp::Nand => return None,
    };
    Some(codes)
}
