//! The rows of calls of libatomic's routines.

ghost use Rattle.std.specs.Prelude.{◌≡◌, map};
ghost use Rattle.ax_target.specs.Calls.{generic_calls, routines_of as sized_routines_of, sized_calls};

use crate::endings::row_from;
use arrayvec::ArrayVec;
use ax_words::RoutineName::*;
use ax_words::{Mark, Op, RmwOp, RoutineName, Width};

/// The routines of one size.
#[derive(Clone, Copy)]
struct SizedRoutines {
    load: RoutineName,
    store: RoutineName,
    exchange: RoutineName,
    compare_exchange: RoutineName,
    fetch_add: RoutineName,
    fetch_sub: RoutineName,
    fetch_and: RoutineName,
    fetch_or: RoutineName,
    fetch_xor: RoutineName,
    fetch_nand: RoutineName,
}

/// The ten in the order of the ABI.
macro_rules! ten {
    ($load:ident $store:ident $exchange:ident $compare_exchange:ident $fetch_add:ident $fetch_sub:ident $fetch_and:ident $fetch_or:ident $fetch_xor:ident $fetch_nand:ident) => {
        SizedRoutines {
            load: $load,
            store: $store,
            exchange: $exchange,
            compare_exchange: $compare_exchange,
            fetch_add: $fetch_add,
            fetch_sub: $fetch_sub,
            fetch_and: $fetch_and,
            fetch_or: $fetch_or,
            fetch_xor: $fetch_xor,
            fetch_nand: $fetch_nand,
        }
    };
}

fn sized_routines(width: Width) -> SizedRoutines
    ensures { result ≡ sized_routines_of width }
{
    match width {
        Width::W8 =>
            ten!(Load1 Store1 Exchange1 CompareExchange1 FetchAdd1 FetchSub1 FetchAnd1 FetchOr1 FetchXor1 FetchNand1),
        Width::W16 =>
            ten!(Load2 Store2 Exchange2 CompareExchange2 FetchAdd2 FetchSub2 FetchAnd2 FetchOr2 FetchXor2 FetchNand2),
        Width::W32 =>
            ten!(Load4 Store4 Exchange4 CompareExchange4 FetchAdd4 FetchSub4 FetchAnd4 FetchOr4 FetchXor4 FetchNand4),
        Width::W64 =>
            ten!(Load8 Store8 Exchange8 CompareExchange8 FetchAdd8 FetchSub8 FetchAnd8 FetchOr8 FetchXor8 FetchNand8),
        Width::W128 =>
            ten!(Load16 Store16 Exchange16 CompareExchange16 FetchAdd16 FetchSub16 FetchAnd16 FetchOr16 FetchXor16 FetchNand16),
    }
}

/// The calls of routines of the width. An operation without a routine calls the load and the
/// compare-exchange, in a loop.
pub(crate) fn sized_row(op: Op, width: Width) -> ArrayVec<Mark, 6>
    ensures { result.items ≡ map Mark.Call (sized_calls op (sized_routines_of width)) }
{
    let sized = sized_routines(width);
    let routine = match op {
        Op::Load => sized.load,
        Op::Store => sized.store,
        Op::Cmpxchg => sized.compare_exchange,
        Op::Rmw(RmwOp::Xchg) => sized.exchange,
        Op::Rmw(RmwOp::Add) => sized.fetch_add,
        Op::Rmw(RmwOp::Sub) => sized.fetch_sub,
        Op::Rmw(RmwOp::And) => sized.fetch_and,
        Op::Rmw(RmwOp::Or) => sized.fetch_or,
        Op::Rmw(RmwOp::Xor) => sized.fetch_xor,
        Op::Rmw(RmwOp::Nand) => sized.fetch_nand,
        Op::Rmw(RmwOp::Max | RmwOp::Min | RmwOp::UMax | RmwOp::UMin) => {
            return row_from(&[Mark::Call(sized.load), Mark::Call(sized.compare_exchange)]);
        }
        Op::Fence => return ArrayVec::new(),
    };
    row_from(&[Mark::Call(routine)])
}

/// The calls of routines that take the size. All read-modify-writes but an exchange call the load
/// and the compare-exchange, in a loop.
pub(crate) fn generic_row(op: Op) -> ArrayVec<Mark, 6>
    ensures { result.items ≡ map Mark.Call (generic_calls op) }
{
    let routine = match op {
        Op::Load => Load,
        Op::Store => Store,
        Op::Cmpxchg => CompareExchange,
        Op::Rmw(RmwOp::Xchg) => Exchange,
        Op::Rmw(_) => return row_from(&[Mark::Call(Load), Mark::Call(CompareExchange)]),
        Op::Fence => return ArrayVec::new(),
    };
    row_from(&[Mark::Call(routine)])
}
