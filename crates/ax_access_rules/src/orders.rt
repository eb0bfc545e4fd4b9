//! N6 BadOrdering.

ghost use Rattle.std.specs.Prelude.{◌≡◌};
ghost use Rattle.ax_access_rules.specs.Orders.{bad_orders, bad_orders_of, is_bad_number, is_bad_order, is_illegal, order_fault};

use ax_module::{Arg, Inst, Operand};
use ax_rules::Shape;
use ax_rules::calls::{called, shape};
use ax_words::{Access, Order, RoutineName, from_abi, legal};

fn is_illegal(access: Access, order: Option<Order>) -> bool
    ensures { result ≡ is_illegal access order }
{
    match order {
        None => true,
        Some(order) => !legal(access, order),
    }
}

fn is_bad_number(access: Access, v: Operand) -> bool
    ensures { result ≡ is_bad_number access v }
{
    match v {
        Operand::Const(n) => match u64::try_from(n) {
            Ok(n) => is_illegal(access, from_abi(n)),
            Err(_) => true,
        },
        _ => true,
    }
}

fn is_bad_order(args: &[Arg], k: usize, access: Access) -> bool
    ensures { result ≡ is_bad_order args.now k access }
{
    match args.get(k) {
        Some(Arg::Value(_, v)) => is_bad_number(access, *v),
        _ => true,
    }
}

/// Whether an order argument of a routine isn't legal.
fn has_bad_order(shape: Shape, args: &[Arg]) -> bool
    ensures { result ≡ bad_orders shape args.now }
{
    match shape {
        Shape::Load => is_bad_order(args, 1, Access::Load),
        Shape::Store => is_bad_order(args, 2, Access::Store),
        Shape::Update => is_bad_order(args, 2, Access::Rmw),
        Shape::Compare => {
            is_bad_order(args, 3, Access::CmpSuccess) || is_bad_order(args, 4, Access::CmpFailure)
        }
        Shape::GenericLoad => is_bad_order(args, 3, Access::Load),
        Shape::GenericStore => is_bad_order(args, 3, Access::Store),
        Shape::GenericExchange => is_bad_order(args, 4, Access::Rmw),
        Shape::GenericCompare => {
            is_bad_order(args, 4, Access::CmpSuccess) || is_bad_order(args, 5, Access::CmpFailure)
        }
        Shape::IsLockFree => false,
    }
}

fn has_bad_order_in(routine: Option<RoutineName>, args: &[Arg]) -> bool
    ensures { result ≡ bad_orders_of routine args.now }
{
    match routine {
        None => false,
        Some(routine) => has_bad_order(shape(routine), args),
    }
}

/// N6: whether an order isn't legal where it stands, or no number of an order.
#[tactic(auto, unfolding(crate::specs::Orders::order_fault))]
pub fn has_bad_ordering(inst: &Inst) -> bool
    ensures { result ≡ order_fault inst.now }
{
    match inst {
        Inst::LoadAtomic(_, _, order, _) => !legal(Access::Load, *order),
        Inst::StoreAtomic(_, _, _, order, _) => !legal(Access::Store, *order),
        Inst::Cmpxchg(_, _, _, _, _, _, success, failure, _) => {
            !legal(Access::CmpSuccess, *success) || !legal(Access::CmpFailure, *failure)
        }
        Inst::Rmw(_, _, _, _, order, _) => !legal(Access::Rmw, *order),
        Inst::Fence(_, order) => !legal(Access::Fence, *order),
        Inst::Call(t, name, args) => {
            has_bad_order_in(
                called(*t, name.as_bytes(), args.as_slice()),
                args.as_slice(),
            )
        }
        _ => false,
    }
}
