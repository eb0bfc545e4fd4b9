//! Words that stand for something: orders, conditions and operations.

ghost use Rattle.std.specs.Prelude.{◌≡◌};
ghost use Rattle.ax_symbols.specs.Pieces.{Gives, one_at, order_of, order_in, pred_of, pred_in, binary_of, binary_in, cast_of, cast_in, rmw_of, rmw_in};

use crate::symbol::{Sign, Symbol};
use crate::vocabulary::Word;
use ax_module::{BinOp, Cast, Pred};
use ax_words::{Order, RmwOp};

fn order_in(sign: Sign) -> Option<Order>
    ensures { result ≡ order_in sign }
{
    match sign {
        Sign::Word(Word::Unordered) => Some(Order::Unordered),
        Sign::Word(Word::Monotonic) => Some(Order::Monotonic),
        Sign::Word(Word::Acquire) => Some(Order::Acquire),
        Sign::Word(Word::Release) => Some(Order::Release),
        Sign::Word(Word::AcqRel) => Some(Order::AcqRel),
        Sign::Word(Word::SeqCst) => Some(Order::SeqCst),
        _ => None,
    }
}

/// An order.
pub fn order(line: &[Symbol]) -> Option<(Order, &[Symbol])>
    ensures { Gives (λ x. (x.0, x.1.now)) result (one_at order_of line.now) }
{
    let [first, rest @ ..] = line else {
        return None;
    };
    let order = order_in(first.sign)?;
    Some((order, rest))
}

fn pred_in(sign: Sign) -> Option<Pred>
    ensures { result ≡ pred_in sign }
{
    match sign {
        Sign::Word(Word::Eq) => Some(Pred::Eq),
        Sign::Word(Word::Ne) => Some(Pred::Ne),
        Sign::Word(Word::Ugt) => Some(Pred::Ugt),
        Sign::Word(Word::Uge) => Some(Pred::Uge),
        Sign::Word(Word::Ult) => Some(Pred::Ult),
        Sign::Word(Word::Ule) => Some(Pred::Ule),
        Sign::Word(Word::Sgt) => Some(Pred::Sgt),
        Sign::Word(Word::Sge) => Some(Pred::Sge),
        Sign::Word(Word::Slt) => Some(Pred::Slt),
        Sign::Word(Word::Sle) => Some(Pred::Sle),
        _ => None,
    }
}

/// The condition of an `icmp`.
pub fn condition(line: &[Symbol]) -> Option<(Pred, &[Symbol])>
    ensures { Gives (λ x. (x.0, x.1.now)) result (one_at pred_of line.now) }
{
    let [first, rest @ ..] = line else {
        return None;
    };
    let condition = pred_in(first.sign)?;
    Some((condition, rest))
}

fn binary_in(sign: Sign) -> Option<BinOp>
    ensures { result ≡ binary_in sign }
{
    match sign {
        Sign::Word(Word::Add) => Some(BinOp::Add),
        Sign::Word(Word::Sub) => Some(BinOp::Sub),
        Sign::Word(Word::Mul) => Some(BinOp::Mul),
        Sign::Word(Word::And) => Some(BinOp::And),
        Sign::Word(Word::Or) => Some(BinOp::Or),
        Sign::Word(Word::Xor) => Some(BinOp::Xor),
        Sign::Word(Word::Shl) => Some(BinOp::Shl),
        Sign::Word(Word::Lshr) => Some(BinOp::Lshr),
        Sign::Word(Word::Ashr) => Some(BinOp::Ashr),
        _ => None,
    }
}

/// A binary operation.
pub fn binary_operation(line: &[Symbol]) -> Option<(BinOp, &[Symbol])>
    ensures { Gives (λ x. (x.0, x.1.now)) result (one_at binary_of line.now) }
{
    let [first, rest @ ..] = line else {
        return None;
    };
    let operation = binary_in(first.sign)?;
    Some((operation, rest))
}

fn cast_in(sign: Sign) -> Option<Cast>
    ensures { result ≡ cast_in sign }
{
    match sign {
        Sign::Word(Word::Zext) => Some(Cast::Zext),
        Sign::Word(Word::Sext) => Some(Cast::Sext),
        Sign::Word(Word::Trunc) => Some(Cast::Trunc),
        _ => None,
    }
}

/// A conversion's name.
pub fn cast(line: &[Symbol]) -> Option<(Cast, &[Symbol])>
    ensures { Gives (λ x. (x.0, x.1.now)) result (one_at cast_of line.now) }
{
    let [first, rest @ ..] = line else {
        return None;
    };
    let cast = cast_in(first.sign)?;
    Some((cast, rest))
}

fn rmw_in(sign: Sign) -> Option<RmwOp>
    ensures { result ≡ rmw_in sign }
{
    match sign {
        Sign::Word(Word::Xchg) => Some(RmwOp::Xchg),
        Sign::Word(Word::Add) => Some(RmwOp::Add),
        Sign::Word(Word::Sub) => Some(RmwOp::Sub),
        Sign::Word(Word::And) => Some(RmwOp::And),
        Sign::Word(Word::Nand) => Some(RmwOp::Nand),
        Sign::Word(Word::Or) => Some(RmwOp::Or),
        Sign::Word(Word::Xor) => Some(RmwOp::Xor),
        Sign::Word(Word::Max) => Some(RmwOp::Max),
        Sign::Word(Word::Min) => Some(RmwOp::Min),
        Sign::Word(Word::UMax) => Some(RmwOp::UMax),
        Sign::Word(Word::UMin) => Some(RmwOp::UMin),
        _ => None,
    }
}

/// The operation of an `atomicrmw`.
pub fn rmw_operation(line: &[Symbol]) -> Option<(RmwOp, &[Symbol])>
    ensures { Gives (λ x. (x.0, x.1.now)) result (one_at rmw_of line.now) }
{
    let [first, rest @ ..] = line else {
        return None;
    };
    let operation = rmw_in(first.sign)?;
    Some((operation, rest))
}
