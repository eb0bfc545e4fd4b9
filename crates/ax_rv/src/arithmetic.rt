//! What instructions on registers compute.

ghost use Rattle.std.specs.Prelude.{◌≡◌, ◌<◌};
ghost use Rattle.ax_rv.specs.Arithmetic.{binary_of, holds, immediate_of, shifted, signed_less, unary_of};

use crate::instructions::{Binary, Condition, Immediate, Shift, Unary};
use ax_isa::{displaced, extended_by_sign, shifted_by_sign, signed};

fn signed_less(a: u64, b: u64) -> bool
    ensures { result ≡ signed_less a b }
{
    signed(a) < signed(b)
}

pub(crate) fn unary_of(op: Unary, a: u64) -> u64
    ensures { result ≡ unary_of op a }
{
    match op {
        Unary::Move => a,
        Unary::Negate => 0u64.wrapping_sub(a),
        Unary::Not => !a,
        Unary::SignExtendWord => extended_by_sign(4, a % 0x1_0000_0000),
        Unary::IsZero => (a == 0) as u64,
        Unary::IsNotZero => (a != 0) as u64,
    }
}

pub(crate) fn binary_of(op: Binary, a: u64, b: u64) -> u64
    ensures { result ≡ binary_of op a b }
{
    match op {
        Binary::Add => a.wrapping_add(b),
        Binary::Subtract => a.wrapping_sub(b),
        Binary::And => a & b,
        Binary::Or => a | b,
        Binary::Xor => a ^ b,
        Binary::Multiply => a.wrapping_mul(b),
        Binary::ShiftLeft => a << (b % 64),
        Binary::ShiftRight => a >> (b % 64),
        Binary::ShiftRightSigned => shifted_by_sign(a, (b % 64) as u32),
        Binary::IsLess => signed_less(a, b) as u64,
        Binary::IsBelow => (a < b) as u64,
    }
}

pub(crate) fn shifted(op: Shift, a: u64, k: u8) -> u64
    requires { k < 64 }
    ensures { result ≡ shifted op a k }
{
    match op {
        Shift::Left => a << k,
        Shift::Right => a >> k,
        Shift::RightSigned => shifted_by_sign(a, k as u32),
    }
}

pub(crate) fn immediate_of(op: Immediate, a: u64, n: i16) -> u64
    ensures { result ≡ immediate_of op a n }
{
    match op {
        Immediate::And => a & displaced(0, n as i64),
        Immediate::Add => displaced(a, n as i64),
    }
}

pub(crate) fn holds(condition: Condition, a: u64, b: u64) -> bool
    ensures { result ≡ holds condition a b }
{
    match condition {
        Condition::Equal => a == b,
        Condition::NotEqual => a != b,
        Condition::Less => signed_less(a, b),
        Condition::GreaterEqual => !signed_less(a, b),
        Condition::Below => a < b,
        Condition::AboveEqual => b <= a,
    }
}
