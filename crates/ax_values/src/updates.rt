//! What a read-modify-write leaves.

ghost use Rattle.std.specs.Prelude.{◌≡◌, ◌≤◌, ◌+◌, ◌-◌, ◌%◌, ◌^◌};
ghost use Rattle.ax_ops.specs.Operation.{result_of};

use crate::words::{greatest, is_less, low};
use ax_words::RmwOp;

/// A sum mod 2^bits.
#[tactic(auto, using(crate::proofs::Cuts::sums))]
pub(crate) fn sum(bits: u32, a: u128, b: u128) -> u128
    requires { bits ≤ 128 }
    ensures { result ≡ (a + b) % 2 ^ bits }
{
    low(bits, a.wrapping_add(b))
}

/// A difference mod 2^bits. What is taken away counts up to 2^bits.
#[tactic(auto, using(crate::proofs::Cuts::sums))]
pub(crate) fn difference(bits: u32, a: u128, b: u128) -> u128
    requires { bits ≤ 128 }
    ensures { result ≡ (a + (2 ^ bits - b)) % 2 ^ bits }
{
    if b <= greatest(bits) {
        low(bits, a.wrapping_sub(b))
    } else {
        low(bits, a)
    }
}

/// What the operation leaves where it found `old`, with the operand `v`. Sums wrap, and `Max` and
/// `Min` compare two's complement numbers.
pub fn update(bits: u32, op: RmwOp, old: u128, v: u128) -> u128
    requires { bits ≤ 128 }
    ensures { result ≡ result_of bits op old v }
{
    match op {
        RmwOp::Xchg => v,
        RmwOp::Add => sum(bits, old, v),
        RmwOp::Sub => difference(bits, old, v),
        RmwOp::And => old & v,
        RmwOp::Nand => greatest(bits).saturating_sub(old & v),
        RmwOp::Or => old | v,
        RmwOp::Xor => old ^ v,
        RmwOp::Max => if is_less(bits, old, v) { v } else { old },
        RmwOp::Min => if is_less(bits, v, old) { v } else { old },
        RmwOp::UMax => old.max(v),
        RmwOp::UMin => old.min(v),
    }
}
