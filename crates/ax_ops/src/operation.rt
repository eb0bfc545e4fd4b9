//! What the read-modify-write operations of LLVM's `atomicrmw` leave.

ghost use Rattle.std.specs.Prelude.{◌≡◌, ◌<◌, ◌*◌, ◌^◌, ◌%◌};
ghost use Rattle.ax_words.specs.Width.{IsWidth};
ghost use Rattle.ax_ops.specs.Operation.{result_of, signed};

use crate::bits::{Bits, greatest};
use ax_words::RmwOp;

/// What the operation leaves where it found `old`, with the operand `v`. Sums wrap, and `Max` and
/// `Min` compare two's complement numbers (LLVM Language Reference, `atomicrmw`).
pub fn apply<const N: usize>(op: RmwOp, old: Bits<N>, v: Bits<N>) -> Bits<N>
    ensures value { result ≡ result_of (8 * N) op old.entry v.entry }
{
    Bits::of_number(apply_to::<N>(op, old.value(), v.value()))
}

#[tactic(auto, using(crate::proofs::Words::applied))]
fn apply_to<const N: usize>(op: RmwOp, old: u128, v: u128) -> u128
    requires width { IsWidth N }
    requires old { old < 2 ^ (8 * N) }
    requires v { v < 2 ^ (8 * N) }
    ensures value { result ≡ result_of (8 * N) op old v }
    ensures fits { result < 2 ^ (8 * N) }
{
    match op {
        RmwOp::Xchg => v,
        RmwOp::Add => low::<N>(old.wrapping_add(v)),
        RmwOp::Sub => low::<N>(old.wrapping_sub(v)),
        RmwOp::And => old & v,
        RmwOp::Nand => greatest::<N>() - (old & v),
        RmwOp::Or => old | v,
        RmwOp::Xor => old ^ v,
        RmwOp::Max => {
            if signed_number::<N>(old) < signed_number::<N>(v) {
                v
            } else {
                old
            }
        }
        RmwOp::Min => {
            if signed_number::<N>(v) < signed_number::<N>(old) {
                v
            } else {
                old
            }
        }
        RmwOp::UMax => old.max(v),
        RmwOp::UMin => old.min(v),
    }
}

/// The low bytes of a number.
#[tactic(auto, using(crate::proofs::Words::cut))]
fn low<const N: usize>(number: u128) -> u128
    requires { IsWidth N }
    ensures { result ≡ number % 2 ^ (8 * N) }
{
    number & greatest::<N>()
}

/// The two's complement number of N bytes.
pub(crate) fn signed_number<const N: usize>(number: u128) -> i128
    requires width { IsWidth N }
    requires fits { number < 2 ^ (8 * N) }
    ensures { result ≡ signed (8 * N) number }
{
    let greatest = greatest::<N>();
    if number <= greatest / 2 {
        number as i128
    } else {
        -1 - (greatest - number) as i128
    }
}
