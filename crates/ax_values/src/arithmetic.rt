//! Binary operations, comparisons, conversions and indexes (LLVM Language Reference, Binary
//! Operations, Conversion Operations, `icmp`, `getelementptr`).

ghost use Rattle.std.specs.Prelude.{◌≡◌, ◌≤◌, ◌*◌, ◌/◌, ◌%◌, ◌^◌};
ghost use Rattle.ax_source_run.specs.SourceValues.{computed, converted, holds, index_of, shifted_down, type_bits};

use crate::updates::{difference, sum};
use crate::words::{bits, extended, greatest, half, is_less, low};
use ax_module::{BinOp, Cast, Pred, Ty};

/// A shift to the left mod 2^bits.
#[tactic(auto, using(crate::proofs::Cuts::shifts))]
fn shifted_up(bits: u32, a: u128, n: u128) -> u128
    requires { bits ≤ 128 }
    ensures { result ≡ a * 2 ^ n % 2 ^ bits }
{
    if n < 128 { low(bits, a << n) } else { 0 }
}

/// A shift to the right.
#[tactic(auto, using(crate::proofs::Cuts::shifts))]
fn shifted(a: u128, n: u128) -> u128
    ensures { result ≡ a / 2 ^ n }
{
    if n < 128 { a >> n } else { 0 }
}

/// A shift to the right that fills with the sign.
#[tactic(auto, using(crate::proofs::Cuts::shifts))]
fn shifted_down(bits: u32, a: u128, n: u128) -> u128
    requires { bits ≤ 128 }
    ensures { result ≡ shifted_down bits a n }
{
    if a < half(bits) {
        shifted(a, n)
    } else {
        let most = greatest(bits);
        most - shifted(most.saturating_sub(a), n)
    }
}

/// The result of a binary operation on numbers of so many bits.
#[tactic(auto, using(crate::proofs::Cuts::sums))]
pub fn compute(op: BinOp, bits: u32, a: u128, b: u128) -> u128
    requires { bits ≤ 128 }
    ensures { result ≡ computed op bits a b }
{
    match op {
        BinOp::Add => sum(bits, a, b),
        BinOp::Sub => difference(bits, a, b),
        BinOp::Mul => low(bits, a.wrapping_mul(b)),
        BinOp::And => a & b,
        BinOp::Or => a | b,
        BinOp::Xor => a ^ b,
        BinOp::Shl => shifted_up(bits, a, b),
        BinOp::Lshr => shifted(a, b),
        BinOp::Ashr => shifted_down(bits, a, b),
    }
}

/// Whether a condition holds between numbers of so many bits.
pub fn compare(condition: Pred, bits: u32, a: u128, b: u128) -> bool
    requires { bits ≤ 128 }
    ensures { result ≡ holds condition bits a b }
{
    match condition {
        Pred::Eq => a == b,
        Pred::Ne => a != b,
        Pred::Ugt => b < a,
        Pred::Uge => b <= a,
        Pred::Ult => a < b,
        Pred::Ule => a <= b,
        Pred::Sgt => is_less(bits, b, a),
        Pred::Sge => !is_less(bits, a, b),
        Pred::Slt => is_less(bits, a, b),
        Pred::Sle => !is_less(bits, b, a),
    }
}

/// A number of `from` bits as one of `to` bits.
pub fn convert(cast: Cast, from: u32, to: u32, n: u128) -> u128
    requires from { from ≤ 128 }
    requires to { to ≤ 128 }
    ensures { result ≡ converted cast from to n }
{
    match cast {
        Cast::Zext => n,
        Cast::Sext => extended(from, to, n),
        Cast::Trunc => low(to, n),
    }
}

/// An index as it counts: extended by sign to 64 bits, and taken as unsigned.
pub fn index(ty: Ty, n: u128) -> u128
    requires { type_bits ty ≤ 128 }
    ensures { result ≡ index_of ty n }
{
    extended(bits(ty), 64, n)
}
