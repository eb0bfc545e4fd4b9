//! Constants: those that a type has, and which element a constant index names.

ghost use Rattle.std.specs.Prelude.{◌≡◌, ◌^◌, ◌<◌, ◌≤◌, ◌*◌, ◌-◌, IsTrue, IfSome, if◌then◌else◌, nat_lt, pos, negsuc};
ghost use Rattle.ax_module.specs.Ranges.{is_in_range};
ghost use Rattle.ax_source_run.specs.SourceValues.{index_of, type_bits, wrapped};
ghost use Rattle.ax_rules.specs.Constants.{constant_index, constant_of, fits_bits, fits_type, is_index_type, is_multiple};

use crate::types::{bits, is_index_type, is_integer};
use ax_module::{Operand, Ty};

/// Whether a constant is one of a type of so many bits, at most 127.
fn fits_few_bits(bits: u64, v: Operand) -> bool
    requires { bits ≤ 127 }
    ensures { result ≡ fits_bits bits v }
{
    match v {
        Operand::Const(n) => match u128::try_from(n) {
            Ok(n) => n < 1 << bits,
            Err(_) => ((-1 - n) as u128) < 1 << bits.saturating_sub(1),
        },
        Operand::Wide(n) => n < 1 << bits,
        Operand::Value(_) | Operand::Param(_) => true,
    }
}

/// Whether a constant is one of a type of so many bits; all are that a text can state from 128 bits
/// on.
#[tactic(auto, using(crate::proofs::Ranges::all_fit))]
fn fits_bits(bits: u64, v: Operand) -> bool
    requires { IsTrue (is_in_range v) }
    ensures { result ≡ fits_bits bits v }
{
    bits > 127 || fits_few_bits(bits, v)
}

/// Whether a constant is one of the type; other operands are.
pub fn fits_type(t: Ty, v: Operand) -> bool
    requires { IsTrue (is_in_range v) }
    ensures { result ≡ fits_type t v }
{
    !is_integer(t) || fits_bits(bits(t), v)
}

fn wrapped(bits: u64, n: i128) -> u128
    requires { bits < 65 }
    ensures value { result ≡ wrapped bits n }
    ensures below { result < 2 ^ bits }
{
    let modulus = 1u128 << bits;
    match u128::try_from(n) {
        Ok(n) => n % modulus,
        Err(_) => modulus - 1 - (-1 - n) as u128 % modulus,
    }
}

/// The number of so many bits that a constant stands for. None exactly where the operand is none.
pub fn constant_of(bits: u64, v: Operand) -> Option<u128>
    requires { bits < 65 }
    ensures value { result ≡ constant_of bits v }
    ensures below { IfSome result (λ n. n < 2 ^ bits) }
{
    match v {
        Operand::Const(n) => Some(wrapped(bits, n)),
        Operand::Wide(n) => Some(n % (1 << bits)),
        Operand::Value(_) | Operand::Param(_) => None,
    }
}

/// A number of a type whose half is this, as 64 bits, its sign extended.
fn extended(n: u128, half: u128) -> u64
    requires below { n < 2 * half }
    requires few { half ≤ 2 ^ 63 }
    ensures { result ≡ wrapped 64 (if nat_lt n half then pos n else negsuc (2 * half - 1 - n)) }
{
    if n < half {
        n as u64
    } else {
        ((1 << 64) - 1 - (2 * half - 1 - n)) as u64
    }
}

/// A number of an index's type, as it counts.
fn index_of(t: Ty, n: u128) -> u64
    requires index { IsTrue (is_index_type t) }
    requires below { n < 2 ^ type_bits t }
    ensures { result ≡ index_of t n }
{
    match t {
        Ty::I1 => extended(n, 1),
        Ty::I8 => extended(n, 0x80),
        Ty::I16 => extended(n, 0x8000),
        Ty::I32 => extended(n, 0x8000_0000),
        _ => extended(n, 0x8000_0000_0000_0000),
    }
}

/// A constant index as it counts: extended by sign to 64 bits, and taken as unsigned.
pub fn constant_index(t: Ty, v: Operand) -> Option<u64>
    ensures { result ≡ constant_index t v }
{
    if is_index_type(t) {
        let n = constant_of(bits(t), v)?;
        Some(index_of(t, n))
    } else {
        None
    }
}

/// Whether a number is a multiple of another; 0 alone is one of 0.
pub fn is_multiple(a: u128, n: u64) -> bool
    ensures { result ≡ is_multiple a n }
{
    if n == 0 { a == 0 } else { a % n as u128 == 0 }
}
