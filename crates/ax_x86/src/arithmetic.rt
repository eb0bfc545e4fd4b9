//! What the instructions compute from the numbers of registers.

ghost use Rattle.std.specs.Prelude.{◌≡◌};
ghost use Rattle.ax_x86.specs.Arithmetic.{alu_result, complement, extension_result, low_byte_set, negative, shift_result};

use crate::instructions::{Alu, Extension, Shift};
use ax_isa::{extended_by_sign, shifted_by_sign};

/// The number that an operation leaves in its second operand.
pub(crate) fn alu_result(op: Alu, to: u64, from: u64) -> u64
    ensures { result ≡ alu_result op to from }
{
    match op {
        Alu::Add => to.wrapping_add(from),
        Alu::Sub => to.wrapping_sub(from),
        Alu::And => to & from,
        Alu::Or => to | from,
        Alu::Xor => to ^ from,
        Alu::Imul => to.wrapping_mul(from),
    }
}

/// The negative of a number, mod 2^64.
pub(crate) fn negative(number: u64) -> u64
    ensures { result ≡ negative number }
{
    0u64.wrapping_sub(number)
}

/// A number with each bit inverted.
pub(crate) fn complement(number: u64) -> u64
    ensures { result ≡ complement number }
{
    !number
}

/// A number shifted by the low 6 bits of a count.
pub(crate) fn shift_result(op: Shift, number: u64, count: u8) -> u64
    ensures { result ≡ shift_result op number count }
{
    let count = (count % 64) as u32;
    match op {
        Shift::Shl => number.wrapping_shl(count),
        Shift::Shr => number.wrapping_shr(count),
        Shift::Sar => shifted_by_sign(number, count),
    }
}

/// The low bytes of a number, extended.
pub(crate) fn extension_result(kind: Extension, number: u64) -> u64
    ensures { result ≡ extension_result kind number }
{
    match kind {
        Extension::ZeroByte => number % 0x100,
        Extension::ZeroWord => number % 0x1_0000,
        Extension::ZeroLong => number % 0x1_0000_0000,
        Extension::SignByte => extended_by_sign(1, number % 0x100),
        Extension::SignWord => extended_by_sign(2, number % 0x1_0000),
        Extension::SignLong => extended_by_sign(4, number % 0x1_0000_0000),
    }
}

/// A number with 1 or 0 for its low byte.
pub(crate) fn low_byte_set(number: u64, flag: bool) -> u64
    ensures { result ≡ low_byte_set number flag }
{
    number - number % 0x100 + if flag { 1 } else { 0 }
}
