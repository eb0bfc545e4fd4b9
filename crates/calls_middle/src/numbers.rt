//! What middle instructions compute from numbers of 64 bits.

use ax_mid::{MidOp, MidShift};

/// What an operation gives; a comparison gives 1 or 0.
pub(crate) fn applied(op: MidOp, a: u64, b: u64) -> u64 {
    match op {
        MidOp::Add => a.wrapping_add(b),
        MidOp::Sub => a.wrapping_sub(b),
        MidOp::Mul => a.wrapping_mul(b),
        MidOp::And => a & b,
        MidOp::Or => a | b,
        MidOp::Xor => a ^ b,
        MidOp::Eq => u64::from(a == b),
        MidOp::Ne => u64::from(a != b),
        MidOp::Ult => u64::from(a < b),
        MidOp::Ule => u64::from(a <= b),
        MidOp::Slt => u64::from(a.cast_signed() < b.cast_signed()),
        MidOp::Sle => u64::from(a.cast_signed() <= b.cast_signed()),
    }
}

/// A number shifted by so many bits.
pub(crate) fn shifted(op: MidShift, a: u64, by: u8) -> u64 {
    let by = u32::from(by);
    match op {
        MidShift::Shl => a.checked_shl(by).unwrap_or(0),
        MidShift::Lshr => a.checked_shr(by).unwrap_or(0),
        MidShift::Ashr => a.cast_signed().wrapping_shr(by.min(63)).cast_unsigned(),
    }
}

/// The low bits of a number, extended by zeros or by their sign.
pub(crate) fn extended(a: u64, bits: u8, is_signed: bool) -> u64 {
    let spare = 64u8.saturating_sub(bits);
    let high = shifted(MidShift::Shl, a, spare);
    if is_signed {
        shifted(MidShift::Ashr, high, spare)
    } else {
        shifted(MidShift::Lshr, high, spare)
    }
}

/// The first where a test is not 0, else the second.
pub(crate) fn selected<T: Copy + Drop>(test: u64, a: T, b: T) -> T {
    if test == 0 { b } else { a }
}
