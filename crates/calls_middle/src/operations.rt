//! What operations do to the numbers that they find, and what registers take and get.

use crate::halt::Halt;
use ax_ops::{Bits, apply};
use ax_words::{Op, RmwOp, Width};
use std::alloc::Global;

/// What an operation does to the number that it finds.
#[derive(Clone, Copy)]
pub(crate) enum Operation {
    Reads,
    Writes(u128),
    Updates(RmwOp, u128),
    /// The number that it expects, and the one that it stores there.
    Compares(u128, u128),
}

/// The low bytes of a number, of which there are 1, 2, 4 or 8.
pub(crate) fn low_bytes(number: u64, bytes: u64) -> u64 {
    match bytes {
        1 => number & 0xff,
        2 => number & 0xffff,
        4 => number & 0xffff_ffff,
        _ => number,
    }
}

fn joined(low: u64, high: u64) -> u128 {
    u128::from(low) | u128::from(high) << 64
}

/// Number `k` of what an operation takes, in one register or in two.
pub(crate) fn argument(width: Width, taken: &[u64], k: usize) -> u128 {
    match width {
        Width::W128 => {
            let k = k.wrapping_mul(2);
            let low = taken.get(k).copied().unwrap_or(0);
            let high = taken.get(k.wrapping_add(1)).copied().unwrap_or(0);
            joined(low, high)
        }
        _ => {
            let number = taken.get(k).copied().unwrap_or(0);
            u128::from(low_bytes(number, width.bytes() as u64))
        }
    }
}

pub(crate) fn operation_of(op: Op, width: Width, taken: &[u64]) -> Operation {
    let first = argument(width, taken, 0);
    match op {
        Op::Load | Op::Fence => Operation::Reads,
        Op::Store => Operation::Writes(first),
        Op::Cmpxchg => Operation::Compares(first, argument(width, taken, 1)),
        Op::Rmw(op) => Operation::Updates(op, first),
    }
}

/// The registers' numbers of a number and, behind a compare-exchange, of whether it was the one that
/// was expected.
pub(crate) fn results_of(
    alloc: Global,
    op: Op,
    width: Width,
    found: u128,
    is_expected: bool,
) -> Result<Vec<u64>, Halt> {
    let mut results = Vec::new(alloc);
    if matches!(op, Op::Store | Op::Fence) {
        return Ok(results);
    }
    let low = u64::try_from(found & 0xffff_ffff_ffff_ffff).map_err(|_| Halt::Stuck)?;
    results.push(low)?;
    if matches!(width, Width::W128) {
        let high = u64::try_from(found >> 64).map_err(|_| Halt::Stuck)?;
        results.push(high)?;
    }
    if matches!(op, Op::Cmpxchg) {
        results.push(u64::from(is_expected))?;
    }
    Ok(results)
}

fn updated_in<const N: usize>(op: RmwOp, old: Option<Bits<N>>, v: Option<Bits<N>>) -> Option<u128> {
    Some(apply(op, old?, v?).value())
}

/// What a read-modify-write leaves where it found `old`.
fn updated(op: RmwOp, bytes: u64, old: u128, v: u128) -> Option<u128> {
    match bytes {
        1 => updated_in(op, Bits::<1>::new(old), Bits::<1>::new(v)),
        2 => updated_in(op, Bits::<2>::new(old), Bits::<2>::new(v)),
        4 => updated_in(op, Bits::<4>::new(old), Bits::<4>::new(v)),
        8 => updated_in(op, Bits::<8>::new(old), Bits::<8>::new(v)),
        16 => updated_in(op, Bits::<16>::new(old), Bits::<16>::new(v)),
        _ => None,
    }
}

impl Operation {
    /// Whether the number found is the one that is expected, if one is.
    pub(crate) fn expects(self, found: u128) -> bool {
        match self {
            Operation::Compares(expected, _) => found == expected,
            _ => true,
        }
    }

    /// What it stores, in so many bytes, where it found a number.
    pub(crate) fn stored(self, bytes: u64, found: u128) -> Result<Option<u128>, Halt> {
        match self {
            Operation::Reads => Ok(None),
            Operation::Writes(number) => Ok(Some(number)),
            Operation::Updates(op, v) => match updated(op, bytes, found, v) {
                Some(number) => Ok(Some(number)),
                None => Err(Halt::Stuck),
            },
            Operation::Compares(expected, desired) if found == expected => Ok(Some(desired)),
            Operation::Compares(..) => Ok(None),
        }
    }
}
