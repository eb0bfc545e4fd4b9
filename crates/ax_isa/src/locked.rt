//! Locked changes of a number in memory.

ghost use Rattle.std.specs.Prelude.{◌≡◌, ◌<◌, ◌≤◌, ◌+◌, ◌*◌, ◌%◌, ◌^◌, ◌⊎◌, ℕ, true};
ghost use Rattle.ax_ops.specs.Operation.{result_of};
ghost use Rattle.ax_store.specs.Bytes.{IsWidth, number_at};
ghost use Rattle.ax_store.specs.Storage.{flushed, replaced};
ghost use Rattle.ax_store.specs.Store.{Kept, processors, spare_of, storage_of};
ghost use Rattle.ax_isa.specs.Effects.{FitsChange, FitsRegister, IsRegister};
ghost use Rattle.ax_isa.specs.Processor.{processor_of};
ghost use Rattle.ax_isa.specs.Steps.{changed, exchanged, is_changed, is_place, pair_of};

use crate::cpu::Cpu;
use crate::effects::Change;
use crate::registers::{Destination, go_on, take};
use ax_ops::{Bits, apply};
use ax_store::Store;
use ax_words::RmwOp;

/// The low bytes of a number.
pub(crate) fn cut(bytes: u8, number: u128) -> u128
    requires { (bytes ≡ 0) ⊎ IsWidth bytes }
    ensures { result ≡ number % 2 ^ (8 * bytes) }
{
    match bytes {
        0 => 0,
        1 => number % 0x100,
        2 => number % 0x1_0000,
        4 => number % 0x1_0000_0000,
        8 => number % 0x1_0000_0000_0000_0000,
        _ => number,
    }
}

/// What an operation on N bytes leaves.
fn result_by<const N: usize>(op: RmwOp, old: u128, number: u128) -> u128
    requires width { IsWidth N }
    requires old { old < 2 ^ (8 * N) }
    requires number { number < 2 ^ (8 * N) }
    ensures { result ≡ result_of (8 * N) op old number }
{
    match (Bits::<N>::new(old), Bits::<N>::new(number)) {
        (Some(old), Some(number)) => apply(op, old, number).value(),
        _ => unreachable!(),
    }
}

/// What an operation on so many bytes leaves.
fn result_of(bytes: u8, op: RmwOp, old: u128, number: u128) -> u128
    requires width { FitsRegister bytes }
    requires old { old < 2 ^ (8 * bytes) }
    requires number { number < 2 ^ (8 * bytes) }
    ensures { result ≡ result_of (8 * bytes) op old number }
{
    match bytes {
        1 => result_by::<1>(op, old, number),
        2 => result_by::<2>(op, old, number),
        4 => result_by::<4>(op, old, number),
        8 => result_by::<8>(op, old, number),
        _ => unreachable!(),
    }
}

/// What a locked change leaves where it finds a number, if it writes.
fn changed(bytes: u8, change: Change, old: u128) -> Option<u128>
    requires fits { FitsChange bytes change }
    requires old { old < 2 ^ (8 * bytes) }
    ensures { result ≡ changed bytes change old }
{
    match change {
        Change::Update { op, number } => Some(result_of(
            bytes,
            op,
            old,
            cut(bytes, number as u128),
        )),
        Change::Exchange {
            expected,
            number,
            ..
        } => {
            if old == cut(bytes, expected) {
                Some(number)
            } else {
                None
            }
        }
    }
}

/// A locked change of the storage: the old number, and whether it wrote.
pub(crate) fn change(s: &mut Store, p: u8, address: u64, bytes: u8, change: Change) -> (u128, bool)
    requires in_range { p < processors s.old }
    requires width { IsWidth bytes }
    requires fits { FitsChange bytes change }
    ensures old { result.0 ≡ number_at (flushed p (storage_of s.old)).mem address bytes }
    ensures low { result.0 < 2 ^ (8 * bytes) }
    ensures wrote { result.1 ≡ is_changed (changed bytes change (number_at (flushed p (storage_of s.old)).mem address bytes)) }
    ensures storage { storage_of s.new ≡ replaced p address bytes (changed bytes change (number_at (flushed p (storage_of s.old)).mem address bytes)) (flushed p (storage_of s.old)) }
    ensures spares { spare_of s.new ≡ spare_of s.old }
    ensures kept { Kept s.old s.new }
{
    let old = s.locked(p, address, bytes, |old| changed(bytes, change, old));
    (old, changed(bytes, change, old).is_some())
}

/// The pair last compared after an exchange.
fn pair_of(bytes: u8, expected: u128, old: u128) -> (u64, u64)
    requires width { IsWidth bytes }
    requires expected { expected < 2 ^ (8 * bytes) }
    requires old { old < 2 ^ (8 * bytes) }
    ensures { result ≡ pair_of bytes expected old }
{
    if bytes != 16 {
        return (expected as u64, old as u64);
    }
    (0, if old == expected { 0 } else { 1 })
}

/// What a locked change leaves of the processor.
pub(crate) fn exchange(c: &mut Cpu, d: Destination, change: Change, old: u128)
    requires to { IsRegister d.to }
    requires high { IsRegister d.high }
    requires width { IsWidth d.bytes }
    requires old { old < 2 ^ (8 * d.bytes) }
    requires place { is_place (c.old.place + 1) ≡ true }
    ensures { processor_of c.new ≡ exchanged d.bytes d.to d.high d.rest change old (processor_of c.old) }
{
    match change {
        Change::Exchange {
            expected,
            compares: true,
            ..
        } => {
            let expected = cut(d.bytes, expected);
            if old != expected {
                take(c, d, old);
            }
            c.compared = pair_of(d.bytes, expected, old);
        }
        _ => take(c, d, old),
    }
    go_on(c);
}
