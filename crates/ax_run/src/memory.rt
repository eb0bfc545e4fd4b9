//! Numbers in memory.

ghost use Rattle.std.specs.Prelude.{◌≡◌, ◌<◌, ◌≤◌, ◌+◌, ◌*◌, ◌^◌, Some};
ghost use Rattle.ax_map.specs.Map.{lock_word};
ghost use Rattle.ax_store.specs.Bytes.{IsWidth, number_at};
ghost use Rattle.ax_store.specs.Storage.{flushed, replaced};
ghost use Rattle.ax_store.specs.Store.{Kept, processors, storage_of};

use ax_map::LOCK_TABLE_START;
use ax_store::Store;

/// The number in the n bytes of memory from an address on, whatever waits in buffers.
pub(crate) fn number_in(store: &Store, address: u64, n: u8) -> u128
    requires few { n ≤ 16 }
    requires within { address + n ≤ 2 ^ 64 }
    ensures number { result ≡ number_at (storage_of store.now).mem address n }
    ensures fits { result < 2 ^ (8 * n) }
{
    let mut number: u128 = 0;
    let mut i = n;
    while i > 0 {
        i -= 1;
        number = number * 256 + store.byte(address + i as u64) as u128;
    }
    number
}

/// The word of lock i, of 256.
pub(crate) fn lock_word(store: &Store, i: u32) -> u32
    requires { i < 256 }
    ensures { result ≡ number_at (storage_of store.now).mem (lock_word i) 4 }
{
    number_in(store, LOCK_TABLE_START + 64 * i as u64, 4) as u32
}

/// Writes an initial number of n bytes to memory, on a machine with buffers too.
pub(crate) fn put_number(store: &mut Store, address: u64, n: u8, number: u128)
    requires width { IsWidth n }
    requires some { 1 ≤ processors store.old }
    ensures storage { storage_of store.new ≡ replaced 0 address n (Some number) (flushed 0 (storage_of store.old)) }
    ensures kept { Kept store.old store.new }
{
    let _ = store.locked(0, address, n, |_| Some(number));
}
