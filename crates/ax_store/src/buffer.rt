// The stores of one processor that wait, and room for more.
ghost use Rattle.std.specs.Prelude.{◌≡◌, ◌+◌, ◌<◌, ◌≤◌, ◌&&◌, ℕ, [], IsTrue, IsSome, OnOk, OnErr, length, nat_lt, slice_get, slice_index_or, None};
ghost use Rattle.std.specs.Option.{option_or};
ghost use Rattle.ax_store.specs.Buffers.{pushed, popped, with_room, byte_from, latest};

use crate::entry::Entry;
use crate::memory::byte_of_number;
use std::alloc::{AllocError, Global};
use std::collections::VecDeque;
use std::marker::Model;

/// Entries in order, the oldest first, and room for more.
#[derive(Drop)]
pub struct Buffer {
    entries: VecDeque<Entry>,
    room: u64,
}

impl Model for Buffer {
    ghost use Rattle.std.specs.Prelude.{◌+◌, ◌≤◌};
    ghost use Rattle.std.specs.VecDeque.{deque_len, deque_capacity};
    ghost use Rattle.ax_store.specs.BufferState.{BufferState};

    ghost Value = { BufferState };

    ghost view = { λ b. record { entries = b.entries.items; room = b.room } };

    ghost invariant = { λ b. deque_len b.entries + b.room ≤ deque_capacity b.entries };
}

impl Buffer {
    pub fn new(alloc: Global) -> Buffer
        ensures { result ≡ record { entries = []; room = 0 } }
    {
        Buffer {
            entries: VecDeque::new(alloc),
            room: 0,
        }
    }

    /// Makes room for n entries.
    pub fn reserve(&mut self, n: u64) -> Result<(), AllocError>
        ensures ok { OnOk result (self.new ≡ with_room n self.old) }
        ensures err { OnErr result (self.new ≡ self.old) }
    {
        if self.room < n {
            self.entries.reserve_exact(n as usize)?;
            self.room = n;
        }
        Ok(())
    }

    pub fn room(&self) -> u64
        ensures { result ≡ self.now.room }
    {
        self.room
    }

    pub fn len(&self) -> usize
        ensures { result ≡ length self.now.entries }
    {
        self.entries.len()
    }

    pub fn push(&mut self, e: Entry)
        requires { 0 < self.old.room }
        ensures { self.new ≡ pushed e self.old }
    {
        self.entries.push_back_reserved(e);
        self.room -= 1;
    }

    pub fn pop(&mut self) -> Option<Entry>
        ensures value { result ≡ slice_get self.old.entries 0 }
        ensures after { self.new ≡ popped self.old }
    {
        self.entries.pop_front()
    }

    /// For each of the n bytes from a on, what the newest entry that reaches it has there. One pass, which ends as soon as
    /// each byte is found.
    pub fn latest(&self, a: u64, n: u8) -> [Option<u8>; 16]
        requires { n ≤ 16 }
        ensures { (i : ℕ) → i < n → slice_index_or result i None ≡ latest self.now.entries (a + i) }
    {
        let mut found = [None; 16];
        let mut k = self.entries.len();
        while k > 0 {
            k -= 1;
            let e = self.entries[k];
            if meets(e, a, n) {
                add_bytes(&mut found, e, a, n);
                if is_whole(&found, n) {
                    break;
                }
            }
        }
        found
    }
}

/// Has an entry one of the n bytes from a on?
fn meets(e: Entry, a: u64, n: u8) -> bool
    ensures { result ≡ nat_lt e.address (a + n) && nat_lt a (e.address + e.bytes) }
{
    (e.address as u128) < a as u128 + n as u128 && (a as u128) < e.address as u128 + e.bytes as u128
}

fn byte_from(e: Entry, b: u128) -> Option<u8>
    ensures { result ≡ byte_from e b }
{
    let first = e.address as u128;
    if first <= b && b < first + e.bytes as u128 {
        Some(byte_of_number(e.value, (b - first) as u8))
    } else {
        None
    }
}

/// An older entry gives the bytes that no newer one has given.
fn add_bytes(found: &mut [Option<u8>], e: Entry, a: u64, n: u8)
    requires { n ≤ length found.old }
    ensures { (i : ℕ) → i < n → slice_index_or found.new i None ≡ option_or (slice_index_or found.old i None) (byte_from e (a + i)) }
{
    for i in 0..n {
        found[i as usize] = found[i as usize].or(byte_from(e, a as u128 + i as u128));
    }
}

fn is_whole(found: &[Option<u8>], n: u8) -> bool
    requires { n ≤ length found.now }
    ensures { IsTrue result → (i : ℕ) → i < n → IsSome (slice_index_or found.now i None) }
{
    for i in 0..n {
        if found[i as usize].is_none() {
            return false;
        }
    }
    true
}
