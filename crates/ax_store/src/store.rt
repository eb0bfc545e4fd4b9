// The storage of the machines.
ghost use Rattle.std.specs.Prelude.{drop, is_some, ◌≡◌, ◌*◌, ◌+◌, ◌^◌, ◌<◌, ◌≤◌, ℕ, true, false, OnOk, OnErr, IfOk, Option, None, All, length, replicate, slice_index_or};
ghost use Rattle.ax_store.specs.Buffers.{latest, none};
ghost use Rattle.ax_store.specs.Bytes.{IsWidth, all_inside, cut, number_at};
ghost use Rattle.ax_map.specs.Map.{IsFrameSize, IsGlobalsEnd, IsProcessorCount};
ghost use Rattle.ax_store.specs.Storage.{byte_put, drained, dropped, entered, flushed, linked_at, load, may_pair, oldest, pair_stored, replaced, started, stored, with_linked, with_waiting, wrote};
ghost use Rattle.ax_store.specs.Store.{HasRoom, byte_over, Kept, processors, reserved, spare_of, spared, storage_of};

use crate::buffer::Buffer;
use crate::entry::{Entry, Reservation};
use crate::links::{Links, fits};
use crate::memory::Memory;
use std::alloc::{AllocError, Global};
use std::marker::Model;

/// Memory, and for each processor the stores that wait in its buffer and a reservation. Contracts see it as the
/// definition *Storage*, and beside that the room in each buffer. A size n is 1, 2, 4, 8 or 16 bytes, and numbers are
/// little-endian.
#[derive(Drop)]
pub struct Store {
    memory: Memory,
    buffers: Vec<Buffer>,
    links: Links,
    buffered: bool,
}

impl Model for Store {
    ghost use Rattle.std.specs.Prelude.{◌≡◌, ℕ, [], false, length};
    ghost use Rattle.ax_store.specs.StoreState.{StoreState};
    ghost use Rattle.ax_store.specs.Buffers.{buffer_of};

    ghost Value = { StoreState };

    ghost view = { λ s. record { memory = s.memory; buffers = s.buffers.items; links = s.links; buffered = s.buffered } };

    ghost invariant = { λ s. (length s.links ≡ length s.buffers.items) × (s.buffered ≡ false → (p : ℕ) → length (buffer_of s.buffers.items p).entries ≡ 0) };
}

fn empty_buffers(alloc: Global, n: usize) -> Result<Vec<Buffer>, AllocError>
    ensures { IfOk result (λ v. v.items ≡ replicate n none) }
{
    let mut buffers: Vec<Buffer> = Vec::new(alloc);
    for _i in 0..n {
        buffers.push(Buffer::new(alloc))?;
    }
    Ok(buffers)
}

impl Store {
    /// A storage whose bytes are all 0, without stores that wait and without reservations. The region of the globals ends
    /// at the address `globals`; there is one frame size, in bytes, for each processor. A machine is `buffered` where its
    /// stores wait in buffers.
    #[tactic(auto, unfolding(crate::specs::Store::storage_of, crate::specs::Store::spare_of, crate::specs::Store::processors))]
    pub fn new(
        alloc: Global,
        globals: u64,
        frames: &[u64],
        buffered: bool,
    ) -> Result<Store, AllocError>
        requires end { IsGlobalsEnd globals }
        requires sizes { All IsFrameSize frames.now }
        requires count { IsProcessorCount (length frames.now) }
        ensures storage { IfOk result (λ s. storage_of s ≡ started globals frames.now) }
        ensures spares { IfOk result (λ s. spare_of s ≡ (λ p. 0)) }
        ensures kind { IfOk result (λ s. s.buffered ≡ buffered) }
        ensures processors { IfOk result (λ s. processors s ≡ length frames.now) }
    {
        let memory = Memory::new(alloc, globals, frames)?;
        let buffers = empty_buffers(alloc, frames.len())?;
        let links = Links::new(alloc, frames.len())?;
        Ok(Store {
            memory,
            buffers,
            links,
            buffered,
        })
    }

    /// The byte of memory at an address, 0 outside the regions.
    #[tactic(auto, unfolding(crate::specs::Store::storage_of))]
    pub fn byte(&self, a: u64) -> u8
        ensures { result ≡ (storage_of self.now).mem a }
    {
        self.memory.byte(a as u128)
    }

    /// Writes an initial byte. An address outside the regions takes no write.
    #[tactic(auto, unfolding(crate::specs::Store::storage_of, crate::specs::Store::spare_of, crate::specs::Store::processors))]
    pub fn set(&mut self, a: u64, b: u8)
        ensures storage { storage_of self.new ≡ byte_put a b (storage_of self.old) }
        ensures spares { spare_of self.new ≡ spare_of self.old }
        ensures kept { Kept self.old self.new }
    {
        self.memory.set(a as u128, b);
    }

    /// Do all n bytes from a on lie in the regions?
    #[tactic(auto, unfolding(crate::specs::Store::storage_of))]
    pub fn inside(&self, a: u64, n: u8) -> bool
        requires { IsWidth n }
        ensures { result ≡ all_inside (storage_of self.now).inside a n }
    {
        self.memory.all_inside(a, n)
    }

    /// Makes room for at least n stores of p. On an error nothing has changed.
    #[tactic(auto, unfolding(crate::specs::Store::storage_of, crate::specs::Store::spare_of, crate::specs::Store::processors))]
    pub fn reserve(&mut self, p: u8, n: u64) -> Result<(), AllocError>
        requires { p < processors self.old }
        ensures storage { storage_of self.new ≡ storage_of self.old }
        ensures spares { OnOk result (spare_of self.new ≡ reserved p n (spare_of self.old)) }
        ensures err { OnErr result (self.new ≡ self.old) }
        ensures kept { Kept self.old self.new }
    {
        let b = &mut self.buffers[p as usize];
        b.reserve(n)
    }

    /// For how many more stores of p there is room.
    #[tactic(auto, unfolding(crate::specs::Store::spare_of, crate::specs::Store::processors))]
    pub fn spare(&self, p: u8) -> u64
        requires { p < processors self.now }
        ensures { result ≡ spare_of self.now p }
    {
        self.buffers[p as usize].room()
    }

    /// How many stores of p wait.
    #[tactic(auto, unfolding(crate::specs::Store::storage_of, crate::specs::Store::processors))]
    pub fn pending(&self, p: u8) -> usize
        requires { p < processors self.now }
        ensures { result ≡ length ((storage_of self.now).waiting p) }
    {
        self.buffers[p as usize].len()
    }

    /// Has p a reservation?
    #[tactic(auto, unfolding(crate::specs::Store::storage_of, crate::specs::Store::processors))]
    pub fn linked(&self, p: u8) -> bool
        requires { p < processors self.now }
        ensures { result ≡ is_some ((storage_of self.now).linked p) }
    {
        self.links.get(p as usize).is_some()
    }
}

impl Store {
    #[tactic(auto, unfolding(crate::specs::Store::storage_of, crate::specs::Store::processors))]
    fn latest(&self, p: u8, a: u64, n: u8) -> [Option<u8>; 16]
        requires within { p < processors self.now }
        requires width { n ≤ 16 }
        ensures found { (i : ℕ) → i < n → slice_index_or result i None ≡ latest ((storage_of self.now).waiting p) (a + i) }
        ensures unbuffered { self.now.buffered ≡ false → length ((storage_of self.now).waiting p) ≡ 0 }
    {
        self.buffers[p as usize].latest(a, n)
    }

    /// The byte at b, where `own` is what the buffer has for it.
    #[tactic(auto, unfolding(crate::specs::Store::storage_of))]
    fn byte_seen(&self, own: Option<u8>, b: u128) -> u8
        requires { b < 2 ^ 65 }
        ensures { result ≡ byte_over (storage_of self.now) own b }
    {
        match own {
            Some(byte) if self.memory.inside(b) => byte,
            _ => self.memory.byte(b),
        }
    }

    /// The number in the n bytes from a on as p sees them: byte by byte p's newest store that waits, else memory.
    pub fn load(&self, p: u8, a: u64, n: u8) -> u128
        requires within { p < processors self.now }
        requires width { IsWidth n }
        ensures number { result ≡ load p a n (storage_of self.now) }
        ensures unbuffered { self.now.buffered ≡ false → result ≡ number_at (storage_of self.now).mem a n }
        ensures fits { result < 2 ^ (8 * n) }
    {
        if self.pending(p) == 0 {
            return self.read(a, n);
        }
        self.load_each(p, a, n)
    }

    fn load_each(&self, p: u8, a: u64, n: u8) -> u128
        requires within { p < processors self.now }
        requires width { IsWidth n }
        ensures number { result ≡ load p a n (storage_of self.now) }
        ensures unbuffered { self.now.buffered ≡ false → result ≡ number_at (storage_of self.now).mem a n }
        ensures fits { result < 2 ^ (8 * n) }
    {
        let own = self.latest(p, a, n);
        let mut value: u128 = 0;
        let mut i = n;
        while i > 0 {
            i -= 1;
            value = value * 256 + self.byte_seen(own[i as usize], a as u128 + i as u128) as u128;
        }
        value
    }

    /// The number in memory.
    #[tactic(auto, unfolding(crate::specs::Store::storage_of))]
    fn read(&self, a: u64, n: u8) -> u128
        requires { IsWidth n }
        ensures number { result ≡ number_at (storage_of self.now).mem a n }
        ensures fits { result < 2 ^ (8 * n) }
    {
        self.memory.read(a, n)
    }

    /// A write by p reaches memory.
    #[tactic(auto, unfolding(crate::specs::Store::storage_of, crate::specs::Store::spare_of, crate::specs::Store::processors))]
    fn write_entry(&mut self, p: u8, e: Entry)
        ensures storage { storage_of self.new ≡ wrote p e (storage_of self.old) }
        ensures spares { spare_of self.new ≡ spare_of self.old }
        ensures kept { Kept self.old self.new }
    {
        self.memory.write(e.address, e.bytes, e.value);
        self.links.end_others(p as usize, e.address, e.bytes);
    }

    #[tactic(auto, unfolding(crate::specs::Store::storage_of, crate::specs::Store::spare_of, crate::specs::Store::processors))]
    fn enter(&mut self, p: u8, e: Entry)
        requires within { p < processors self.old }
        requires kind { self.old.buffered ≡ true }
        requires room { 0 < spare_of self.old p }
        ensures storage { storage_of self.new ≡ entered p e (storage_of self.old) }
        ensures spares { spare_of self.new ≡ spared true p (spare_of self.old) }
        ensures kept { Kept self.old self.new }
    {
        let b = &mut self.buffers[p as usize];
        b.push(e);
    }

    #[tactic(auto, unfolding(crate::specs::Store::storage_of, crate::specs::Store::spare_of, crate::specs::Store::processors))]
    fn pop(&mut self, p: u8) -> Option<Entry>
        requires { p < processors self.old }
        ensures value { result ≡ oldest p (storage_of self.old) }
        ensures storage { storage_of self.new ≡ with_waiting p (drop 1 ((storage_of self.old).waiting p)) (storage_of self.old) }
        ensures spares { spare_of self.new ≡ spare_of self.old }
        ensures kept { Kept self.old self.new }
    {
        let b = &mut self.buffers[p as usize];
        b.pop()
    }

    /// A store by p of the low n bytes of v. On a buffered machine it waits, and takes one of the places that `reserve`
    /// made; else it reaches memory.
    pub fn store(&mut self, p: u8, a: u64, n: u8, v: u128)
        requires within { p < processors self.old }
        requires width { IsWidth n }
        requires room { HasRoom self.old p }
        ensures storage { storage_of self.new ≡ stored self.old.buffered p a n v (storage_of self.old) }
        ensures spares { spare_of self.new ≡ spared self.old.buffered p (spare_of self.old) }
        ensures kept { Kept self.old self.new }
    {
        let e = Entry {
            address: a,
            bytes: n,
            value: low(n, v),
        };
        if self.buffered {
            self.enter(p, e);
        } else {
            self.write_entry(p, e);
        }
    }

    /// p's oldest store that waits reaches memory, and is given. None exactly where none waits.
    pub fn drain(&mut self, p: u8) -> Option<Entry>
        requires { p < processors self.old }
        ensures value { result ≡ oldest p (storage_of self.old) }
        ensures storage { storage_of self.new ≡ drained p (storage_of self.old) }
        ensures spares { spare_of self.new ≡ spare_of self.old }
        ensures kept { Kept self.old self.new }
    {
        let oldest = self.pop(p);
        if let Some(e) = oldest {
            self.write_entry(p, e);
        }
        oldest
    }

    /// All of p's stores that wait reach memory, in order.
    pub fn fence(&mut self, p: u8)
        requires { p < processors self.old }
        ensures storage { storage_of self.new ≡ flushed p (storage_of self.old) }
        ensures spares { spare_of self.new ≡ spare_of self.old }
        ensures kept { Kept self.old self.new }
    {
        for _i in 0..self.pending(p) {
            let _ = self.drain(p);
        }
    }

    /// A locked operation: drains p's buffer, reads the old number, writes the low n bytes of what `f` answers for it, or
    /// nothing for None, and gives the old number.
    pub fn locked<F: Fn(u128) -> Option<u128>>(&mut self, p: u8, a: u64, n: u8, f: F) -> u128
    where
        F: Drop,
        requires within { p < processors self.old }
        requires width { IsWidth n }
        requires accepts { (x : ℕ) → x < 2 ^ (8 * n) → F.pre f x }
        ensures old { result ≡ number_at (flushed p (storage_of self.old)).mem a n }
        ensures fits { result < 2 ^ (8 * n) }
        ensures written { (r : Option ℕ) × F.post f (number_at (flushed p (storage_of self.old)).mem a n) r × (storage_of self.new ≡ replaced p a n r (flushed p (storage_of self.old))) }
        ensures spares { spare_of self.new ≡ spare_of self.old }
        ensures kept { Kept self.old self.new }
    {
        self.fence(p);
        let old = self.read(a, n);
        let new = f(old);
        self.replace(p, a, n, new);
        old
    }

    fn replace(&mut self, p: u8, a: u64, n: u8, new: Option<u128>)
        requires { IsWidth n }
        ensures storage { storage_of self.new ≡ replaced p a n new (storage_of self.old) }
        ensures spares { spare_of self.new ≡ spare_of self.old }
        ensures kept { Kept self.old self.new }
    {
        if let Some(v) = new {
            let e = Entry {
                address: a,
                bytes: n,
                value: low(n, v),
            };
            self.write_entry(p, e);
        }
    }

    #[tactic(auto, unfolding(crate::specs::Store::storage_of, crate::specs::Store::spare_of, crate::specs::Store::processors))]
    fn set_link(&mut self, p: u8, link: Option<Reservation>)
        requires { p < processors self.old }
        ensures storage { storage_of self.new ≡ with_linked p link (storage_of self.old) }
        ensures spares { spare_of self.new ≡ spare_of self.old }
        ensures kept { Kept self.old self.new }
    {
        self.links.set(p as usize, link);
    }

    /// A linked load of n bytes: gives the number in memory, and begins p's reservation, which ends its older one.
    pub fn link(&mut self, p: u8, a: u64, n: u8) -> u128
        requires within { p < processors self.old }
        requires width { IsWidth n }
        requires unbuffered { self.old.buffered ≡ false }
        ensures number { result ≡ number_at (storage_of self.old).mem a n }
        ensures fits { result < 2 ^ (8 * n) }
        ensures storage { storage_of self.new ≡ linked_at p a n (storage_of self.old) }
        ensures spares { spare_of self.new ≡ spare_of self.old }
        ensures kept { Kept self.old self.new }
    {
        let value = self.read(a, n);
        self.begin(p, a, n);
        value
    }

    /// The low 8 bytes of a linked load of 16 bytes, whose reservation it begins.
    pub fn link_half(&mut self, p: u8, a: u64) -> u64
        requires within { p < processors self.old }
        requires unbuffered { self.old.buffered ≡ false }
        ensures number { result ≡ number_at (storage_of self.old).mem a 8 }
        ensures storage { storage_of self.new ≡ linked_at p a 16 (storage_of self.old) }
        ensures spares { spare_of self.new ≡ spare_of self.old }
        ensures kept { Kept self.old self.new }
    {
        let value = self.read(a, 8) as u64;
        self.begin(p, a, 16);
        value
    }

    fn begin(&mut self, p: u8, a: u64, n: u8)
        requires { p < processors self.old }
        ensures storage { storage_of self.new ≡ linked_at p a n (storage_of self.old) }
        ensures spares { spare_of self.new ≡ spare_of self.old }
        ensures kept { Kept self.old self.new }
    {
        let link = Reservation {
            address: a,
            bytes: n,
        };
        self.set_link(p, Some(link));
    }

    #[tactic(auto, unfolding(crate::specs::Store::storage_of, crate::specs::Store::processors))]
    fn may_pair(&self, p: u8, a: u64, n: u8) -> bool
        requires { p < processors self.now }
        ensures { result ≡ may_pair p a n (storage_of self.now) }
    {
        fits(self.links.get(p as usize), a, n)
    }

    /// A pair store of the low n bytes of v. False, with nothing written, exactly where p has no reservation that a linked
    /// load of the same address and size began. p's reservation ends in either case.
    pub fn pair_store(&mut self, p: u8, a: u64, n: u8, v: u128) -> bool
        requires within { p < processors self.old }
        requires width { IsWidth n }
        requires unbuffered { self.old.buffered ≡ false }
        ensures stood { result ≡ may_pair p a n (storage_of self.old) }
        ensures storage { storage_of self.new ≡ pair_stored p a n v (storage_of self.old) }
        ensures spares { spare_of self.new ≡ spare_of self.old }
        ensures kept { Kept self.old self.new }
    {
        let stands = self.may_pair(p, a, n);
        if stands {
            let e = Entry {
                address: a,
                bytes: n,
                value: low(n, v),
            };
            self.write_entry(p, e);
        }
        self.set_link(p, None);
        stands
    }

    /// Ends p's reservation, if it has one.
    pub fn drop_reservation(&mut self, p: u8)
        requires { p < processors self.old }
        ensures storage { storage_of self.new ≡ dropped p (storage_of self.old) }
        ensures spares { spare_of self.new ≡ spare_of self.old }
        ensures kept { Kept self.old self.new }
    {
        self.set_link(p, None);
    }
}

/// The low n bytes of a number.
fn low(n: u8, v: u128) -> u128
    requires { IsWidth n }
    ensures { result ≡ cut n v }
{
    match n {
        1 => v & 0xff,
        2 => v & 0xffff,
        4 => v & 0xffff_ffff,
        8 => v & 0xffff_ffff_ffff_ffff,
        16 => v,
        _ => unreachable!(),
    }
}
