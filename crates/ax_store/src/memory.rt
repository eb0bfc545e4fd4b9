// Memory: a list of regions.
ghost use Rattle.std.specs.Prelude.{◌≡◌, ◌↔◌, ◌*◌, ◌<◌, ◌≤◌, ◌^◌, ◌+◌, ℕ, true, IsTrue, length, slice_index_or, slice_set, IfOk, IfSome, All, replicate};
ghost use Rattle.ax_store.specs.Bytes.{all_inside, byte_of, number_at, put, set_inside};
ghost use Rattle.ax_store.specs.Places.{byte_at, bytes_set, is_inside, part_of, place_in, regions_of};
ghost use Rattle.ax_store.specs.Spans.{HasByte, IsRow, IsSpan, along, byte_along, set_along};
ghost use Rattle.ax_map.specs.Map.{IsFrameSize, IsGlobalsEnd, in_regions};

use crate::span::{Span, row};
use ax_map::{FRAME_ROOM, FRAMES_START, GLOBALS_START, LOCK_TABLE_END, LOCK_TABLE_START};
use std::alloc::{AllocError, Global};
use std::marker::Model;

/// The bytes of one region.
#[derive(Drop)]
pub struct Region {
    bytes: Vec<u8>,
}

impl Model for Region {
    ghost use Rattle.std.specs.Prelude.{ℕ, List};

    ghost Value = { List ℕ };

    ghost view = { λ r. r.bytes.items };
}

impl Region {
    fn byte(&self, o: u128) -> u8
        ensures { result ≡ slice_index_or self.now o 0 }
    {
        if o < self.bytes.len() as u128 {
            self.bytes[o as usize]
        } else {
            0
        }
    }

    fn set(&mut self, o: u128, b: u8)
        ensures { self.new ≡ slice_set self.old o b }
    {
        if o < self.bytes.len() as u128 {
            self.bytes[o as usize] = b;
        }
    }

    fn has(&self, o: u128) -> bool
        ensures { IsTrue result ↔ (o < length self.now) }
    {
        o < self.bytes.len() as u128
    }
}

fn region_number(a: u128) -> u128
    ensures { result ≡ part_of a }
{
    if a < u128::from(GLOBALS_START) {
        0
    } else if a < u128::from(FRAMES_START) {
        1
    } else {
        (a - u128::from(FRAMES_START)) / u128::from(FRAME_ROOM) + 2
    }
}

fn region_offset(a: u128) -> u128
    requires { a < 2 ^ 65 }
    ensures { result ≡ place_in a }
{
    if a < u128::from(LOCK_TABLE_START) {
        a + u128::from(LOCK_TABLE_START)
    } else if a < u128::from(GLOBALS_START) {
        a - u128::from(LOCK_TABLE_START)
    } else if a < u128::from(FRAMES_START) {
        a - u128::from(GLOBALS_START)
    } else {
        u128::from(FRAME_ROOM) - 1 - (a - u128::from(FRAMES_START)) % u128::from(FRAME_ROOM)
    }
}

/// The lock table, the globals, and a frame for each processor.
#[derive(Drop)]
pub struct Memory {
    regions: Vec<Region>,
}

impl Model for Memory {
    ghost use Rattle.std.specs.Prelude.{ℕ, List};

    ghost Value = { List (List ℕ) };

    ghost view = { λ m. m.regions.items };
}

/// A region of n zeros.
fn zeros(alloc: Global, n: usize) -> Result<Region, AllocError>
    ensures { IfOk result (λ r. r ≡ replicate n 0) }
{
    Ok(Region {
        bytes: vec![in alloc; 0u8; n]?,
    })
}

impl Memory {
    fn of_zeros(
        alloc: Global,
        table: u64,
        globals: u64,
        frames: &[u64],
    ) -> Result<Memory, AllocError>
        ensures { IfOk result (λ m. m ≡ regions_of table globals frames.now) }
    {
        let mut regions: Vec<Region> = Vec::new(alloc);
        regions.push(zeros(alloc, table as usize)?)?;
        regions.push(zeros(alloc, globals as usize)?)?;
        for frame in frames {
            regions.push(zeros(alloc, *frame as usize)?)?;
        }
        Ok(Memory { regions })
    }

    /// All bytes are 0. The globals end at the address `end`.
    pub fn new(alloc: Global, end: u64, frames: &[u64]) -> Result<Memory, AllocError>
        requires end { IsGlobalsEnd end }
        requires sizes { All IsFrameSize frames.now }
        ensures bytes { IfOk result (λ m. byte_at m ≡ (λ a. 0)) }
        ensures inside { IfOk result (λ m. is_inside m ≡ in_regions end frames.now) }
    {
        let table = LOCK_TABLE_END - LOCK_TABLE_START;
        Memory::of_zeros(alloc, table, end - GLOBALS_START, frames)
    }

    pub fn byte(&self, a: u128) -> u8
        requires { a < 2 ^ 65 }
        ensures { result ≡ byte_at self.now a }
    {
        let r = region_number(a);
        if r < self.regions.len() as u128 {
            self.regions[r as usize].byte(region_offset(a))
        } else {
            0
        }
    }

    pub fn inside(&self, a: u128) -> bool
        requires { a < 2 ^ 65 }
        ensures { result ≡ is_inside self.now a }
    {
        let r = region_number(a);
        r < self.regions.len() as u128 && self.regions[r as usize].has(region_offset(a))
    }

    fn set_place(&mut self, a: u128, b: u8)
        requires { a < 2 ^ 65 }
        ensures { self.new ≡ bytes_set self.old a b }
    {
        let r = region_number(a);
        if r < self.regions.len() as u128 {
            let region = &mut self.regions[r as usize];
            region.set(region_offset(a), b);
        }
    }

    /// Writes one byte, if it is inside.
    pub fn set(&mut self, a: u128, b: u8)
        requires { a < 2 ^ 65 }
        ensures bytes { byte_at self.new ≡ set_inside (is_inside self.old) (byte_at self.old) a b }
        ensures inside { is_inside self.new ≡ is_inside self.old }
    {
        self.set_place(a, b);
    }

    /// Whether the regions have these n bytes.
    fn has_span(&self, span: Span, n: u8) -> bool
        requires some { 0 < n }
        requires below { span.descends ≡ true → n ≤ span.first + 1 }
        ensures { IsTrue result → (i : ℕ) → i < n → HasByte self.now i span }
    {
        if span.region >= self.regions.len() {
            return false;
        }
        let size = self.regions[span.region].bytes.len();
        span.first < size && (span.descends || n as usize <= size - span.first)
    }

    /// The n bytes from a on, where they lie in one region.
    fn span(&self, a: u64, n: u8) -> Option<Span>
        requires { 0 < n }
        ensures { IfSome result (λ s. IsSpan self.now a n s) }
    {
        let span = row(a, n)?;
        if !self.has_span(span, n) {
            return None;
        }
        Some(span)
    }

    fn byte_along(&self, span: Span, i: u8) -> u8
        requires { HasByte self.now i span }
        ensures { result ≡ byte_along self.now span i }
    {
        self.regions[span.region].bytes[along(span, i)]
    }

    fn set_along(&mut self, span: Span, i: u8, b: u8)
        requires { HasByte self.old i span }
        ensures { self.new ≡ set_along self.old span i b }
    {
        let region = &mut self.regions[span.region];
        region.bytes[along(span, i)] = b;
    }

    fn write_along(&mut self, span: Span, a: u64, n: u8, v: u128)
        requires { IsSpan self.old a n span }
        ensures bytes { byte_at self.new ≡ put (is_inside self.old) a n v (byte_at self.old) }
        ensures inside { is_inside self.new ≡ is_inside self.old }
    {
        for i in 0..n {
            self.set_along(span, i, byte_of_number(v, i));
        }
    }

    fn write_each(&mut self, a: u64, n: u8, v: u128)
        ensures bytes { byte_at self.new ≡ put (is_inside self.old) a n v (byte_at self.old) }
        ensures inside { is_inside self.new ≡ is_inside self.old }
    {
        for i in 0..n {
            self.set(a as u128 + i as u128, byte_of_number(v, i));
        }
    }

    /// Writes the low n bytes of a number.
    pub fn write(&mut self, a: u64, n: u8, v: u128)
        ensures bytes { byte_at self.new ≡ put (is_inside self.old) a n v (byte_at self.old) }
        ensures inside { is_inside self.new ≡ is_inside self.old }
    {
        if n > 0 {
            if let Some(span) = self.span(a, n) {
                self.write_along(span, a, n, v);
                return;
            }
        }
        self.write_each(a, n, v);
    }

    fn read_along(&self, span: Span, a: u64, n: u8) -> u64
        requires width { n ≤ 8 }
        requires span { IsSpan self.now a n span }
        ensures number { result ≡ number_at (byte_at self.now) a n }
        ensures small { result < 2 ^ (8 * n) }
    {
        let mut value: u64 = 0;
        let mut i = n;
        while i > 0 {
            i -= 1;
            value = value * 256 + self.byte_along(span, i) as u64;
        }
        value
    }

    fn read_each(&self, a: u64, n: u8) -> u128
        requires { n ≤ 16 }
        ensures number { result ≡ number_at (byte_at self.now) a n }
        ensures small { result < 2 ^ (8 * n) }
    {
        let mut value: u128 = 0;
        let mut i = n;
        while i > 0 {
            i -= 1;
            value = value * 256 + self.byte(a as u128 + i as u128) as u128;
        }
        value
    }

    /// The number in n bytes.
    pub fn read(&self, a: u64, n: u8) -> u128
        requires { n ≤ 16 }
        ensures number { result ≡ number_at (byte_at self.now) a n }
        ensures small { result < 2 ^ (8 * n) }
    {
        if n > 0 && n <= 8 {
            if let Some(span) = self.span(a, n) {
                return self.read_along(span, a, n) as u128;
            }
        }
        self.read_each(a, n)
    }

    fn each_inside(&self, a: u64, n: u8) -> bool
        requires { n ≤ 16 }
        ensures { result ≡ all_inside (is_inside self.now) a n }
    {
        for i in 0..n {
            if !self.inside(a as u128 + i as u128) {
                return false;
            }
        }
        true
    }

    /// Are all n bytes inside?
    pub fn all_inside(&self, a: u64, n: u8) -> bool
        requires { n ≤ 16 }
        ensures { result ≡ all_inside (is_inside self.now) a n }
    {
        if n > 0 && self.span(a, n).is_some() {
            return true;
        }
        self.each_inside(a, n)
    }
}

fn along(span: Span, i: u8) -> usize
    requires below { span.descends ≡ true → i ≤ span.first }
    requires small { along span i < 2 ^ 64 }
    ensures { result ≡ along span i }
{
    if span.descends {
        span.first - i as usize
    } else {
        span.first + i as usize
    }
}

/// Byte i of a number.
#[tactic(auto, using(crate::proofs::Places::byte_past))]
pub fn byte_of_number(v: u128, i: u8) -> u8
    ensures { result ≡ byte_of v i }
{
    if i < 16 {
        (v >> (8 * i as u32) & 0xff) as u8
    } else {
        0
    }
}
