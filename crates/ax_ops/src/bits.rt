//! Values of one, two, four, eight and sixteen bytes.

ghost use Rattle.std.specs.Prelude.{◌≡◌, ◌<◌, ◌*◌, ◌/◌, ◌-◌, ◌^◌, ◌%◌, ◌↔◌, pos, length, IsSome, IfSome};
ghost use Rattle.num_traits.specs.Laws.{Checks};
ghost use Rattle.ax_words.specs.Width.{IsWidth};
ghost use Rattle.ax_ops.specs.Operation.{signed};
ghost use Rattle.ax_ops.specs.Bytes.{number_of};

use crate::operation::signed_number;
use num_traits::PrimInt;
use std::marker::Model;

/// A whole number of N bytes, where N is 1, 2, 4, 8 or 16.
#[derive(Clone, Copy)]
pub struct Bits<const N: usize> {
    number: u128,
}

impl<const N: usize> Model for Bits<N> {
    ghost use Rattle.std.specs.Prelude.{ℕ, ◌<◌, ◌*◌, ◌^◌};
    ghost use Rattle.ax_words.specs.Width.{IsWidth};

    ghost Value = { ℕ };

    ghost view = { λ b. b.number };

    ghost invariant = { λ b. IsWidth N × (b.number < 2 ^ (8 * N)) };

    ghost inverse = { λ n. record { number = n } };
}

impl<const N: usize> Bits<N> {
    /// The number as a value of N bytes. None exactly where it is too big.
    pub fn new(v: u128) -> Option<Bits<N>>
        requires { IsWidth N }
        ensures some { IsSome result ↔ (v < 2 ^ (8 * N)) }
        ensures value { IfSome result (λ bits. bits ≡ v) }
    {
        if v <= greatest::<N>() {
            Some(Bits { number: v })
        } else {
            None
        }
    }

    /// The number of bytes that are given lowest first. None exactly where there are not N.
    pub fn from_bytes(b: &[u8]) -> Option<Bits<N>>
        requires { IsWidth N }
        ensures some { IsSome result ↔ (length b.now ≡ N) }
        ensures value { IfSome result (λ bits. bits ≡ number_of b.now) }
    {
        if b.len() != N {
            return None;
        }
        Some(Bits::of_number(number_of_bytes(b)))
    }

    pub(crate) fn of_number(number: u128) -> Bits<N>
        requires width { IsWidth N }
        requires fits { number < 2 ^ (8 * N) }
        ensures { result ≡ number }
    {
        Bits { number }
    }

    /// The number, below 2^(8N).
    pub fn value(self) -> u128
        ensures value { result ≡ self.entry }
        ensures fits { result < 2 ^ (8 * N) }
        ensures width { IsWidth N }
    {
        self.number
    }

    /// The number in another whole-number type. None exactly where it is no number of that type.
    pub fn narrow<U: PrimInt>(self) -> Option<U>
        ensures { Checks U.value U.fits (pos self.entry) result }
    {
        num_traits::cast(self.number)
    }

    /// The two's complement number.
    pub fn sext(self) -> i128
        ensures { result ≡ signed (8 * N) self.entry }
    {
        signed_number::<N>(self.number)
    }

    /// Byte `i`, counted from the lowest, which is byte 0.
    pub fn byte(self, i: usize) -> u8
        requires { i < N }
        ensures { result ≡ self.entry / 2 ^ (8 * i) % 256 }
    {
        (self.number >> (8 * i) & 0xff) as u8
    }
}

/// The greatest number of N bytes.
pub(crate) fn greatest<const N: usize>() -> u128
    requires { IsWidth N }
    ensures { result ≡ 2 ^ (8 * N) - 1 }
{
    match N {
        1 => 0xff,
        2 => 0xffff,
        4 => 0xffff_ffff,
        8 => 0xffff_ffff_ffff_ffff,
        16 => u128::MAX,
        _ => unreachable!(),
    }
}

#[tactic(auto, using(crate::proofs::Words::read))]
fn number_of_bytes(b: &[u8]) -> u128
    requires { IsWidth (length b.now) }
    ensures value { result ≡ number_of b.now }
    ensures fits { result < 2 ^ (8 * length b.now) }
{
    let mut number: u128 = 0;
    let mut i = b.len();
    while i > 0 {
        i -= 1;
        number = number * 256 + b[i] as u128;
    }
    number
}
