//! What the instruction sets compute alike, from numbers of 64 bits.

ghost use Rattle.std.specs.Prelude.{◌≡◌, ◌<◌, ◌*◌, ◌^◌};
ghost use Rattle.ax_ops.specs.Operation.{signed};
ghost use Rattle.ax_isa.specs.Effects.{FitsRegister};
ghost use Rattle.ax_isa.specs.Numbers.{displaced, shifted_by_sign};
ghost use Rattle.ax_isa.specs.Steps.{extended};

use crate::effects::Rest;

/// A number and a displacement, mod 2^64: an address, or the place that a jump at a place names.
/// A place before place 0 is no place.
pub fn displaced(number: u64, displacement: i64) -> u64
    ensures { result ≡ displaced number displacement }
{
    number.wrapping_add_signed(displacement)
}

/// The two's complement number.
pub fn signed(number: u64) -> i128
    ensures { result ≡ signed 64 number }
{
    if number < 0x8000_0000_0000_0000 {
        number as i128
    } else {
        number as i128 - 0x1_0000_0000_0000_0000
    }
}

/// A shift to the right that fills with the sign.
pub fn shifted_by_sign(number: u64, count: u32) -> u64
    requires { count < 64 }
    ensures { result ≡ shifted_by_sign number count }
{
    if number < 0x8000_0000_0000_0000 {
        number >> count
    } else {
        u64::MAX - ((u64::MAX - number) >> count)
    }
}

/// A number of 1, 2, 4 or 8 bytes, extended by its sign.
pub fn extended_by_sign(bytes: u8, number: u64) -> u64
    requires width { FitsRegister bytes }
    requires fits { number < 2 ^ (8 * bytes) }
    ensures { result ≡ extended bytes Rest.Signs 0 number }
{
    match bytes {
        1 if number >= 0x80 => number + 0xffff_ffff_ffff_ff00,
        2 if number >= 0x8000 => number + 0xffff_ffff_ffff_0000,
        4 if number >= 0x8000_0000 => number + 0xffff_ffff_0000_0000,
        _ => number,
    }
}
