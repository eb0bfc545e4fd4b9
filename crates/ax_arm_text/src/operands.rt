//! A mnemonic and its operands: one blank after the mnemonic and after each comma.

ghost use Rattle.std.specs.Prelude.{◌≡◌, ◌++◌, OnOk, string_bytes};
ghost use Rattle.ax_arm_text.specs.Spelling.{access_text, base_text, one, three, two};

use crate::registers::{register_of, x_name};
use crate::words::size_word;
use ax_arm::Size;
use std::alloc::AllocError;

pub(crate) fn push_one(out: &mut String, word: &str, a: &str) -> Result<(), AllocError>
    ensures { OnOk result (string_bytes out.new ≡ string_bytes out.old ++ one word.now a.now) }
{
    write!(out, "{word} {a}")
}

pub(crate) fn push_two(out: &mut String, word: &str, a: &str, b: &str) -> Result<(), AllocError>
    ensures { OnOk result (string_bytes out.new ≡ string_bytes out.old ++ two word.now a.now b.now) }
{
    write!(out, "{word} {a}, {b}")
}

pub(crate) fn push_three(
    out: &mut String,
    word: &str,
    a: &str,
    b: &str,
    c: &str,
) -> Result<(), AllocError>
    ensures { OnOk result (string_bytes out.new ≡ string_bytes out.old ++ three word.now a.now b.now c.now) }
{
    write!(out, "{word} {a}, {b}, {c}")
}

/// Appends the base of an access without a distance.
pub(crate) fn push_base(out: &mut String, base: u8) -> Result<(), AllocError>
    ensures { OnOk result (string_bytes out.new ≡ string_bytes out.old ++ base_text base) }
{
    let base = x_name(base);
    write!(out, ", [{base}]")
}

/// Appends a load or a store of register `r` at the distance `d` from register `base`.
pub(crate) fn push_access(
    out: &mut String,
    word: &str,
    size: Size,
    r: u8,
    base: u8,
    d: u16,
) -> Result<(), AllocError>
    ensures { OnOk result (string_bytes out.new ≡ string_bytes out.old ++ access_text word.now size r base d) }
{
    write!(out, "{word}")?;
    push_one(out, size_word(size), register_of(size, r))?;
    let base = x_name(base);
    write!(out, ", [{base}, #{d}]")
}
