//! The operands of instructions.

ghost use Rattle.std.specs.Prelude.{◌≡◌, ◌++◌, ◌∷◌, [], OnOk, codes, string_bytes};
ghost use Rattle.ax_rv_text.specs.Registers.{register_name};
ghost use Rattle.ax_rv_text.specs.Spelling.{access_text, comma, ended_text, label_text, pair_text};

use crate::registers::register_name;
use crate::words::{ending_word, size_word};
use ax_isa::displaced;
use ax_rv::{Ending, Size};
use std::alloc::AllocError;

/// Appends a word and two registers.
pub(crate) fn push_pair(out: &mut String, word: &str, a: u8, b: u8) -> Result<(), AllocError>
    ensures { OnOk result (string_bytes out.new ≡ string_bytes out.old ++ pair_text word.now a b) }
{
    let a = register_name(a);
    let b = register_name(b);
    write!(out, "{word} {a}, {b}")
}

/// Appends a load or a store of register `r` at the displacement `d` from register `base`.
pub(crate) fn push_access(
    out: &mut String,
    word: &str,
    r: u8,
    d: i16,
    base: u8,
) -> Result<(), AllocError>
    ensures { OnOk result (string_bytes out.new ≡ string_bytes out.old ++ access_text word.now r d base) }
{
    let r = register_name(r);
    let base = register_name(base);
    write!(out, "{word} {r}, {d}({base})")
}

/// Appends the word of an instruction of the A extension.
pub(crate) fn push_ended(
    out: &mut String,
    word: &str,
    size: Size,
    ending: Ending,
) -> Result<(), AllocError>
    ensures { OnOk result (string_bytes out.new ≡ string_bytes out.old ++ ended_text word.now size ending) }
{
    let size = size_word(size);
    let ending = ending_word(ending);
    write!(out, "{word}{size}{ending}")
}

/// Appends two registers, of which the second is an address.
pub(crate) fn push_addressed(out: &mut String, r: u8, base: u8) -> Result<(), AllocError>
    ensures { OnOk result (string_bytes out.new ≡ string_bytes out.old ++ 32 ∷ register_name r ++ codes ", (" ++ register_name base ++ 41 ∷ []) }
{
    let r = register_name(r);
    let base = register_name(base);
    write!(out, " {r}, ({base})")
}

/// Appends three registers, of which the last is an address.
pub(crate) fn push_stored(out: &mut String, rd: u8, rs2: u8, base: u8) -> Result<(), AllocError>
    ensures { OnOk result (string_bytes out.new ≡ string_bytes out.old ++ 32 ∷ register_name rd ++ comma ++ register_name rs2 ++ codes ", (" ++ register_name base ++ 41 ∷ []) }
{
    let rd = register_name(rd);
    let rs2 = register_name(rs2);
    let base = register_name(base);
    write!(out, " {rd}, {rs2}, ({base})")
}

/// Appends the place that a jump goes to.
pub(crate) fn push_label(out: &mut String, place: usize, distance: i32) -> Result<(), AllocError>
    ensures { OnOk result (string_bytes out.new ≡ string_bytes out.old ++ label_text place distance) }
{
    let target = displaced(place as u64, distance as i64);
    write!(out, ".L{target}")
}
