//! Values of 1, 2, 4, 8 and 16 bytes, and what operations leave.

ghost use Rattle.ax_words.specs.Width.{IsWidth};

use ax_ops::{Bits, apply};
use ax_rows::{Fault, number, one, operation};
use std::alloc::{AllocError, Global};

/// The numbers round the ends of a width and round its sign bit: 2 of 8 bits are `two`, 127
/// `below`, 128 `sign`, 129 `above`, 254 `last` and 255 `ones`.
const EDGES: [&str; 8] = [
    "zero", "one", "two", "below", "sign", "above", "last", "ones",
];

/// The number of an edge, where `ones` is the greatest of the width.
fn edge(name: &str, ones: u128) -> Result<u128, Fault> {
    match name {
        "zero" => Ok(0),
        "one" => Ok(1),
        "two" => Ok(2),
        "below" => Ok(ones / 2),
        "sign" => Ok(ones / 2 + 1),
        "above" => Ok((ones / 2).wrapping_add(2)),
        "last" => Ok(ones.wrapping_sub(1)),
        "ones" => Ok(ones),
        _ => Err(Fault::Row),
    }
}

/// The edge that an operation leaves where it finds one edge and is given another.
fn left_by<const N: usize>(words: &[&str], ones: u128) -> Result<&'static str, Fault>
    requires { IsWidth N }
{
    let ["apply", op, old, v] = words else {
        return Err(Fault::Row);
    };
    let old = Bits::<N>::new(edge(old, ones)?).ok_or(Fault::Row)?;
    let v = Bits::<N>::new(edge(v, ones)?).ok_or(Fault::Row)?;
    let left = apply(operation(op)?, old, v).value();
    for name in EDGES {
        if edge(name, ones)? == left {
            return Ok(name);
        }
    }
    Ok("no edge")
}

/// The edge that is left at each of the five widths.
fn left_at_all(alloc: Global, words: &[&str]) -> Result<String, Fault> {
    let first = left_by::<1>(words, 0xff)?;
    let others = [
        left_by::<2>(words, 0xffff)?,
        left_by::<4>(words, u32::MAX as u128)?,
        left_by::<8>(words, u64::MAX as u128)?,
        left_by::<16>(words, u128::MAX)?,
    ];
    let is_one = others.iter().all(|name| *name == first);
    Ok(String::from_str(alloc, if is_one { first } else { "not one edge" })?)
}

/// A value in all its readings: as a number, with a sign, as a byte, and byte for byte.
fn readings<const N: usize>(alloc: Global, bits: Option<Bits<N>>) -> Result<String, AllocError> {
    let Some(bits) = bits else {
        return String::from_str(alloc, "none");
    };
    let (value, signed) = (bits.value(), bits.sext());
    let mut out = format!(in alloc; "{value} signed {signed} u8 ")?;
    match bits.narrow::<u8>() {
        Some(byte) => write!(out, "{byte}")?,
        None => out.push_str("none")?,
    }
    out.push_str(" bytes")?;
    for i in 0..N {
        let byte = bits.byte(i);
        write!(out, " {byte}")?;
    }
    Ok(out)
}

fn made<const N: usize>(alloc: Global, words: &[&str], texts: &[Vec<u8>]) -> Result<String, Fault>
    requires { IsWidth N }
{
    let bits = match words {
        ["bits", _, value] => Bits::<N>::new(number(value)?),
        ["from_bytes", _] => Bits::<N>::from_bytes(one(texts)?),
        _ => return Err(Fault::Row),
    };
    Ok(readings(alloc, bits)?)
}

/// What the calls of values answer; their first word is the number of bytes, but for `apply`.
pub(crate) fn answer(alloc: Global, words: &[&str], texts: &[Vec<u8>]) -> Result<String, Fault> {
    match words {
        ["apply", ..] => left_at_all(alloc, words),
        [_, "1", ..] => made::<1>(alloc, words, texts),
        [_, "2", ..] => made::<2>(alloc, words, texts),
        [_, "4", ..] => made::<4>(alloc, words, texts),
        [_, "8", ..] => made::<8>(alloc, words, texts),
        [_, "16", ..] => made::<16>(alloc, words, texts),
        _ => Err(Fault::Row),
    }
}
