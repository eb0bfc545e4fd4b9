//! The words and the texts of a row.

use crate::fault::Fault;
use std::alloc::{AllocError, Global};

/// A number in decimal digits, or behind `0x` in hexadecimal ones.
pub fn number(word: &str) -> Result<u128, Fault> {
    match word.strip_prefix("0x") {
        Some(digits) => Ok(u128::from_str_radix(digits, 16)?),
        None => Ok(word.parse::<u128>()?),
    }
}

/// The parts of an event as a report writes it: of `A0*5` the letter, the processor, and how often it
/// stands, which is once where that is not told.
pub fn token(word: &str) -> Result<(u8, u8, u32), Fault> {
    let (event, times) = match word.split_once('*') {
        Some((event, times)) => (event, times.parse::<u32>()?),
        None => (word, 1),
    };
    let [letter, digit] = event.as_bytes() else {
        return Err(Fault::Row);
    };
    Ok((*letter, digit.checked_sub(b'0').ok_or(Fault::Row)?, times))
}

/// The text of a row that has one.
pub fn one<'a>(texts: &'a [Vec<u8>]) -> Result<&'a [u8], Fault> {
    match texts {
        [text] => Ok(text.as_slice()),
        _ => Err(Fault::Row),
    }
}

/// The byte that an escape stands for, which begins behind the `\`, and what is behind it.
fn escaped(escape: &str) -> Option<(u8, &str)> {
    let (letter, rest) = escape.split_at_checked(1)?;
    match letter {
        "n" => Some((b'\n', rest)),
        "t" => Some((b'\t', rest)),
        "r" => Some((b'\r', rest)),
        "x" => {
            let (digits, rest) = rest.split_at_checked(2)?;
            Some((u8::from_str_radix(digits, 16).ok()?, rest))
        }
        _ => None,
    }
}

/// The bytes of a text with escapes; None where one of them is none.
pub(crate) fn bytes_of(alloc: Global, text: &str) -> Result<Option<Vec<u8>>, AllocError> {
    let mut bytes = Vec::new(alloc);
    for (k, part) in text.split('\\').enumerate() {
        if k == 0 {
            bytes.extend_from_slice(part.as_bytes())?;
        } else {
            let Some((byte, rest)) = escaped(part) else {
                return Ok(None);
            };
            bytes.push(byte)?;
            bytes.extend_from_slice(rest.as_bytes())?;
        }
    }
    Ok(Some(bytes))
}
