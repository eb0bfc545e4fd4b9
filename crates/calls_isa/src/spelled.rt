//! Instructions by their spellings.

use ax_print::Spelled;
use ax_rows::Fault;
use std::alloc::{AllocError, Global};

/// The place of each instruction that is spelled.
pub(crate) const PLACE: u32 = 100;

/// The instruction of these that is spelled so.
pub(crate) fn instruction_of<'a, I: Spelled>(
    alloc: Global,
    all: &'a [I],
    spelling: &str,
) -> Result<&'a I, Fault> {
    for i in all {
        let mut text = String::new(alloc);
        i.push_to(&mut text, PLACE as usize)?;
        if text.as_str() == spelling {
            return Ok(i);
        }
    }
    Err(Fault::Row)
}

/// The spellings of instructions, with ` / ` behind each.
pub(crate) fn listed<I: Spelled>(alloc: Global, all: &[I]) -> Result<String, AllocError> {
    let mut out = String::new(alloc);
    for i in all {
        i.push_to(&mut out, PLACE as usize)?;
        out.push_str(" / ")?;
    }
    Ok(out)
}
