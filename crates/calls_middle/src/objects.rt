//! Objects, and what an address and a size name.

use crate::halt::Halt;
use ax_mid::MidGlobal;

/// The bytes of a frame that code can name.
pub(crate) const FRAME_BYTES: u64 = 32_768;

/// An element of a global, by their numbers.
#[derive(Clone, Copy)]
pub(crate) struct Element {
    pub global: usize,
    pub index: usize,
}

/// A number that waits for its element.
#[derive(Clone, Copy)]
pub(crate) struct Waiting {
    pub element: Element,
    pub number: u128,
}

/// What an address and a size name: bytes of the own frame, or an element of a native global.
#[derive(Clone, Copy)]
pub(crate) enum Spot {
    Own(usize),
    Shared(Element),
}

/// The offset in a frame that begins at `base`.
fn offset_in(base: u64, address: u64, bytes: u64) -> Option<usize> {
    let offset = address.checked_sub(base)?;
    let end = offset.checked_add(bytes)?;
    if end <= FRAME_BYTES && offset.checked_rem(bytes)? == 0 {
        usize::try_from(offset).ok()
    } else {
        None
    }
}

/// The number of the element of a global that begins at the address and has that size.
fn index_in(global: &MidGlobal, address: u64, bytes: u64) -> Option<usize> {
    let offset = address.checked_sub(global.address)?;
    let size = global.count.checked_mul(global.bytes)?;
    if offset < size && global.bytes == bytes && global.native && offset.checked_rem(bytes)? == 0 {
        usize::try_from(offset.checked_div(bytes)?).ok()
    } else {
        None
    }
}

/// What an address and a size name for a processor whose frame begins at `base`.
pub(crate) fn spot_of(globals: &[MidGlobal], base: u64, address: u64, bytes: u64) -> Option<Spot> {
    if let Some(offset) = offset_in(base, address, bytes) {
        return Some(Spot::Own(offset));
    }
    for (global, variable) in globals.iter().enumerate() {
        if let Some(index) = index_in(variable, address, bytes) {
            return Some(Spot::Shared(Element { global, index }));
        }
    }
    None
}

/// The numbers of all elements, global by global.
#[derive(Drop)]
pub(crate) struct Objects {
    pub numbers: Vec<Vec<u128>>,
}

impl Objects {
    pub(crate) fn number(&self, e: Element) -> Result<u128, Halt> {
        let elements = self.numbers.as_slice().get(e.global).ok_or(Halt::Stuck)?;
        elements.as_slice().get(e.index).copied().ok_or(Halt::Stuck)
    }

    pub(crate) fn set(&mut self, e: Element, number: u128) -> Result<(), Halt> {
        if e.global >= self.numbers.len() {
            return Err(Halt::Stuck);
        }
        let elements = &mut self.numbers[e.global];
        if e.index >= elements.len() {
            return Err(Halt::Stuck);
        }
        elements[e.index] = number;
        Ok(())
    }
}
