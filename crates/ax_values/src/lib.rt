//! What the instructions that compute do with whole numbers of up to 128 bits.
#![tactic(auto)]

mod arithmetic;
mod updates;
mod words;

pub use arithmetic::{compare, compute, convert, index};
pub use updates::update;
pub use words::{bits, extended, low, wrapped};
