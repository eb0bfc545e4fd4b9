//! Atomic operations on objects of 1 and 2 bytes on RV64, by loops over the aligned word that holds
//! the object.
#![tactic(auto)]

mod codes;
mod exchange;
mod laws;
mod pairs;
mod parts;
mod registers;
mod setup;
mod updates;

pub use codes::{is_narrow, push_masked};
pub use laws::masked_code_expands;
pub use pairs::{link_ending, store_ending};
