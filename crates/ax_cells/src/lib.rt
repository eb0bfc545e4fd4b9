//! What a processor of the source machine holds: results of instructions, arrays of numbers in a row,
//! and stores that wait to reach them.
#![tactic(auto)]

mod arrays;
mod memory;
mod newest_stores;
mod pending;
mod results;
pub mod value;

pub use arrays::{Array, Arrays};
pub use memory::{alloca_arrays, block_starts, initial_arrays};
pub use pending::{Pending, Waiting};
pub use results::Results;
pub use value::{Object, Pointer, Value, constant};
