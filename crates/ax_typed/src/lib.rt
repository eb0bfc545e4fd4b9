//! The numbers of the source machine are those of their types.
#![tactic(auto)]

pub mod laws;

pub use laws::numbers_are_typed;
