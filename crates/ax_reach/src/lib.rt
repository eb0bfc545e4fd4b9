//! The middle code of instructions that go through a pointer.
#![tactic(auto)]

pub mod access;
pub mod frame;
pub mod laws;
pub mod place;
pub mod pointers;
pub mod pointing;
pub mod pushing;
pub mod ways;

pub use access::{Exchange, width_of};
pub use laws::pieces_are_reached;
pub use pointers::Pointers;
