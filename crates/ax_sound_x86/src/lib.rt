//! The x86-64 code of middle instructions is sound.
#![tactic(auto)]

pub mod laws;

pub use laws::{x86_operations_are_sound, x86_pieces_are_sound};
