//! Images of modules are short and sound, for any instruction set.
#![tactic(auto)]

pub mod laws;

pub use laws::{images_are_short, images_are_sound};
