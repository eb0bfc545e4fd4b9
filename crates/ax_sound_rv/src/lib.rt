//! Images of modules for RV64 whose atomic instructions are single instructions or loops of a linked
//! load and a pair store are short and sound.
#![tactic(auto)]

pub mod laws;

pub use laws::{direct_images_are_short, direct_images_are_sound};
