//! Modules for RV64 whose atomic instructions are single instructions or pair loops.
#![tactic(auto)]

pub mod laws;

pub use laws::{direct_images_lower, direct_modules_are_expanded};
