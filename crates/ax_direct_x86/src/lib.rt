//! Modules for x86-64 that need no routine.
#![tactic(auto)]

pub mod laws;

pub use laws::{direct_x86_images_lower, direct_x86_modules_are_expanded};
