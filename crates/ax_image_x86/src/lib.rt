//! Images of modules on x86-64.
#![tactic(auto)]

pub mod laws;

pub use laws::x86_images_lower;
