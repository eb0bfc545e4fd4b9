//! Images of modules on RV64.
#![tactic(auto)]

pub mod laws;

pub use laws::rv_images_lower;
