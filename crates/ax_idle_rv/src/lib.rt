//! Idle steps of images for RV64 whose atomic operations have code of their own.
#![tactic(auto)]

pub mod laws;

pub use laws::direct_images_never_idle;
