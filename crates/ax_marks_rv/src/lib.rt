//! The rows of images on RV64.
#![tactic(auto)]

pub mod laws;

pub use laws::direct_images_have_rows;
