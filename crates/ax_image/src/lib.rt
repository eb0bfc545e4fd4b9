//! Images of modules, for any instruction set.
#![tactic(auto)]

pub mod laws;
mod making;

pub use laws::{CodedModule, following_images_lower, images_have_entries};
pub use making::image_of;
