//! The mapping table as a text.
#![tactic(auto)]

pub mod map;
mod marks;
pub mod sizes;

pub use map::map_text;
