//! What machine code of a module means: it follows the fine middle run, and so lowers the module.
#![tactic(auto)]

pub mod laws;

pub use laws::{FollowingCode, following_code_lowers};
