//! Tags, which tie an instruction to source events, and the roles of calls.
#![tactic(auto)]

pub mod tags;

pub use tags::{Role, Tag};
