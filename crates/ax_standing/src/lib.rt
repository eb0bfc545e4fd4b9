//! Where the processors of the source machine stand.
#![tactic(auto)]

pub mod laws;

pub use laws::processors_stand_on_walks;
