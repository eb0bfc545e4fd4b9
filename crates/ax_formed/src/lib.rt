//! The middle code that is selected for a module is well formed.
#![tactic(auto)]

pub mod laws;

pub use laws::selected_code_is_well_formed;
