//! From accepted modules to middle code.
#![tactic(auto)]

mod functions;
mod globals;
mod laws;
mod pieces;
mod selection;

pub use laws::accepted_modules_are_ready;
pub use selection::select;
