//! When an image lowers a module, when it has its rows, and when it is sound, for any instruction
//! set: definitions, and what a module's names are.
#![tactic(auto)]

mod laws;

pub use laws::function_names_are_names;
