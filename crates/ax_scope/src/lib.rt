//! The names of a module's text, and the module that its lines are.
#![tactic(auto)]

mod body;
mod declared;
mod fault;
mod function;
mod global;
mod inst;
mod locals;
mod meaning;
mod module;
mod name_table;
mod outer;
mod resolve;
mod seen;

pub use fault::ScopeFault;
pub use module::{module_of, one_answer};
