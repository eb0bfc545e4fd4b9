//! The source machine: what a module means, one source event at a time.
#![tactic(auto)]

mod access;
mod calls;
mod deeds;
mod happen;
mod instructions;
pub mod laws;
mod looks;
pub mod machine;
mod operands;
mod phis;
mod processor;

pub use ax_words::{Items, SourceEvent, SourceStatus};
pub use laws::accepted_modules_are_runnable;
pub use machine::Machine;
