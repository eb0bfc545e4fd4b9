//! The fine middle machine, one step a line over bytes, in step with the one-step middle machine.
#![tactic(auto)]

pub mod laws;

pub use laws::fine_machine_runs_in_step;
