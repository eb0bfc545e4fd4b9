//! The contract of a piece of machine code, and what follows from it for runs of any machine.
#![tactic(auto)]

mod laws;

pub use laws::{MeantCode, code_in_step_runs_in_step, runs_stay_in_bounds};
