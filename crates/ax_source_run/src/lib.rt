//! The source machine of whole modules: *Source state*, *Source event* and *Source run* as definitions, and what holds of every run.
#![tactic(auto)]

pub mod laws;

pub use laws::source_runs_hold;
