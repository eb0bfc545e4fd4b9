//! The middle code of a module as a definition, and what holds of its runs.
#![tactic(auto)]

pub mod laws;

pub use laws::{
    code_is_laid, pieces_keep_runs_in_step, selected_accesses_are_at_sites,
    selected_code_is_formed, selected_code_runs_in_step, selected_lines_are_small,
    selected_operations_are_at_sites,
};
