//! Expansions of atomic operations that call no routine, on RV64.
#![tactic(auto)]

mod laws;
mod loops;
mod operations;
mod table;

pub use laws::{
    ProgramOnBytes, direct_code_expands, direct_code_is_expanded, direct_code_is_steady,
    plain_accesses_are_expanded,
};
pub use operations::DirectOperations;
