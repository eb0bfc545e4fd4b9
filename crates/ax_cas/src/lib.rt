//! Expansions of atomic operations that call no routine, on x86-64.
#![tactic(auto)]

mod laws;

pub use laws::{
    ProgramOnBytes, plain_accesses_are_expanded, x86_code_expands, x86_code_is_expanded,
    x86_code_is_steady,
};
