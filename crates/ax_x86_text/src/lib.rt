//! The spelling of x86-64 instructions in AT&T's syntax.
#![tactic(auto)]

mod registers;
mod spelling;

pub use spelling::push_instr;
