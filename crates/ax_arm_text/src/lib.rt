//! The spelling of AArch64's instructions (Arm Architecture Reference Manual for A-profile, the
//! assembler syntax of A64).
#![tactic(auto)]

mod instructions;
mod operands;
mod registers;
mod words;

pub use instructions::push_instr;
