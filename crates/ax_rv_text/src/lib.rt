//! The spelling of RV64's instructions (RISC-V Unprivileged ISA, the assembler syntax).
#![tactic(auto)]

mod instructions;
mod operands;
mod registers;
mod words;

pub use instructions::push_instr;
