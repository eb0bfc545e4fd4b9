//! The instructions of x86-64 that the lowered code uses, their effects and their skeletons (Intel
//! SDM, volume 2).
#![tactic(auto)]

mod arithmetic;
mod conditions;
mod instructions;
mod isa;
mod marks;

pub use instructions::{Alu, Condition, Extension, MemoryOperand, Shift, Size, X86Instr};
pub use isa::X86;
pub use marks::skeleton;
