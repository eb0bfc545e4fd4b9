//! AArch64 with LSE: its instructions, their effects, and the marks of its code (Arm Architecture
//! Reference Manual for A-profile, A64 base instructions and FEAT_LSE).
#![tactic(auto)]

mod effects;
mod instructions;
mod isa;
mod skeletons;

pub use effects::next_register;
pub use instructions::{Alu, ArmInstr, Barrier, Condition, Ending, Extension, Lse, Shift, Size};
pub use isa::Arm;
pub use skeletons::skeleton;
