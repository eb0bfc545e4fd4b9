//! A program that was lowered.

use ax_arm::ArmInstr;
use ax_isa::Image;
use ax_module::Name;
use ax_rv::RvInstr;
use ax_target::Target;
use ax_words::Items;
use ax_x86::X86Instr;

/// The image of a program, by its instruction set.
#[derive(Drop)]
pub enum Code {
    X86(Image<X86Instr>),
    Arm(Image<ArmInstr>),
    Rv(Image<RvInstr>),
}

/// A program that was lowered: its target, the names of its functions, by position, and its image.
#[derive(Drop)]
pub struct Lowered {
    pub target: Target,
    pub names: Items<Name>,
    pub code: Code,
}
