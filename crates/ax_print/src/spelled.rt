//! Instructions as an assembly has them.

use ax_arm::ArmInstr;
use ax_rv::RvInstr;
use ax_x86::X86Instr;
use std::alloc::AllocError;

/// An instruction that has a spelling.
pub trait Spelled {
    ghost use Rattle.std.specs.Prelude.{◌≡◌, ◌++◌, ℕ, List, OnOk, string_bytes};

    ghost instr_text: { ℕ → Self → List ℕ };

    /// Appends the text of the instruction, which stands at a place. The only error is that memory
    /// fails.
    fn push_to(&self, out: &mut String, place: usize) -> Result<(), AllocError>
        ensures { OnOk result (string_bytes out.new ≡ string_bytes out.old ++ instr_text place self.now) };
}

impl Spelled for X86Instr {
    ghost use Rattle.ax_x86_text.specs.Spelling as x86;

    ghost instr_text = { x86.instr_text };

    fn push_to(&self, out: &mut String, place: usize) -> Result<(), AllocError> {
        ax_x86_text::push_instr(out, place, self)
    }
}

impl Spelled for ArmInstr {
    ghost use Rattle.ax_arm_text.specs.Spelling as arm;

    ghost instr_text = { arm.instr_text };

    fn push_to(&self, out: &mut String, place: usize) -> Result<(), AllocError> {
        ax_arm_text::push_instr(out, place, self)
    }
}

impl Spelled for RvInstr {
    ghost use Rattle.ax_rv_text.specs.Spelling as rv;

    ghost instr_text = { rv.instr_text };

    fn push_to(&self, out: &mut String, place: usize) -> Result<(), AllocError> {
        ax_rv_text::push_instr(out, place, self)
    }
}
