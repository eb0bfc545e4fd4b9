//! AArch64 as an instruction set of the machine.

ghost use Rattle.std.specs.Prelude.{true, false};
ghost use Rattle.std.proofs.Common.{refl};
ghost use Rattle.std.proofs.lemmas.Bool.{false≢true};
ghost use Rattle.ax_arm.specs.Laws.{effects_fit};
ghost use Rattle.ax_arm.specs.Instructions.{IsInstr, arm_kind};

use crate::effects::effect_of;
use crate::instructions::ArmInstr;
use ax_isa::{Cpu, Effect, Isa};

/// The instruction set AArch64 with LSE (Arm Architecture Reference Manual for A-profile). One flat
/// memory without buffers, and linked loads with pair stores.
pub struct Arm;

impl Isa for Arm {
    type Instr = ArmInstr;

    const BUFFERED: bool = false;

    const PAIRS: bool = true;

    ghost BUFFERED = { false };

    ghost PAIRS = { true };

    ghost kind = { arm_kind };

    ghost valid = { IsInstr };

    fn effect(i: &ArmInstr, cpu: &Cpu) -> Effect {
        effect_of(i, cpu)
    }

    ghost buffered_of_kind = { refl };

    ghost pairs_of_kind = { refl };

    ghost apart = { λ b. absurd (false≢true b) };

    ghost paired = { λ i c h. refl };

    ghost fits = { effects_fit };
}
