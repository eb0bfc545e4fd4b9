//! Runs of machine code of middle code.

ghost use Rattle.ax_isa.specs.Steps.{Kind};
ghost use Rattle.ax_fine.specs.Fine.{Program, fine};
ghost use Rattle.ax_mid.specs.Processor.{MidProcessor};
ghost use Rattle.ax_emit.specs.Runs.{Emission, EmittedCodeRuns, places_in, reading_of_image, setting_of_image};

use ax_follow::{MeantCode, code_in_step_runs_in_step};
use std::marker::PhantomData;

/// Middle code with its machine code.
pub trait EmittedCode {
    type Instr;

    /// A register of middle code.
    ghost Register: { Type 0 };

    /// What all processors share.
    ghost World: { Type 0 };

    /// The instruction set.
    ghost kind: { Kind Self.Instr };

    /// Which code it is, where there are several.
    ghost Case: { Type 0 };

    /// The middle code, and what it means.
    ghost program: { Case → Program Register World };

    /// The code of its lines.
    ghost emission: { Case → Emission Self.Instr Register };
}

/// The image of middle code, as code with a meaning: that of the machine of one step a line.
pub struct Emitted<E> {
    of: PhantomData<E>,
}

impl<E: EmittedCode> MeantCode for Emitted<E> {
    type Instr = E::Instr;

    ghost Above = { MidProcessor };

    ghost World = { E.World };

    ghost Case = { E.Case };

    ghost setting = { λ case. setting_of_image E.kind (E.program case) (E.emission case) };

    ghost meaning = { λ case. fine (E.program case) (places_in (E.program case) (E.emission case)) };

    ghost reading = { λ case. reading_of_image (E.program case) (E.emission case) };
}

/// Where the code of each line keeps its contract, every run of the image keeps in step with the
/// run of the middle machine that makes one step a line.
pub fn emitted_code_runs<E: EmittedCode>()
    ensures { (case : E.Case) → EmittedCodeRuns E.kind (E.program case) (E.emission case) }
{
    code_in_step_runs_in_step::<Emitted<E>>();
}
