//! Code that keeps in step with what it means, and its runs.

ghost use Rattle.ax_isa.specs.Run.{Setting};
ghost use Rattle.ax_follow.specs.Bounds.{RunsStayInBounds};
ghost use Rattle.ax_follow.specs.Contract.{Follows, Lawful, Meaning, Reading};
ghost use Rattle.ax_follow.specs.RunTheorem.{RunsInStep};

/// Code of an instruction set, with what it means to those above it.
pub trait MeantCode {
    type Instr;

    /// What a processor is above.
    ghost Above: { Type 0 };

    /// What all processors share above.
    ghost World: { Type 0 };

    /// Which code it is, where there are several.
    ghost Case: { Type 0 };

    /// The machine with its code and tags.
    ghost setting: { Case → Setting Self.Instr };

    /// What its code means.
    ghost meaning: { Case → Meaning Above World };

    /// Which step makes which event.
    ghost reading: { Case → Reading };
}

/// Where the code of each instruction keeps in step with its meaning, through whatever its
/// processor and others do, every run of the machine keeps in step with the run of the meaning.
pub fn code_in_step_runs_in_step<C: MeantCode>()
    ensures { (case : C.Case) → Follows (C.meaning case) (C.reading case) (C.setting case) → Lawful (C.meaning case) (C.reading case) (C.setting case) → RunsInStep (C.setting case) (C.meaning case) (C.reading case) }
{}

/// Where the effects of the code carry numbers in their ranges, registers of running processors
/// hold words and memory bytes, after every list of events.
pub fn runs_stay_in_bounds<C: MeantCode>()
    ensures { (case : C.Case) → RunsStayInBounds (C.setting case) }
{}
