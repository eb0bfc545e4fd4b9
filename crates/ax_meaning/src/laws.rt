//! What holds of machine code that follows the fine middle machine.

ghost use Rattle.std.specs.Prelude.{ℕ};
ghost use Rattle.ax_isa.specs.Run.{Setting};
ghost use Rattle.ax_follow.specs.Contract.{Reading};
ghost use Rattle.ax_mid.specs.Processor.{MidProcessor};
ghost use Rattle.ax_expand.specs.Shared.{Shared};
ghost use Rattle.ax_source_run.specs.SourceState.{SourceProgram};
ghost use Rattle.ax_meaning.specs.Lowering.{FollowingCodeLowers, Frames, meaning_of};

use ax_check::laws::accepted_can_be_laid_out;
use ax_fine::fine_machine_runs_in_step;
use ax_follow::{MeantCode, code_in_step_runs_in_step};
use ax_layout::regions::{globals_have_one_class, objects_are_apart};
use ax_mid::Virtual;
use ax_ops::results_fit;
use ax_selected::laws::{
    selected_code_is_formed, selected_code_runs_in_step, selected_lines_are_small,
};
use std::marker::PhantomData;

/// Machine code, and the module whose selected code it is of.
pub trait FollowingCode {
    type Instr;

    /// Which code it is, where there are several.
    ghost Case: { Type 0 };

    /// The machine with its code and tags.
    ghost setting: { Case → Setting Self.Instr };

    /// Which step makes which event.
    ghost reading: { Case → Reading };

    /// The module, its layout and its target.
    ghost program: { Case → SourceProgram };

    /// Where the frames lie.
    ghost frames: { Case → Frames };

    /// Where the code of each line of the selected code begins.
    ghost places: { Case → ℕ → ℕ };
}

/// Machine code, as code that means the fine middle run.
pub struct Following<C> {
    of: PhantomData<C>,
}

impl<C: FollowingCode> MeantCode for Following<C> {
    type Instr = C::Instr;

    ghost Above = { MidProcessor };

    ghost World = { Shared };

    ghost Case = { C.Case };

    ghost setting = { C.setting };

    ghost meaning = { λ case. meaning_of (C.program case) (C.frames case) (C.places case) };

    ghost reading = { C.reading };
}

/// Of an accepted module that needs no routine: machine code that follows the fine middle machine of
/// its selected code lowers it. After every list of events from all entries the machine agrees with the
/// source machine under the explanation by the public tags.
pub fn following_code_lowers<C: FollowingCode>()
    ensures { (case : C.Case) → FollowingCodeLowers (C.setting case) (C.reading case) (C.program case) (C.frames case) (C.places case) }
{
    code_in_step_runs_in_step::<Following<C>>();
    fine_machine_runs_in_step::<Virtual>();
    selected_code_runs_in_step();
    selected_code_is_formed();
    selected_lines_are_small();
    accepted_can_be_laid_out();
    objects_are_apart();
    globals_have_one_class();
    results_fit();
}
