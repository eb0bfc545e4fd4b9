//! What holds of images for every instruction set.

ghost use Rattle.std.specs.Prelude.{ℕ, Bool};
ghost use Rattle.ax_source_run.specs.SourceState.{SourceProgram};
ghost use Rattle.ax_isa.specs.Steps.{Kind};
ghost use Rattle.ax_image.specs.Image.{Coding, ImagesHaveEntries, places};
ghost use Rattle.ax_image.specs.Lowering.{FollowingImageLowers, frames_by, reading, setting};

use ax_check::laws::accepted_can_be_laid_out;
use ax_layout::regions::objects_are_apart;
use ax_meaning::{FollowingCode, following_code_lowers};
use ax_selected::selected_code_is_formed;
use ax_typed::numbers_are_typed;
use std::marker::PhantomData;

/// Each function of an image is entered where the code behind its first block's label begins, and has a
/// frame; the image has as many entries and frames as the module has functions.
pub fn images_have_entries<I>()
    ensures { ImagesHaveEntries I }
{}

/// The code of middle instructions on an instruction set, and the modules whose selected code it is of.
pub trait CodedModule {
    type Instr;

    /// Which module, with which code, where there are several.
    ghost Case: { Type 0 };

    /// What its instructions mean.
    ghost kind: { Kind Self.Instr };

    /// The registers that no code changes.
    ghost fixed: { ℕ → Bool };

    ghost coding: { Case → Coding Self.Instr };

    ghost program: { Case → SourceProgram };

    /// So many idle steps in a row at most, in the code of a line.
    ghost most: { Case → ℕ };
}

/// The machine code of a module.
pub struct Imaged<C> {
    of: PhantomData<C>,
}

impl<C: CodedModule> FollowingCode for Imaged<C> {
    type Instr = C::Instr;

    ghost Case = { C.Case };

    ghost setting = { λ case. setting C.kind (C.coding case) (C.program case) };

    ghost reading = { λ case. reading C.kind (C.coding case) (C.program case) (C.most case) };

    ghost program = { C.program };

    ghost frames = { λ case. frames_by C.kind.stack C.fixed };

    ghost places = { λ case. places (C.coding case) (C.program case) };
}

/// An image that follows what it means lowers its module, where the module is accepted and needs no
/// routine: for all lists of entries and all lists of events, with stores that wait and with
/// reservations that may vanish at any step (*Agreement*).
pub fn following_images_lower<C: CodedModule>()
    ensures { (case : C.Case) → FollowingImageLowers C.kind (C.coding case) (C.program case) C.fixed (C.most case) }
{
    following_code_lowers::<Imaged<C>>();
    selected_code_is_formed();
    numbers_are_typed();
    accepted_can_be_laid_out();
    objects_are_apart();
}
