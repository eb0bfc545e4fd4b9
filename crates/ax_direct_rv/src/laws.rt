//! What holds of modules for RV64 whose atomic instructions are single instructions or loops of
//! a linked load and a pair store.

ghost use Rattle.ax_source_run.specs.SourceState.{SourceProgram};
ghost use Rattle.ax_mid.specs.declared.registers.Virtual.{Virtual};
ghost use Rattle.ax_image_rv.specs.Image.{rv_program};
ghost use Rattle.ax_direct_rv.specs.Direct.{DirectImagesLower, DirectModulesAreExpanded};

use ax_image_rv::rv_images_lower;
use ax_llsc::{ProgramOnBytes, direct_code_is_expanded, plain_accesses_are_expanded};
use ax_selected::{selected_lines_are_small, selected_operations_are_at_sites};

/// The selected code of modules, over the bytes that all processors share.
pub struct Meant;

impl ProgramOnBytes for Meant {
    ghost Register = { Virtual };

    ghost Case = { SourceProgram };

    ghost program = { λ program. rv_program program };
}

/// Of an accepted module for RV64 each plain access and each atomic operation has an expansion that
/// meets its contract, where for each atomic instruction the decision table has the way Inline,
/// PairLoop or Masked.
pub fn direct_modules_are_expanded()
    ensures { DirectModulesAreExpanded }
{
    direct_code_is_expanded::<Meant>();
    plain_accesses_are_expanded::<Meant>();
    selected_lines_are_small();
    selected_operations_are_at_sites();
}

/// And so the image of its selected code with these expansions lowers it, where it calls no routine
/// (*Agreement*): for all lists of entries and all lists of events.
pub fn direct_images_lower()
    ensures { DirectImagesLower }
{
    direct_modules_are_expanded();
    rv_images_lower();
}
