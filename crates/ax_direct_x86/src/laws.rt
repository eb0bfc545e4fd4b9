//! What holds of modules for x86-64 that need no routine.

ghost use Rattle.ax_source_run.specs.SourceState.{SourceProgram};
ghost use Rattle.ax_mid.specs.declared.registers.Virtual.{Virtual};
ghost use Rattle.ax_image_x86.specs.Image.{x86_program};
ghost use Rattle.ax_direct_x86.specs.Direct.{DirectX86ImagesLower, DirectX86ModulesAreExpanded};

use ax_cas::{ProgramOnBytes, plain_accesses_are_expanded, x86_code_is_expanded};
use ax_image_x86::x86_images_lower;
use ax_selected::{selected_lines_are_small, selected_operations_are_at_sites};

/// The selected code of modules, over the bytes that all processors share.
pub struct Meant;

impl ProgramOnBytes for Meant {
    ghost Register = { Virtual };

    ghost Case = { SourceProgram };

    ghost program = { λ program. x86_program program };
}

/// Of an accepted module for x86-64 that needs no routine each plain access and each atomic operation
/// has an expansion that meets its contract.
pub fn direct_x86_modules_are_expanded()
    ensures { DirectX86ModulesAreExpanded }
{
    x86_code_is_expanded::<Meant>();
    plain_accesses_are_expanded::<Meant>();
    selected_lines_are_small();
    selected_operations_are_at_sites();
}

/// And so the image of its selected code with these expansions lowers it (*Agreement*): for all lists
/// of entries and all lists of events, whatever waits in store buffers.
pub fn direct_x86_images_lower()
    ensures { DirectX86ImagesLower }
{
    direct_x86_modules_are_expanded();
    x86_images_lower();
}
