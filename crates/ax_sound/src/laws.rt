//! What holds of each image of a module that needs no routine, whose instruction set brings sound
//! pieces of code.

ghost use Rattle.ax_sound.specs.Laws.{ImagesAreShort, ImagesAreSound};

use ax_check::laws::accepted_functions_are_within_limits;
use ax_formed::selected_code_is_well_formed;
use ax_isa::Isa;
use ax_selected::selected_lines_are_small;

/// Where the pieces of code are sound, the code of an accepted module that needs no routine has fewer
/// than 2 ^ 31 instructions, so that every place of it is a number of 31 bits, and every distance
/// between two of them one that a jump can have.
pub fn images_are_short<I: Isa>()
    ensures { ImagesAreShort I.kind I.valid }
{
    accepted_functions_are_within_limits();
    selected_lines_are_small();
    selected_code_is_well_formed();
}

/// And its image is sound, with a name for each function: registers and numbers are in their ranges,
/// each jump leads to a place of the code, sites have ranges of places and rise, and each function has
/// an entry and a frame.
pub fn images_are_sound<I: Isa>()
    ensures { ImagesAreSound I.kind I.valid }
{
    accepted_functions_are_within_limits();
    selected_lines_are_small();
    selected_code_is_well_formed();
}
