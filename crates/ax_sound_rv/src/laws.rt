//! What holds of each image of a module for RV64 whose atomic instructions are single instructions or
//! loops of a linked load and a pair store.

ghost use Rattle.ax_sound_rv.specs.Short.{DirectImagesAreShort};
ghost use Rattle.ax_sound_rv.specs.Sound.{DirectImagesAreSound};

use ax_emit_rv::line_code_is_steady;
use ax_llsc::direct_code_is_steady;
use ax_mid::Virtual;
use ax_rv::Rv64;
use ax_sound::{images_are_short, images_are_sound};

/// Of each accepted module that is built the code has fewer than 2 ^ 31 instructions, so that every
/// place of it is a number of 31 bits, and every distance between two of them one that a jump can
/// have.
pub fn direct_images_are_short()
    ensures { DirectImagesAreShort }
{
    line_code_is_steady::<Virtual>();
    direct_code_is_steady();
    images_are_short::<Rv64>();
}

/// And its image is sound, with a name for each function: registers and numbers are in their ranges,
/// each jump leads to a place of the code, sites have ranges of places and rise, and each function has
/// an entry and a frame.
pub fn direct_images_are_sound()
    ensures { DirectImagesAreSound }
{
    line_code_is_steady::<Virtual>();
    direct_code_is_steady();
    images_are_sound::<Rv64>();
}
