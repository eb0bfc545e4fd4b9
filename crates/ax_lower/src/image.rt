//! The image of a module's middle code.

ghost use Rattle.std.specs.Prelude.{◌≡◌, IfOk, true};
ghost use Rattle.ax_direct_rv.specs.Direct.{direct_image, is_built};
ghost use Rattle.ax_selected.specs.Selected.{selected};

use ax_check::Accepted;
use ax_check::laws::accepted_functions_are_within_limits;
use ax_emit::{Labels, same_code_is_one_image, same_sizes_are_one_place};
use ax_emit_rv::{RvEmitter, line_code_is_steady};
use ax_isa::Image;
use ax_llsc::{DirectOperations, direct_code_is_steady};
use ax_mid::{Mid, Virtual};
use ax_rv::RvInstr;
use ax_selected::selected_lines_are_small;
use ax_sound_rv::direct_images_are_short;
use std::alloc::{AllocError, Global};

/// The bytes of a frame below its stack pointer: the slots of registers, and those of allocas.
const FRAME_DEPTH: u64 = 98_432;

/// The bytes of a frame, with the stack pointer's own word.
const FRAME_BYTES: u64 = 98_440;

/// The image of the middle code of an accepted module that is built.
pub(crate) fn image_of(
    alloc: Global,
    a: &Accepted,
    middle: &Mid<Virtual>,
) -> Result<Image<RvInstr>, AllocError>
    requires built { is_built a.now ≡ true }
    requires middle { middle.now ≡ selected a.now }
    ensures { IfOk result (λ image. image ≡ direct_image a.now) }
{
    a.is_without_faults();
    accepted_functions_are_within_limits();
    selected_lines_are_small();
    direct_images_are_short();
    line_code_is_steady::<Virtual>();
    direct_code_is_steady();
    same_code_is_one_image::<RvInstr, Virtual>();
    same_sizes_are_one_place::<Virtual>();
    let lines = middle.lines.as_slice();
    let functions = a.module().functions.as_slice();
    let labels = Labels::of(alloc, lines)?;
    let operations = DirectOperations { target: a.target() };
    let emitter = RvEmitter {
        depth: FRAME_DEPTH,
        labels: &labels,
        operations,
    };
    let image = ax_image::image_of(alloc, &emitter, lines, &labels, functions, FRAME_BYTES)?;
    Ok(image)
}
