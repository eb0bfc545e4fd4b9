//! What holds of images on RV64.

ghost use Rattle.ax_source_run.specs.SourceState.{SourceProgram};
ghost use Rattle.ax_mid.specs.declared.registers.Virtual.{Virtual};
ghost use Rattle.ax_expand.specs.Shared.{Shared};
ghost use Rattle.ax_rv.specs.Instructions.{rv_kind};
ghost use Rattle.ax_image_rv.specs.Image.{RvImagesLower, RvModule, is_fixed, rv_coding, rv_program};

use ax_emit::MiddleProgram;
use ax_emit_rv::rv_code_follows;
use ax_image::{CodedModule, following_images_lower};
use ax_rv::RvInstr;
use ax_selected::selected_lines_are_small;

/// The selected code of modules, and what it means.
pub struct Selected;

impl MiddleProgram for Selected {
    ghost Register = { Virtual };

    ghost World = { Shared };

    ghost Case = { SourceProgram };

    ghost program = { λ program. rv_program program };
}

/// The machine code of modules.
pub struct Emitted;

impl CodedModule for Emitted {
    type Instr = RvInstr;

    ghost Case = { RvModule };

    ghost kind = { rv_kind };

    ghost fixed = { is_fixed };

    ghost coding = { λ m. rv_coding m.program m.expansions };

    ghost program = { λ m. m.program };

    ghost most = { λ m. m.most };
}

/// On RV64 the image of an accepted module's selected code lowers the module, where the module needs no
/// routine and each of its atomic operations has an expansion that meets its contract: for all lists of
/// entries and all lists of events, with reservations that may vanish at any step (*Agreement*).
pub fn rv_images_lower()
    ensures { RvImagesLower }
{
    rv_code_follows::<Selected>();
    following_images_lower::<Emitted>();
    selected_lines_are_small();
}
