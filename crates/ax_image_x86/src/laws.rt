//! What holds of images on x86-64.

ghost use Rattle.ax_source_run.specs.SourceState.{SourceProgram};
ghost use Rattle.ax_mid.specs.declared.registers.Virtual.{Virtual};
ghost use Rattle.ax_expand.specs.Shared.{Shared};
ghost use Rattle.ax_x86.specs.Instructions.{x86_kind};
ghost use Rattle.ax_image_x86.specs.Image.{X86ImagesLower, X86Module, is_fixed, x86_coding, x86_program};

use ax_emit::MiddleProgram;
use ax_emit_x86::x86_code_follows;
use ax_image::{CodedModule, following_images_lower};
use ax_selected::selected_lines_are_small;
use ax_x86::X86Instr;

/// The selected code of modules, and what it means.
pub struct Selected;

impl MiddleProgram for Selected {
    ghost Register = { Virtual };

    ghost World = { Shared };

    ghost Case = { SourceProgram };

    ghost program = { λ program. x86_program program };
}

/// The machine code of modules.
pub struct Emitted;

impl CodedModule for Emitted {
    type Instr = X86Instr;

    ghost Case = { X86Module };

    ghost kind = { x86_kind };

    ghost fixed = { is_fixed };

    ghost coding = { λ m. x86_coding m.program m.expansions };

    ghost program = { λ m. m.program };

    ghost most = { λ m. m.most };
}

/// On x86-64 the image of an accepted module's selected code lowers the module, where the module needs no
/// routine and each of its atomic operations has an expansion that meets its contract: for all lists of
/// entries and all lists of events, whatever waits in store buffers (*Agreement*).
pub fn x86_images_lower()
    ensures { X86ImagesLower }
{
    x86_code_follows::<Selected>();
    following_images_lower::<Emitted>();
    selected_lines_are_small();
}
