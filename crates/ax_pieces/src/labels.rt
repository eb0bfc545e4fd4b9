//! Labels, four for each instruction of a function.

ghost use Rattle.std.specs.Prelude.{◌≡◌, ◌<◌, ◌≤◌};
ghost use Rattle.ax_selected.specs.Registers.{block_label, first_label, second_label};

use ax_words::Site;

/// The label of the block that an instruction begins.
pub fn block_label(function: u32, instruction: u32) -> u32
    requires function { function < 64 }
    requires instruction { instruction ≤ 2048 }
    ensures { result ≡ block_label function instruction }
{
    8192 * function + 4 * instruction
}

/// The first label within an instruction's own code.
pub fn first_label(site: Site) -> u32
    requires function { site.function < 64 }
    requires instruction { site.instruction < 2048 }
    ensures { result ≡ first_label site.function site.instruction }
{
    8192 * site.function + 4 * site.instruction + 1
}

/// The second one.
pub fn second_label(site: Site) -> u32
    requires function { site.function < 64 }
    requires instruction { site.instruction < 2048 }
    ensures { result ≡ second_label site.function site.instruction }
{
    8192 * site.function + 4 * site.instruction + 2
}
