//! The rows of images on RV64.

ghost use Rattle.ax_marks_rv.specs.Marked.{DirectImagesHaveRows};

use ax_llsc::direct_code_expands;
use ax_selected::selected_code_is_formed;

/// On RV64 the image of each accepted module whose atomic instructions are single instructions or loops
/// of a linked load and a pair store, of the object or of the word that holds it, and which calls no
/// routine, has its rows (*Skeleton and rows*):
/// each instruction but a phi has a range, whose memory and fence instructions are the row of the mapping
/// table, and no other code has any; a range is entered at its first place alone, and nothing leads out
/// of the code of a fence or of an atomic instruction without a loop, or over its row.
pub fn direct_images_have_rows()
    ensures { DirectImagesHaveRows }
{
    direct_code_expands();
    selected_code_is_formed();
}
