//! What holds of the runs of images for RV64 whose atomic operations have code of their own.

ghost use Rattle.ax_idle_rv.specs.Idle.{DirectImagesNeverIdle};

use ax_check::laws::accepted_functions_are_within_limits;
use ax_selected::selected_lines_are_small;

/// In a run of the image of an accepted module with these expansions no processor makes 4,096 steps in
/// a row of which none gives an Act or is a caused failure (*Idle window*): for all lists of entries
/// and all lists of events.
pub fn direct_images_never_idle()
    ensures { DirectImagesNeverIdle }
{
    selected_lines_are_small();
    accepted_functions_are_within_limits();
}
