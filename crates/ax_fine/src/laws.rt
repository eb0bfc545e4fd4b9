//! What holds of the fine middle machine.

ghost use Rattle.ax_fine.specs.Near.{FineRunsFit, FineRunsInStep};

use ax_ops::results_fit;

/// After every list of events the fine machine, which runs one line a step over bytes, is near the
/// one-step machine, which runs from event to event over numbers, under the source events that it gives:
/// the bytes of each element spell its number, the stores that wait are the same, outputs are equal, and
/// each running processor is on its way to the event that the other one's makes next.
///
/// And what its code asks holds in every state that it reaches: numbers fit registers, and each access
/// is to an object or to the own frame.
pub fn fine_machine_runs_in_step<R>()
    ensures step { FineRunsInStep R }
    ensures fits { FineRunsFit R }
{
    results_fit();
}
