//! What holds of every run of the source machine.

ghost use Rattle.ax_source_run.specs.SourceLaws.{LeaveOthers, NothingWaits, SeeOwnStores, StayStopped};

/// A processor loads what its objects will have once its stores reach them. An event changes no
/// processor but its own, and a processor that has stopped stays as it is but for its stores that
/// wait. Where the target has no buffers no store ever waits.
pub fn source_runs_hold()
    ensures own { SeeOwnStores }
    ensures others { LeaveOthers }
    ensures stopped { StayStopped }
    ensures unbuffered { NothingWaits }
{}
