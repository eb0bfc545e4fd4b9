//! The events of the source machine and the statuses of its processors.

/// One event of the source machine, by the number of the processor that it happens to.
///
/// `Act` runs one instruction. `Look` remembers the object's number at a weak compare-exchange, and
/// `Miss` lets that exchange fail. `Drain` writes the oldest pending store to its object.
#[derive(Clone, Copy)]
pub enum SourceEvent {
    Act(u8),
    Look(u8),
    Miss(u8),
    Drain(u8),
}

/// Whether a processor of the source machine still runs, has returned, or was stopped by a trap.
#[derive(Clone, Copy)]
pub enum SourceStatus {
    Running,
    Ended,
    Trapped,
}
