//! The events of a machine run.

/// One event of a machine: a step of a processor, the oldest store of its buffer going to memory,
/// or the loss of its reservation. Processors are counted from 0.
#[derive(Clone, Copy)]
pub enum Event {
    Step(u8),
    Drain(u8),
    Drop(u8),
}
