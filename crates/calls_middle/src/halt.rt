//! Why the middle machine does not go on.

use std::alloc::{AllocError, AllocFailed};

/// Why the middle machine does not go on.
#[derive(Clone, Copy, Drop)]
pub(crate) enum Halt {
    /// The event of the line at which its processor stands cannot be.
    Stuck,
    /// Memory was wanting.
    Memory,
}

impl From<AllocError> for Halt {
    fn from(_e: AllocError) -> Halt {
        Halt::Memory
    }
}

impl<T: Drop> From<AllocFailed<T>> for Halt {
    fn from(_e: AllocFailed<T>) -> Halt {
        Halt::Memory
    }
}
