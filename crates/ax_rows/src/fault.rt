//! Why a row has no answer.

use std::alloc::{AllocError, AllocFailed};
use std::num::{ParseIntError, TryFromIntError};

/// Why a row has no answer.
#[derive(Clone, Copy, Drop)]
pub enum Fault {
    /// It names no call, or what is passed is nothing that the call takes.
    Row,
    /// Memory was wanting.
    Memory,
}

impl From<AllocError> for Fault {
    fn from(_e: AllocError) -> Fault {
        Fault::Memory
    }
}

impl<T: Drop> From<AllocFailed<T>> for Fault {
    fn from(_e: AllocFailed<T>) -> Fault {
        Fault::Memory
    }
}

impl From<ParseIntError> for Fault {
    fn from(_e: ParseIntError) -> Fault {
        Fault::Row
    }
}

impl From<TryFromIntError> for Fault {
    fn from(_e: TryFromIntError) -> Fault {
        Fault::Row
    }
}
