//! Why a text is no schedule.

ghost use Rattle.ax_sched.specs.declared.fault.SchedFault.TheVariants.{Memory};
ghost use Rattle.ax_sched.specs.declared.fault.ScheduleStop.TheVariants as stop;

use std::alloc::{AllocError, AllocFailed};
use thiserror::Error;

/// What is wrong with a line. Of several causes on one line the first in this order counts.
#[derive(Clone, Copy, Debug)]
pub enum Cause {
    /// It is no line of a schedule in its place.
    Syntax,
    /// There are not 1 to 8 processors, or the processor is none of them.
    ProcessorRange,
    /// It names a function that the module doesn't have.
    UnknownEntry,
    /// It names an object that the module doesn't have.
    UnknownObject,
    /// With it there are more than 1,000,000 events.
    TooMany,
}

/// Why a text is no schedule. Lines are counted from 1.
#[derive(Clone, Copy, Debug, Error)]
pub enum SchedFault {
    /// The first bad line, and what is wrong with it.
    #[error("line {line} of the schedule is bad: {cause:?}")]
    Bad { line: u32, cause: Cause },
    /// Memory ran out.
    #[error("memory ran out")]
    Memory,
}

impl From<AllocError> for SchedFault {
    ghost use Rattle.std.specs.Prelude.{◌≡◌};

    ghost from_gives = { λ _ e. e ≡ Memory };

    fn from(_e: AllocError) -> SchedFault {
        SchedFault::Memory
    }
}

impl<T: Drop> From<AllocFailed<T>> for SchedFault {
    ghost use Rattle.std.specs.Prelude.{◌≡◌};

    ghost from_gives = { λ _ e. e ≡ Memory };

    fn from(_e: AllocFailed<T>) -> SchedFault {
        SchedFault::Memory
    }
}

/// Why a line isn't read.
#[derive(Clone, Copy, Drop)]
pub enum ScheduleStop {
    Bad(Cause),
    Memory,
}

impl From<Cause> for ScheduleStop {
    ghost use Rattle.std.specs.Prelude.{◌≡◌};

    ghost from_gives = { λ c e. e ≡ stop.Bad c };

    fn from(cause: Cause) -> ScheduleStop {
        ScheduleStop::Bad(cause)
    }
}

impl From<AllocError> for ScheduleStop {
    ghost use Rattle.std.specs.Prelude.{◌≡◌};

    ghost from_gives = { λ _ e. e ≡ stop.Memory };

    fn from(_e: AllocError) -> ScheduleStop {
        ScheduleStop::Memory
    }
}

impl<T: Drop> From<AllocFailed<T>> for ScheduleStop {
    ghost use Rattle.std.specs.Prelude.{◌≡◌};

    ghost from_gives = { λ _ e. e ≡ stop.Memory };

    fn from(_e: AllocFailed<T>) -> ScheduleStop {
        ScheduleStop::Memory
    }
}
