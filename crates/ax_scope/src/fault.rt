//! Why lines are no module.

use std::alloc::{AllocError, AllocFailed};
use thiserror::Error;

/// Why lines are no module.
#[derive(Clone, Copy, Debug, Error)]
pub enum ScopeFault {
    /// The first line whose names don't fit, counted from 1.
    #[error("line {line} has a name that does not fit")]
    Name { line: usize },
    /// Memory ran out.
    #[error("memory ran out")]
    Memory,
}

impl From<AllocError> for ScopeFault {
    ghost use Rattle.std.specs.Prelude.{◌≡◌};
    ghost use Rattle.ax_scope.specs.declared.fault.ScopeFault.TheVariants.{Memory};

    ghost from_gives = { λ _ e. e ≡ Memory };

    fn from(_e: AllocError) -> ScopeFault {
        ScopeFault::Memory
    }
}

impl<T: Drop> From<AllocFailed<T>> for ScopeFault {
    ghost use Rattle.std.specs.Prelude.{◌≡◌};
    ghost use Rattle.ax_scope.specs.declared.fault.ScopeFault.TheVariants.{Memory};

    ghost from_gives = { λ _ e. e ≡ Memory };

    fn from(_e: AllocFailed<T>) -> ScopeFault {
        ScopeFault::Memory
    }
}

/// Why a line is not resolved.
#[derive(Clone, Copy, Drop)]
pub enum NameStop {
    /// A name does not fit: it stands for nothing, or is declared again.
    Name,
    Memory,
}

impl From<AllocError> for NameStop {
    ghost use Rattle.std.specs.Prelude.{◌≡◌};
    ghost use Rattle.ax_scope.specs.declared.fault.NameStop.TheVariants as stop;

    ghost from_gives = { λ _ e. e ≡ stop.Memory };

    fn from(_e: AllocError) -> NameStop {
        NameStop::Memory
    }
}

impl<T: Drop> From<AllocFailed<T>> for NameStop {
    ghost use Rattle.std.specs.Prelude.{◌≡◌};
    ghost use Rattle.ax_scope.specs.declared.fault.NameStop.TheVariants as stop;

    ghost from_gives = { λ _ e. e ≡ stop.Memory };

    fn from(_e: AllocFailed<T>) -> NameStop {
        NameStop::Memory
    }
}
