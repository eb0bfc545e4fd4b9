//! Refusals, and why a module is not accepted.

ghost use Rattle.std.specs.Prelude.{◌≡◌};
ghost use Rattle.ax_check.specs.declared.refusal.CheckFault.{CheckFault};

use ax_words::Place;
use std::alloc::AllocError;
use thiserror::Error;

/// The number of a rule, from 1 to 12, and where it is broken.
#[derive(Clone, Copy, Debug)]
pub struct Refusal {
    pub number: u8,
    pub place: Place,
}

/// Why a module is not accepted.
#[derive(Clone, Copy, Debug, Error)]
pub enum CheckFault {
    /// The module has faults on the target; this is the first, in module order and then by number.
    #[error("the module is refused")]
    Refused(Refusal),
    /// Memory ran out.
    #[error("memory ran out")]
    Memory,
}

impl From<AllocError> for CheckFault {
    ghost from_gives = { λ _ fault. fault ≡ CheckFault.Memory };

    fn from(_error: AllocError) -> CheckFault {
        CheckFault::Memory
    }
}
