//! What a policy sees.

ghost use Rattle.std.specs.Prelude.{◌≡◌};

/// What a policy sees of a run before an event of its directive: the event's number, counted from 0,
/// how many processors there are, and of each which is running, has a reservation or holds a lock.
#[derive(Clone, Copy)]
pub struct Glance {
    pub number: u64,
    pub processors: u8,
    pub running: [bool; 8],
    pub linked: [bool; 8],
    pub holding: [bool; 8],
}

impl Glance {
    /// The Glance of an event's number and a number of processors alone.
    pub fn unseen(number: u64, processors: u8) -> Glance
        ensures number { result.number ≡ number }
        ensures processors { result.processors ≡ processors }
    {
        Glance {
            number,
            processors,
            running: [false; 8],
            linked: [false; 8],
            holding: [false; 8],
        }
    }
}
