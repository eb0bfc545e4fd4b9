//! What a step at a place shows.

use crate::effects::Outcome;
use ax_words::SourceEvent;

/// The outcome of a step's effect, and the source event of its tag.
#[derive(Clone, Copy)]
pub struct Shown {
    pub outcome: Outcome,
    pub gives: Option<SourceEvent>,
}
