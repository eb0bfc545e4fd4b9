//! The run of a lowered program over the events of a plan, and the source events that explain it.
#![tactic(auto)]

mod globals;
mod machine;
mod memory;
mod objects;
mod run;
mod start;
mod waiting;

pub use ax_check::Accepted;
pub use ax_isa::{Image, Status};
pub use ax_lowered::{Code, Lowered};
pub use ax_sched::Plan;
pub use ax_words::{Event, SourceEvent};
pub use run::{Run, prepare};
