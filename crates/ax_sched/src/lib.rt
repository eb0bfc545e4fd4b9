//! Schedules: which processors a run has, and which events it makes in which order.
#![tactic(auto)]

mod directive;
pub mod events;
mod fault;
mod first_line;
pub mod generator;
pub mod glance;
mod line;
mod number;
mod plan;
pub mod policy;
mod schedule;

pub use ax_module::Module;
pub use ax_target::Target;
pub use ax_words::{Event, Items};
pub use events::{random_event, round_event};
pub use fault::{Cause, SchedFault};
pub use generator::mix;
pub use glance::Glance;
pub use plan::{Item, Plan};
pub use policy::Policy;
pub use schedule::read_schedule;
