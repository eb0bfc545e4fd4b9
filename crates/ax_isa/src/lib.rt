//! Processors, effects of instructions, images, and the machine run.
#![tactic(auto)]

mod cpu;
mod effects;
mod images;
mod isa;
mod locked;
mod marks;
mod numbers;
mod performing;
mod place;
mod pseudo;
mod registers;
mod shown;
mod tell;

pub use ax_tags::{Role, Tag};
pub use cpu::{Cpu, Status};
pub use effects::{Back, Change, Effect, Outcome, Rest, Saved};
pub use images::{Image, RoutineRange, SiteRange};
pub use isa::Isa;
pub use marks::access_mark;
pub use numbers::{displaced, extended_by_sign, shifted_by_sign, signed};
pub use performing::step_effect;
pub use place::{at_place, flushes, step};
pub use pseudo::Pseudo;
pub use shown::Shown;
