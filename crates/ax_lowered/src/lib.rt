//! A program that was lowered: its image, and the names of its functions.
#![tactic(auto)]

mod lowered;
mod names;

pub use ax_isa::Image;
pub use ax_module::Name;
pub use ax_target::Target;
pub use lowered::{Code, Lowered};
pub use names::{function_names, global_names};
