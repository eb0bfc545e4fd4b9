//! The texts that the program prints: the assembly of a lowered program, and the lines of a report.
#![tactic(auto)]

pub mod assembly;
pub mod lines;
pub mod report;
mod spelled;
pub mod tokens;

pub use assembly::print;
pub use report::{
    push_end, push_head, push_held, push_lock, push_machine, push_object, push_output,
    push_outputs, push_processor, push_source,
};
pub use spelled::Spelled;
