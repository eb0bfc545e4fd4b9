//! The targets and the mapping table: which way an operation is lowered, and with which
//! instructions.
#![tactic(auto)]

mod arm_rows;
mod calls;
pub mod decision;
mod endings;
pub mod rows;
mod rv_rows;
pub mod table;
pub mod target;
mod x86_rows;

pub use ax_words::{Mark, Op};
pub use decision::{Way, decide};
pub use rows::row;
pub use table::{
    ArmLse, ArmPlain, RvPlain, TargetTable, X86Cx16, X86Plain, buffered, max_native, pairs,
};
pub use target::{Target, named};
