//! Middle code, and the middle machine that runs it.
#![tactic(auto)]

pub mod builder;
pub mod code;
pub mod instruction;
pub mod registers;

pub use builder::Builder;
pub use code::{Line, Mid, MidGlobal};
pub use instruction::{MidInst, MidOp, MidShift};
pub use registers::{Physical, Virtual};
