//! AArch64 code of middle code.
#![tactic(auto)]

mod accesses;
mod computed;
mod emitter;
mod jumps;
mod laws;
mod operations;
mod parts;
mod slots;

pub use emitter::ArmEmitter;
pub use laws::{arm_code_follows, arm_line_follows, line_code_is_steady};
pub use operations::OperationEmitter;
pub use parts::{Piece, push_acting, push_silent};
