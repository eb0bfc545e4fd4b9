//! x86-64 code of middle code.
#![tactic(auto)]

mod accesses;
mod computed;
mod emitter;
mod jumps;
mod laws;
mod operations;
mod parts;
mod slots;

pub use emitter::X86Emitter;
pub use laws::{line_code_is_steady, x86_code_follows, x86_line_follows};
pub use operations::OperationEmitter;
pub use parts::{Piece, push_acting, push_silent};
