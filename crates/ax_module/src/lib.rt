//! Modules of LLVM's text as data, and which of them are well formed.
#![tactic(auto)]

pub mod inst;
pub mod laws;
pub mod module;
pub mod names;
pub mod operand;
pub mod types;

pub use inst::{BinOp, Cast, Inst, Pred};
pub use laws::names_are_ascii;
pub use module::{Block, Function, Global, Module};
pub use names::Name;
pub use operand::{Addr, Arg, Base, Operand};
pub use types::Ty;
