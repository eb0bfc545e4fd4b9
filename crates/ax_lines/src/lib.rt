//! The lines of a module's text, read by a grammar: what each line states.
#![tactic(auto)]

mod arithmetic;
mod block;
mod calls;
mod control;
mod fault;
mod items;
mod lines;
mod listing;
mod memory;
mod operand;
mod outer;
mod place;
mod statement;

pub use fault::LineFault;
pub use lines::read_lines;
pub use statement::{Argument, Line, Path, Pointer, Section, Statement};
