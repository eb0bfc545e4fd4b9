//! Rows of calls: each names a call of a lower crate, what is passed to it, and what it answers.
//!
//! A program of calls reads files of rows and writes a line for each group of them. A row is
//!
//! ```text
//! CALL WORD.. => ANSWER
//! CALL WORD.. | TEXT => ANSWER
//! ```
//!
//! A word `<FILE` stands for the text that the file holds. In a text behind `|` the escapes `\n`,
//! `\t`, `\r` and `\xHH` stand for one byte each. A line `group NAME` begins a group; an empty
//! line, and one that begins with `#`, counts for nothing.
#![tactic(auto)]

mod fault;
mod group;
mod runner;
mod texts;
mod words;

pub use fault::Fault;
pub use runner::{Calls, run};
pub use texts::{number, one, token};
pub use words::{ORDERS, operation, order};
