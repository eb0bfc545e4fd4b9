//! The top call: words, files and a sink in, the answer out.
#![tactic(auto)]

pub mod built;
mod command;
pub mod done;
mod judge;
mod places;
mod report_lines;
mod text;
pub mod top;
pub mod verdict;

pub use done::Done;
pub use text::report;
pub use top::serve;
pub use verdict::{Part, Verdict};
