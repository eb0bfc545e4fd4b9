//! The checker: a module is refused exactly by its list of faults.
#![tactic(auto)]

pub mod accepted;
pub mod defined;
pub mod exits;
pub mod facts;
pub mod faults;
pub mod laws;
pub mod phis;
pub mod refusal;
pub mod walks;

pub use accepted::{Accepted, check};
pub use refusal::{CheckFault, Refusal};
