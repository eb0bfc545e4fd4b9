//! Values of a width as words, and what the operations on them leave.
#![tactic(auto)]

pub mod bits;
pub mod laws;
pub mod operation;

pub use bits::Bits;
pub use laws::results_fit;
pub use operation::apply;
