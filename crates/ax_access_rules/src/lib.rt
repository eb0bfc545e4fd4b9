//! What accesses of a module can be refused for: their orders, widths and alignments, plain accesses to locked objects, and allocas.
#![tactic(auto)]

pub mod alignment;
pub mod allocas;
pub mod mixed;
pub mod orders;
