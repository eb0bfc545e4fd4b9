//! What the shape of one point of a module can be refused for, and what the tests of its accesses ask of it.
#![tactic(auto)]

pub mod calls;
pub mod constants;
pub mod facts;
pub mod kind;
pub mod limits;
pub mod parts;
pub mod rule;
pub mod scope;
pub mod types;
pub mod width;

pub use facts::{Extent, FunctionScope, Origin, Outcome, Parts, Shape};
pub use rule::Rule;
