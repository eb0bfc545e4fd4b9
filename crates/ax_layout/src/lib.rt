//! Where the globals of a module lie, which objects are native on a target, and which locks guard
//! the others.
#![tactic(auto)]

pub mod address_range;
pub mod classes;
pub mod layout;
pub mod locks;
pub mod objects;
pub mod regions;

pub use classes::Class;
pub use layout::Layout;
pub use locks::lock_index;
pub use objects::class;
