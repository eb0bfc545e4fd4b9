//! The words that all layers share: widths, orders, operations, routines, marks, places of a module, events, and the list type `Items`.
#![tactic(auto)]

pub mod event;
pub mod items;
pub mod mark;
pub mod operation;
pub mod order;
pub mod place;
pub mod routine;
pub mod source;
pub mod width;

pub use event::Event;
pub use items::Items;
pub use mark::{FenceCode, Mark, MarkCode, Op};
pub use operation::RmwOp;
pub use order::{Access, Order, abi_number, from_abi, legal, merged};
pub use place::{Place, Site};
pub use routine::RoutineName;
pub use source::{SourceEvent, SourceStatus};
pub use width::Width;
