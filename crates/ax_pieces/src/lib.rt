//! The middle code of instructions that compute, and of edges.
#![tactic(auto)]

mod comparing;
mod computing;
mod converting;
mod edges;
mod ends;
pub mod labels;
pub mod lines;
pub mod parts;
mod shifting;

pub use comparing::push_icmp;
pub use computing::push_bin;
pub use converting::{push_convert, push_extract, push_select};
pub use edges::{push_branch, push_edge};
pub use ends::{push_fence, push_lone, push_out};
pub use labels::{block_label, first_label, second_label};
pub use lines::{
    Code, acting, apply, copy, flag_of, high_into, high_of, is_narrow, low_into, low_of,
    push_silent, push_straight, silent,
};
pub use parts::{Branch, Choice, Conversion, Edge, Operands};
