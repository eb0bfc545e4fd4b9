//! Loops that replace a number in memory without a lock: each is an expansion of an operation,
//! over any instruction set.
#![tactic(auto)]

mod laws;

pub use laws::{
    ReplacedNumber, compare_loop_expands, pair_exchange_expands, retry_loop_expands,
    wide_loop_expands,
};
