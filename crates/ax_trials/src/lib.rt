//! Trials: pieces of RV64, x86-64 and AArch64 code that are expansions of atomic operations.
#![tactic(auto)]

mod laws;

pub use laws::{
    buffered_store_expands, compare_exchange_by_pair_expands, exchange_wide_by_pair_expands,
    fetch_and_add_by_pair_expands, full_fence_expands, locked_addition_expands,
    nand_by_compare_expands, nand_by_swap_expands, wrong_exchanges_are_refused,
    wrong_pieces_are_refused,
};
