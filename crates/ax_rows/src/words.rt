//! Orders and operations by their words in LLVM's text.

use crate::fault::Fault;
use ax_words::{Order, RmwOp};

/// All orders.
pub const ORDERS: [Order; 6] = [
    Order::Unordered,
    Order::Monotonic,
    Order::Acquire,
    Order::Release,
    Order::AcqRel,
    Order::SeqCst,
];

const OPERATIONS: [RmwOp; 11] = [
    RmwOp::Xchg,
    RmwOp::Add,
    RmwOp::Sub,
    RmwOp::And,
    RmwOp::Nand,
    RmwOp::Or,
    RmwOp::Xor,
    RmwOp::Max,
    RmwOp::Min,
    RmwOp::UMax,
    RmwOp::UMin,
];

/// The order of a word.
pub fn order(word: &str) -> Result<Order, Fault> {
    let found = ORDERS.iter().copied().find(|order| order.word() == word);
    found.ok_or(Fault::Row)
}

/// The read-modify-write of a word.
pub fn operation(word: &str) -> Result<RmwOp, Fault> {
    let found = OPERATIONS.iter().copied().find(|op| op.word() == word);
    found.ok_or(Fault::Row)
}
