//! Atomic operations before they are expanded.

use ax_words::{Op, Order, Width};

/// An atomic operation over machine registers, named by their numbers: the register with the
/// address, those of the operands and of the results, and those that its code may use besides. A
/// number of 16 bytes takes two registers, low first.
#[derive(Clone, Copy)]
pub struct Pseudo {
    pub op: Op,
    pub width: Width,
    pub order: Order,
    pub weak: bool,
    pub address: u8,
    pub args: [u8; 4],
    pub results: [u8; 3],
    pub scratch: [u8; 6],
}
