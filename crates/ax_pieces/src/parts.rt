//! The parts of an instruction, as its code takes them.

use ax_module::{Operand, Ty};

/// Two operands of a type.
#[derive(Clone, Copy)]
pub struct Operands {
    pub ty: Ty,
    pub a: Operand,
    pub b: Operand,
}

/// A test, and the operands between which it chooses, each with its type.
#[derive(Clone, Copy)]
pub struct Choice {
    pub test: Operand,
    pub ty: Ty,
    pub a: Operand,
    pub other: Ty,
    pub b: Operand,
}

/// An operand, the type that it has and the one that it gets.
#[derive(Clone, Copy)]
pub struct Conversion {
    pub ty: Ty,
    pub a: Operand,
    pub to: Ty,
}

/// The block from which an edge leads, and the one to which it leads.
#[derive(Clone, Copy)]
pub struct Edge {
    pub from: u32,
    pub to: u32,
}

/// A test, the block that it ends, and the blocks to which it leads if it holds and if not.
#[derive(Clone, Copy)]
pub struct Branch {
    pub test: Operand,
    pub from: u32,
    pub if_true: u32,
    pub if_false: u32,
}
