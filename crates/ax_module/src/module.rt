//! Modules.

use crate::inst::Inst;
use crate::names::Name;
use crate::operand::Operand;
use crate::types::Ty;
use ax_words::Items;

/// A global variable (LLVM Language Reference, Global Variables).
///
/// `count` is the number of its elements, 1 where it is no array. `init` has a constant for each
/// element and is empty where all are zero. `align` is in bytes.
#[derive(Drop)]
pub struct Global {
    pub name: Name,
    pub elem: Ty,
    pub count: u64,
    pub align: Option<u64>,
    pub init: Items<Operand>,
}

/// Instructions without a jump into their midst: phis first, and a terminator last.
#[derive(Drop)]
pub struct Block {
    pub insts: Items<Inst>,
}

/// A function that is defined (LLVM Language Reference, Functions). `result` is `I1` where
/// `is_void` holds.
///
/// Its instructions are numbered from 0, block after block, and an instruction's number names its
/// result.
#[derive(Drop)]
pub struct Function {
    pub name: Name,
    pub result: Ty,
    pub is_void: bool,
    pub params: Items<Ty>,
    pub blocks: Items<Block>,
}

/// A module: its globals and its functions, in the order of its text.
#[derive(Drop)]
pub struct Module {
    pub globals: Items<Global>,
    pub functions: Items<Function>,
}
