//! What the tests look up: the results of a function's instructions, and the parts of one.

use ax_module::{Addr, Base, Operand, Ty};
use ax_words::Items;

/// The elements of a global or of an alloca: of which type, and how many.
#[derive(Clone, Copy)]
pub struct Extent {
    pub elem: Ty,
    pub count: u64,
}

/// What an instruction's result is.
///
/// The pair of a compare-exchange is told by the type of its first part, the address of an alloca by
/// its elements, and a getelementptr by its base, its element type, the type of its index and the
/// index.
#[derive(Clone, Copy)]
pub enum Outcome {
    Nothing,
    Number(Ty),
    Pair(Ty),
    Alloca(Extent),
    Gep(Base, Ty, Ty, Operand),
}

/// What a pointer comes from: a global, the alloca of an instruction, or neither.
#[derive(Clone, Copy)]
pub enum Origin {
    Global(u32),
    Alloca(u32),
    Neither,
}

/// What the instructions of a function can name: the globals of its module by their elements, its
/// parameters by their types, and the results of its instructions.
#[derive(Drop)]
pub struct FunctionScope {
    pub globals: Items<Extent>,
    pub params: Items<Ty>,
    pub outcomes: Items<Outcome>,
}

/// The types that stand in an instruction, its operands that are numbers, each with the type that it
/// has to have, and its pointers.
#[derive(Drop)]
pub struct Parts {
    pub types: Items<Ty>,
    pub operands: Items<(Ty, Operand)>,
    pub pointers: Items<Addr>,
}

/// Which arguments a routine of libatomic takes: one of a size, or one that takes the size.
#[derive(Clone, Copy)]
pub enum Shape {
    Load,
    Store,
    Update,
    Compare,
    GenericLoad,
    GenericStore,
    GenericExchange,
    GenericCompare,
    IsLockFree,
}
