//! What a line states: its instruction or declaration, with names in place of numbers.

use ax_module::{BinOp, Cast, Pred, Ty};
use ax_symbols::{Base, NameSpan, Value};
use ax_words::{Items, Order, RmwOp};

/// A way from a base to an element: the element type, the array's length (0 where there is no
/// array), the base, the type of the index and the index.
#[derive(Clone, Copy)]
pub struct Path {
    pub elem: Ty,
    pub count: u64,
    pub base: Base,
    pub index_type: Ty,
    pub index: Value,
}

/// A pointer operand.
#[derive(Clone, Copy)]
pub enum Pointer {
    Base(Base),
    Element(Path),
}

/// An argument of a call.
#[derive(Clone, Copy)]
pub enum Argument {
    Pointer(Pointer),
    Value(Ty, Value),
}

/// An instruction as its line states it. The variants are those of `ax_module::Inst`.
#[derive(Drop)]
pub enum Statement {
    Bin(BinOp, Ty, Value, Value),
    Icmp(Pred, Ty, Value, Value),
    Select(Value, Ty, Value, Ty, Value),
    Convert(Cast, Ty, Value, Ty),
    Phi(Ty, Items<(Value, NameSpan)>),
    Jump(NameSpan),
    Branch(Value, NameSpan, NameSpan),
    RetVoid,
    Ret(Ty, Value),
    Unreachable,
    Alloca(Ty, u64, Option<u64>),
    Gep(Path),
    Load(Ty, Pointer, Option<u64>),
    LoadAtomic(Ty, Pointer, Order, u64),
    Store(Ty, Value, Pointer, Option<u64>),
    StoreAtomic(Ty, Value, Pointer, Order, u64),
    Cmpxchg(bool, Pointer, (Ty, Value), (Ty, Value), (Order, Order), Option<u64>),
    Rmw(RmwOp, Pointer, Ty, Value, Order, Option<u64>),
    Fence(bool, Order),
    Extract(Ty, Value, u8),
    Call(Option<Ty>, NameSpan, Items<Argument>),
}

/// What a line of a module's text states.
#[derive(Drop)]
pub enum Line {
    /// A line that is blank or passed over.
    Nothing,
    /// The name, the type and the number of the elements, their constants (none where all are
    /// zero), and the alignment.
    Global(NameSpan, Ty, u64, Items<Value>, Option<u64>),
    /// The name, the type of the result where there is one, and the parameters.
    Define(NameSpan, Option<Ty>, Items<(Ty, NameSpan)>),
    Close,
    Label(NameSpan),
    /// The name of the result, where it has one, and the instruction.
    Inst(Option<NameSpan>, Statement),
}

/// Where a line stands.
#[derive(Clone, Copy)]
pub enum Section {
    /// Outside functions.
    Outside,
    /// Behind a function's head.
    Start,
    /// In a block, behind its label or a phi.
    Phis,
    /// In a block, behind an instruction that is no phi.
    Inside,
    /// Behind a terminator.
    Ended,
}
