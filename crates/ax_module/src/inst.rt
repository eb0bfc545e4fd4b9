//! Instructions.

ghost use Rattle.std.specs.Prelude.{◌≡◌};
ghost use Rattle.ax_module.specs.Kinds.{is_phi, is_terminator, has_result};
ghost use Rattle.ax_module.specs.Words.{binary_word, condition_word, cast_word};

use crate::names::Name;
use crate::operand::{Addr, Arg, Base, Operand};
use crate::types::Ty;
use ax_words::{Items, Order, RmwOp};

/// A binary operation on whole numbers (LLVM Language Reference, Binary Operations).
#[derive(Clone, Copy)]
pub enum BinOp {
    Add,
    Sub,
    Mul,
    And,
    Or,
    Xor,
    Shl,
    Lshr,
    Ashr,
}

impl BinOp {
    /// The operation's word in LLVM's text.
    pub fn word(self) -> &'static str
        ensures { result.now ≡ binary_word self }
    {
        match self {
            BinOp::Add => "add",
            BinOp::Sub => "sub",
            BinOp::Mul => "mul",
            BinOp::And => "and",
            BinOp::Or => "or",
            BinOp::Xor => "xor",
            BinOp::Shl => "shl",
            BinOp::Lshr => "lshr",
            BinOp::Ashr => "ashr",
        }
    }
}

/// The condition of an `icmp`.
#[derive(Clone, Copy)]
pub enum Pred {
    Eq,
    Ne,
    Ugt,
    Uge,
    Ult,
    Ule,
    Sgt,
    Sge,
    Slt,
    Sle,
}

impl Pred {
    /// The condition's word in LLVM's text.
    pub fn word(self) -> &'static str
        ensures { result.now ≡ condition_word self }
    {
        match self {
            Pred::Eq => "eq",
            Pred::Ne => "ne",
            Pred::Ugt => "ugt",
            Pred::Uge => "uge",
            Pred::Ult => "ult",
            Pred::Ule => "ule",
            Pred::Sgt => "sgt",
            Pred::Sge => "sge",
            Pred::Slt => "slt",
            Pred::Sle => "sle",
        }
    }
}

/// A conversion of whole numbers.
#[derive(Clone, Copy)]
pub enum Cast {
    Zext,
    Sext,
    Trunc,
}

impl Cast {
    /// The conversion's word in LLVM's text.
    pub fn word(self) -> &'static str
        ensures { result.now ≡ cast_word self }
    {
        match self {
            Cast::Zext => "zext",
            Cast::Sext => "sext",
            Cast::Trunc => "trunc",
        }
    }
}

/// An instruction, its operands in the order in which its line has them (LLVM Language Reference,
/// Instruction Reference).
///
/// A block is named by its position in its function. The last number of an alloca or of a memory
/// access is its alignment in bytes.
#[derive(Drop)]
pub enum Inst {
    Bin(BinOp, Ty, Operand, Operand),
    Icmp(Pred, Ty, Operand, Operand),
    /// The condition, and then each type with its value.
    Select(Operand, Ty, Operand, Ty, Operand),
    /// From a type to a type.
    Convert(Cast, Ty, Operand, Ty),
    /// Values, each with the block from which it comes.
    Phi(Ty, Items<(Operand, u32)>),
    Jump(u32),
    Branch(Operand, u32, u32),
    RetVoid,
    Ret(Ty, Operand),
    Unreachable,
    /// The type and the number of the elements.
    Alloca(Ty, u64, Option<u64>),
    /// The element type, the array's length (0 where there is no array), the base, the type of the
    /// index and the index.
    Gep(Ty, u64, Base, Ty, Operand),
    Load(Ty, Addr, Option<u64>),
    LoadAtomic(Ty, Addr, Order, u64),
    Store(Ty, Operand, Addr, Option<u64>),
    StoreAtomic(Ty, Operand, Addr, Order, u64),
    /// Whether it is weak, the object, the expected and the new value each with its type, and the
    /// orders of success and of failure.
    Cmpxchg(bool, Addr, Ty, Operand, Ty, Operand, Order, Order, u64),
    Rmw(RmwOp, Addr, Ty, Operand, Order, u64),
    /// Whether it has `syncscope("singlethread")`.
    Fence(bool, Order),
    /// The type of the pair's first part, the pair, and which part is taken.
    Extract(Ty, Operand, u8),
    /// The type of the result, where there is one, and what is called with which arguments.
    Call(Option<Ty>, Name, Items<Arg>),
}

impl Inst {
    /// Whether it is a phi, which stands first in its block.
    #[tactic(auto, unfolding(crate::specs::Kinds::is_phi))]
    pub fn is_phi(&self) -> bool
        ensures { result ≡ is_phi self.now }
    {
        matches!(self, Inst::Phi(..))
    }

    /// Whether it ends its block (LLVM Language Reference, Terminator Instructions).
    #[tactic(auto, unfolding(crate::specs::Kinds::is_terminator))]
    pub fn is_terminator(&self) -> bool
        ensures { result ≡ is_terminator self.now }
    {
        matches!(
            self,
            Inst::Jump(..) | Inst::Branch(..) | Inst::RetVoid | Inst::Ret(..) | Inst::Unreachable
        )
    }

    /// Whether it has a result, which its number names: all but terminators, stores, fences and
    /// calls of what gives `void`.
    #[tactic(auto, unfolding(crate::specs::Kinds::has_result))]
    pub fn has_result(&self) -> bool
        ensures { result ≡ has_result self.now }
    {
        !matches!(
            self,
            Inst::Jump(..)
                | Inst::Branch(..)
                | Inst::RetVoid
                | Inst::Ret(..)
                | Inst::Unreachable
                | Inst::Store(..)
                | Inst::StoreAtomic(..)
                | Inst::Fence(..)
                | Inst::Call(None, ..)
        )
    }
}
