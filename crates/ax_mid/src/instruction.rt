//! Instructions of middle code.

use ax_tags::Role;
use ax_words::{Items, Op, Order, RoutineName, Width};

/// A binary operation on numbers of 64 bits; a comparison gives 1 or 0.
#[derive(Clone, Copy)]
pub enum MidOp {
    Add,
    Sub,
    Mul,
    And,
    Or,
    Xor,
    Eq,
    Ne,
    Ult,
    Ule,
    Slt,
    Sle,
}

/// A shift of a number of 64 bits by a constant.
#[derive(Clone, Copy)]
pub enum MidShift {
    Shl,
    Lshr,
    Ashr,
}

/// An instruction of middle code. A register holds 64 bits; a number of 128 bits takes two, the low
/// half first.
#[derive(Drop)]
pub enum MidInst<R> {
    /// A register and its number.
    Const(R, u64),
    /// A register and the one whose number it gets.
    Copy(R, R),
    /// The operation, the result, and the operands.
    Apply(MidOp, R, R, R),
    /// The result, what is shifted, and by how many bits.
    Shift(MidShift, R, R, u8),
    /// The result, what is extended, from how many bits, and whether by its sign.
    Extend(R, R, u8, bool),
    /// The result, the test, and what it gets where the test isn't 0, and where it is.
    Select(R, R, R, R),
    Label(u32),
    Jump(u32),
    /// The test, and the labels where it isn't 0, and where it is.
    Branch(R, u32, u32),
    /// The address of a byte of the frame.
    FrameAddress(R, u32),
    /// The result, the address, and the bytes.
    Load(R, R, u8),
    /// The address, what is stored, and the bytes.
    Store(R, R, u8),
    /// The operation, its width and order, whether it is weak, the address, and what it takes and gives.
    Atomic(Op, Width, Order, bool, R, Items<R>, Items<R>),
    /// The routine, its role, and what it takes and gives.
    Call(RoutineName, Role, Items<R>, Items<R>),
    Out(R),
    Trap,
    Ret,
    Nop,
}
