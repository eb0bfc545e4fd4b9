//! Operands of instructions.

use crate::types::Ty;

/// A number, or the value of an instruction or a parameter of the same function.
///
/// `Const` is a number as it is written, from -2^127 to 2^127 - 1, and `Wide` one from 2^127 to
/// 2^128 - 1; what it stands for at a type of N bits is that number mod 2^N. Instructions and
/// parameters are named by their numbers, which count from 0.
#[derive(Clone, Copy, PartialEq, Eq)]
pub enum Operand {
    Const(i128),
    Wide(u128),
    Value(u32),
    Param(u32),
}

/// What a pointer begins with: a global, or the value of an instruction or a parameter.
#[derive(Clone, Copy)]
pub enum Base {
    Global(u32),
    Value(u32),
    Param(u32),
}

/// A pointer operand (LLVM Language Reference, Constant Expressions, `getelementptr`).
///
/// `step` is that of a constant getelementptr: the element type, the array's length (0 where there
/// is no array), the type of the index and the index.
#[derive(Clone, Copy)]
pub struct Addr {
    pub base: Base,
    pub step: Option<(Ty, u64, Ty, Operand)>,
}

/// An argument of a call.
#[derive(Clone, Copy)]
pub enum Arg {
    Pointer(Addr),
    Value(Ty, Operand),
}
