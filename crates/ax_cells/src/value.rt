//! The values of instructions and of constants, and the pointers among them.

ghost use Rattle.std.specs.Prelude.{◌≡◌, IsTrue};
ghost use Rattle.ax_source_run.specs.SourcePointers.{pointed};
ghost use Rattle.ax_source_run.specs.SourceState.{Number};
ghost use Rattle.ax_source_run.specs.SourceValues.{number_of, operand_of, part_of};
ghost use Rattle.ax_cells.specs.Narrow.{is_narrow};
ghost use Rattle.ax_cells.specs.Values.{pointer_of, value_of};

use ax_module::{Operand, Ty};
use ax_values::{bits, low, wrapped};

/// What a pointer points into: a global, or the alloca of an instruction. A number that is no
/// pointer counts as an instruction's.
#[derive(Clone, Copy)]
pub enum Object {
    Shared(u32),
    Private(u128),
}

/// An element of an object; its index may lie past the last.
#[derive(Clone, Copy)]
pub struct Pointer {
    pub object: Object,
    pub index: u128,
}

/// An instruction's result: a number, the pair of a compare-exchange, or a pointer.
#[derive(Clone, Copy)]
pub enum Value {
    Number(u128),
    Pair(u128, bool),
    PointsTo(Pointer),
}

/// The number of a constant operand, cut to the bits of its type, which are at most 128. What is no
/// constant counts as 0.
pub fn constant(ty: Ty, operand: Operand) -> u128
    requires { IsTrue (is_narrow ty) }
    ensures { result ≡ operand_of ty operand (λ k. Number 0) }
{
    match operand {
        Operand::Const(n) => wrapped(bits(ty), n),
        Operand::Wide(n) => low(bits(ty), n),
        Operand::Value(_) | Operand::Param(_) => 0,
    }
}

impl Value {
    /// The number, of a pair the first part, and 0 of a pointer.
    pub fn number(self) -> u128
        ensures { result ≡ number_of (value_of self) }
    {
        match self {
            Value::Number(n) | Value::Pair(n, _) => n,
            Value::PointsTo(_) => 0,
        }
    }

    /// A part of a pair: part 0 is the number, and any other whether the exchange was made, 1 or 0.
    /// Each part of a number is that number, and each of a pointer 0.
    pub fn part(self, part: u8) -> u128
        ensures { result ≡ part_of part (value_of self) }
    {
        match self {
            Value::Number(n) => n,
            Value::Pair(n, flag) => if part == 0 { n } else { u128::from(flag) },
            Value::PointsTo(_) => 0,
        }
    }

    /// The pointer. A value that is none points to no element.
    pub fn pointer(self) -> Pointer
        ensures { pointer_of result ≡ pointed (value_of self) }
    {
        match self {
            Value::Number(n) | Value::Pair(n, _) => Pointer {
                object: Object::Private(n),
                index: 1 << 64,
            },
            Value::PointsTo(pointer) => pointer,
        }
    }
}
