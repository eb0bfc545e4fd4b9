//! The types of LLVM's text as far as they are told apart.

ghost use Rattle.std.specs.Prelude.{◌≡◌};
ghost use Rattle.ax_module.specs.Types.{type_bytes, whole_number_type};

/// A type of LLVM's text (LLVM Language Reference, Type System).
///
/// `Int` is a whole-number type of any width that has no variant of its own. A vector's elements
/// are not kept, since no vector is accepted.
#[derive(Clone, Copy)]
pub enum Ty {
    I1,
    I8,
    I16,
    I32,
    I64,
    I128,
    Int(u32),
    Float,
    Double,
    Ptr,
    Vector,
}

impl Ty {
    /// The type's size in bytes, its alignment where none is written: a whole number's bits rounded
    /// up to bytes, 4 and 8 for the two floating-point types, 8 for a pointer and 1 for a vector.
    pub fn bytes(self) -> u64
        ensures { result ≡ type_bytes self }
    {
        match self {
            Ty::I1 | Ty::I8 | Ty::Vector => 1,
            Ty::I16 => 2,
            Ty::I32 | Ty::Float => 4,
            Ty::I64 | Ty::Double | Ty::Ptr => 8,
            Ty::I128 => 16,
            Ty::Int(bits) => u64::from(bits).div_ceil(8),
        }
    }

    /// The type that is written as `i` and this number of bits.
    pub fn of_bits(bits: u32) -> Ty
        ensures { result ≡ whole_number_type bits }
    {
        match bits {
            1 => Ty::I1,
            8 => Ty::I8,
            16 => Ty::I16,
            32 => Ty::I32,
            64 => Ty::I64,
            128 => Ty::I128,
            _ => Ty::Int(bits),
        }
    }
}
