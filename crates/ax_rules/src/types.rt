//! Questions about types.

ghost use Rattle.std.specs.Prelude.{◌≡◌};
ghost use Rattle.ax_module.specs.WellFormed.{is_bit};
ghost use Rattle.ax_source_run.specs.SourcePointers.{is_i8};
ghost use Rattle.ax_source_run.specs.SourceValues.{type_bits};
ghost use Rattle.ax_rules.specs.Constants.{is_index_type, is_integer};
ghost use Rattle.ax_rules.specs.Kind.{is_other};
ghost use Rattle.ax_rules.specs.Parts.{same_type, type_number};
ghost use Rattle.ax_rules.specs.Width.{is_i128, is_odd};

use ax_module::Ty;

fn type_number(t: Ty) -> u64
    ensures { result ≡ type_number t }
{
    match t {
        Ty::I1 => 0,
        Ty::I8 => 1,
        Ty::I16 => 2,
        Ty::I32 => 3,
        Ty::I64 => 4,
        Ty::I128 => 5,
        Ty::Float => 6,
        Ty::Double => 7,
        Ty::Ptr => 8,
        Ty::Vector => 9,
        Ty::Int(bits) => 10 + u64::from(bits),
    }
}

/// Whether two types are one; two vectors are.
pub fn is_same(t: Ty, u: Ty) -> bool
    ensures { result ≡ same_type t u }
{
    type_number(t) == type_number(u)
}

/// How many bits a number of the type has.
pub fn bits(t: Ty) -> u64
    ensures { result ≡ type_bits t }
{
    match t {
        Ty::I1 => 1,
        Ty::Int(bits) => u64::from(bits),
        _ => 8 * t.bytes(),
    }
}

/// Whether it is a whole-number type of none of the widths that a value can have.
pub fn is_odd(t: Ty) -> bool
    ensures { result ≡ is_odd t }
{
    matches!(t, Ty::Int(_))
}

/// Whether it is `i1`.
pub fn is_bit(t: Ty) -> bool
    ensures { result ≡ is_bit t }
{
    matches!(t, Ty::I1)
}

/// Whether it is `i8`.
pub fn is_i8(t: Ty) -> bool
    ensures { result ≡ is_i8 t }
{
    matches!(t, Ty::I8)
}

/// Whether it is `i128`.
pub fn is_i128(t: Ty) -> bool
    ensures { result ≡ is_i128 t }
{
    matches!(t, Ty::I128)
}

/// Whether it is a whole-number type.
pub fn is_integer(t: Ty) -> bool
    ensures { result ≡ is_integer t }
{
    !matches!(t, Ty::Float | Ty::Double | Ty::Ptr | Ty::Vector)
}

/// Whether it is no whole-number type.
pub fn is_other(t: Ty) -> bool
    ensures { result ≡ is_other t }
{
    !is_integer(t)
}

/// Whether an index can have it: `i1` to `i64`.
pub fn is_index_type(t: Ty) -> bool
    ensures { result ≡ is_index_type t }
{
    matches!(t, Ty::I1 | Ty::I8 | Ty::I16 | Ty::I32 | Ty::I64)
}
