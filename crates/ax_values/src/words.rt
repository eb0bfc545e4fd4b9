//! Numbers of so many bits in words of 128 bits.

ghost use Rattle.std.specs.Prelude.{◌≡◌, ◌≤◌, ◌-◌, ◌%◌, ◌^◌, int_lt};
ghost use Rattle.ax_ops.specs.Operation.{signed};
ghost use Rattle.ax_source_run.specs.SourceValues.{type_bits, wrapped};

use ax_module::Ty;

/// How many bits a value of the type has; those of a type that is no whole number are its bytes'.
pub fn bits(ty: Ty) -> u32
    ensures { result ≡ type_bits ty }
{
    match ty {
        Ty::I1 => 1,
        Ty::I8 | Ty::Vector => 8,
        Ty::I16 => 16,
        Ty::I32 | Ty::Float => 32,
        Ty::I64 | Ty::Double | Ty::Ptr => 64,
        Ty::I128 => 128,
        Ty::Int(bits) => bits,
    }
}

/// The greatest number of so many bits.
pub(crate) fn greatest(bits: u32) -> u128
    requires { bits ≤ 128 }
    ensures { result ≡ 2 ^ bits - 1 }
{
    if bits == 128 {
        u128::MAX
    } else {
        (1 << bits) - 1
    }
}

/// The low bits of a number.
#[tactic(auto, using(crate::proofs::Cuts::cut))]
pub fn low(bits: u32, n: u128) -> u128
    requires { bits ≤ 128 }
    ensures { result ≡ n % 2 ^ bits }
{
    n & greatest(bits)
}

/// A whole number mod 2^bits.
pub fn wrapped(bits: u32, n: i128) -> u128
    requires { bits ≤ 128 }
    ensures { result ≡ wrapped bits n }
{
    if n >= 0 {
        low(bits, n as u128)
    } else {
        greatest(bits) - low(bits, (-1 - n) as u128)
    }
}

/// The number of bits of which the highest is a two's complement number's sign.
pub(crate) fn half(bits: u32) -> u128
    requires { bits ≤ 128 }
    ensures { result ≡ 2 ^ (bits - 1) }
{
    1 << bits.saturating_sub(1)
}

/// The two's complement number of `from` bits as one of `to` bits.
pub fn extended(from: u32, to: u32, n: u128) -> u128
    requires from { from ≤ 128 }
    requires to { to ≤ 128 }
    ensures { result ≡ wrapped to (signed from n) }
{
    if n < half(from) {
        return low(to, n);
    }
    let most = greatest(from);
    if n <= most {
        greatest(to) - low(to, most - n)
    } else {
        low(to, n - most - 1)
    }
}

/// Whether the one two's complement number is less than the other.
pub(crate) fn is_less(bits: u32, a: u128, b: u128) -> bool
    requires { bits ≤ 128 }
    ensures { result ≡ int_lt (signed bits a) (signed bits b) }
{
    let half = half(bits);
    let most = greatest(bits);
    if a < half && half <= b {
        b > most && a < b - most - 1
    } else if half <= a && b < half {
        a <= most || a - most - 1 < b
    } else {
        a < b
    }
}
