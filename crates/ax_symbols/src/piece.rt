//! Pieces of a line, read from its front.

ghost use Rattle.std.specs.Prelude.{◌≡◌, ℕ, Some, true, false};
ghost use Rattle.ax_symbols.specs.Pieces.{Gives, strip, one_at, sign_at, count_of, count_in, local_of, local_in, global_of, global_in, callee_of, base_of, base_in, label_of, is_label_sign, const_of, const_in, number_value, value_of, value_in, part_of, part_in, callee_in};

use crate::signs::same;
use crate::symbol::{NameSpan, Sign, Symbol};
use crate::values::{Base, Value};
use crate::vocabulary::Word;

/// What stands behind these signs.
pub fn strip<'a>(line: &'a [Symbol], signs: &[Sign]) -> Option<&'a [Symbol]>
    ensures { Gives (λ r. r.now) result (strip signs.now line.now) }
{
    let mut rest = line;
    for sign in signs {
        let [first, more @ ..] = rest else {
            return None;
        };
        if !same(first.sign, *sign) {
            return None;
        }
        rest = more;
    }
    Some(rest)
}

/// The sign at a place of the line; behind its end, the line feed.
pub fn sign_at(line: &[Symbol], place: usize) -> Sign
    ensures { result ≡ sign_at line.now place }
{
    match line.get(place) {
        None => Sign::Feed,
        Some(symbol) => symbol.sign,
    }
}

fn local_in(name: NameSpan, sign: Sign) -> Option<NameSpan>
    ensures { result ≡ local_in name sign }
{
    match sign {
        Sign::Local => Some(name),
        _ => None,
    }
}

/// The name of a local.
pub fn local(line: &[Symbol]) -> Option<(NameSpan, &[Symbol])>
    ensures { Gives (λ x. (x.0, x.1.now)) result (one_at local_of line.now) }
{
    let [first, rest @ ..] = line else {
        return None;
    };
    let name = local_in(first.name, first.sign)?;
    Some((name, rest))
}

fn global_in(name: NameSpan, sign: Sign) -> Option<NameSpan>
    ensures { result ≡ global_in name sign }
{
    match sign {
        Sign::Global | Sign::Intrinsic | Sign::Lifetime => Some(name),
        _ => None,
    }
}

/// The name of a global.
pub fn global(line: &[Symbol]) -> Option<(NameSpan, &[Symbol])>
    ensures { Gives (λ x. (x.0, x.1.now)) result (one_at global_of line.now) }
{
    let [first, rest @ ..] = line else {
        return None;
    };
    let name = global_in(first.name, first.sign)?;
    Some((name, rest))
}

fn callee_in(name: NameSpan, sign: Sign) -> Option<(NameSpan, bool)>
    ensures { result ≡ callee_in name sign }
{
    match sign {
        Sign::Global | Sign::Intrinsic => Some((name, false)),
        Sign::Lifetime => Some((name, true)),
        _ => None,
    }
}

/// The name that is called, and whether it begins with `llvm.lifetime.`.
pub fn callee(line: &[Symbol]) -> Option<((NameSpan, bool), &[Symbol])>
    ensures { Gives (λ x. (x.0, x.1.now)) result (one_at callee_of line.now) }
{
    let [first, rest @ ..] = line else {
        return None;
    };
    let called = callee_in(first.name, first.sign)?;
    Some((called, rest))
}

fn base_in(name: NameSpan, sign: Sign) -> Option<Base>
    ensures { result ≡ base_in name sign }
{
    match sign {
        Sign::Global | Sign::Intrinsic | Sign::Lifetime => Some(Base::Global(name)),
        Sign::Local => Some(Base::Local(name)),
        _ => None,
    }
}

/// What a pointer begins with.
pub fn base(line: &[Symbol]) -> Option<(Base, &[Symbol])>
    ensures { Gives (λ x. (x.0, x.1.now)) result (one_at base_of line.now) }
{
    let [first, rest @ ..] = line else {
        return None;
    };
    let base = base_in(first.name, first.sign)?;
    Some((base, rest))
}

/// Whether a symbol of this sign can be the name of a label: a word, a literal or a text.
pub fn is_label_sign(sign: Sign) -> bool
    ensures { result ≡ is_label_sign sign }
{
    matches!(
        sign,
        Sign::Word(_)
            | Sign::Int(_)
            | Sign::Number(..)
            | Sign::Odd
            | Sign::SingleThread
            | Sign::Text
    )
}

/// The name of a label: a word, a literal or a text.
pub fn label(line: &[Symbol]) -> Option<(NameSpan, &[Symbol])>
    ensures { Gives (λ x. (x.0, x.1.now)) result (one_at label_of line.now) }
{
    let [first, rest @ ..] = line else {
        return None;
    };
    if is_label_sign(first.sign) {
        Some((first.name, rest))
    } else {
        None
    }
}

fn count_in(sign: Sign) -> Option<u64>
    ensures { result ≡ count_in sign }
{
    match sign {
        Sign::Number(false, n) if n < 1 << 64 => Some(n as u64),
        _ => None,
    }
}

/// A decimal number below 2^64.
pub fn count(line: &[Symbol]) -> Option<(u64, &[Symbol])>
    ensures { Gives (λ x. (x.0, x.1.now)) result (one_at count_of line.now) }
{
    let [first, rest @ ..] = line else {
        return None;
    };
    let n = count_in(first.sign)?;
    Some((n, rest))
}

fn part_in(sign: Sign) -> Option<u8>
    ensures { result ≡ part_in sign }
{
    match sign {
        Sign::Number(false, n) if n < 2 => Some(n as u8),
        _ => None,
    }
}

/// Which part of a pair, 0 or 1.
pub fn part(line: &[Symbol]) -> Option<(u8, &[Symbol])>
    ensures { Gives (λ x. (x.0, x.1.now)) result (one_at part_of line.now) }
{
    let [first, rest @ ..] = line else {
        return None;
    };
    let n = part_in(first.sign)?;
    Some((n, rest))
}

fn positive(n: u128) -> Value
    ensures { Some result ≡ number_value false n }
{
    if n <= i128::MAX.cast_unsigned() {
        Value::Const(n as i128)
    } else {
        Value::Wide(n)
    }
}

fn negative(n: u128) -> Option<Value>
    ensures { result ≡ number_value true n }
{
    if n == 0 {
        return Some(Value::Const(0));
    }
    if n <= 1 << 127 {
        return Some(Value::Const(-1 - (n - 1) as i128));
    }
    None
}

fn const_in(sign: Sign) -> Option<Value>
    ensures { result ≡ const_in sign }
{
    match sign {
        Sign::Number(false, n) => Some(positive(n)),
        Sign::Number(true, n) => negative(n),
        Sign::Word(Word::True) => Some(Value::Const(1)),
        Sign::Word(Word::False) => Some(Value::Const(0)),
        _ => None,
    }
}

/// A constant.
pub fn constant(line: &[Symbol]) -> Option<(Value, &[Symbol])>
    ensures { Gives (λ x. (x.0, x.1.now)) result (one_at const_of line.now) }
{
    let [first, rest @ ..] = line else {
        return None;
    };
    let value = const_in(first.sign)?;
    Some((value, rest))
}

fn value_in(name: NameSpan, sign: Sign) -> Option<Value>
    ensures { result ≡ value_in name sign }
{
    match sign {
        Sign::Local => Some(Value::Local(name)),
        _ => const_in(sign),
    }
}

/// A local or a constant.
pub fn value(line: &[Symbol]) -> Option<(Value, &[Symbol])>
    ensures { Gives (λ x. (x.0, x.1.now)) result (one_at value_of line.now) }
{
    let [first, rest @ ..] = line else {
        return None;
    };
    let value = value_in(first.name, first.sign)?;
    Some((value, rest))
}
