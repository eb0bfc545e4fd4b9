//! Decimal numbers.

ghost use Rattle.std.specs.Prelude.{◌≡◌, ◌≤◌, IfSome};
ghost use Rattle.ax_lex.specs.Numbers.{number_from, number_of};

use crate::bytes::is_digit;

fn number_from(most: u128, digits: &[u8]) -> Option<u128>
    ensures is { result ≡ number_from most 0 digits.now }
    ensures within { IfSome result (λ n. n ≤ most) }
{
    let mut value: u128 = 0;
    for b in digits {
        if !is_digit(*b) {
            return None;
        }
        let digit = u128::from(*b - b'0');
        if most < digit || value > (most - digit) / 10 {
            return None;
        }
        value = 10 * value + digit;
    }
    Some(value)
}

/// The number that one or more decimal digits spell, leading zeros and all.
///
/// None where a byte is no digit, where there is none, or where the number is above `most`.
pub fn decimal(most: u128, digits: &[u8]) -> Option<u128>
    ensures is { result ≡ number_of most digits.now }
    ensures within { IfSome result (λ n. n ≤ most) }
{
    match digits {
        [] => None,
        _ => number_from(most, digits),
    }
}
