//! Numbers of a schedule.

ghost use Rattle.std.specs.Prelude.{◌≡◌};
ghost use Rattle.ax_sched.specs.Reading.{number_of};

use ax_lex::decimal;

/// The number below 2^64 that a word spells in decimal without leading zeros.
pub fn number(word: &[u8]) -> Option<u64>
    ensures { result ≡ number_of word.now }
{
    match word {
        [] => None,
        [first, rest @ ..] => {
            if *first == b'0' && !rest.is_empty() {
                return None;
            }
            let number = decimal(u128::from(u64::MAX), word)?;
            Some(number as u64)
        }
    }
}
