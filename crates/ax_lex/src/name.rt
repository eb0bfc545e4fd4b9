//! Names in tokens.

ghost use Rattle.std.specs.Prelude.{◌≡◌, ◌-◌, length, take, if◌then◌else◌, Some, None, true};
ghost use Rattle.std.specs.List.{list_all};
ghost use Rattle.ax_lex.specs.declared.token.TokenKind.TheVariants.{Global};
ghost use Rattle.ax_lex.specs.Bytes.{is_name_byte};
ghost use Rattle.ax_lex.specs.Tokens.{is_token, is_name, is_closed};
ghost use Rattle.ax_lex.specs.Names.{Gives, name_in, unquoted, is_quote};

use crate::bytes::is_name_byte;
use crate::scan::text_run;

fn are_name_bytes(bytes: &[u8]) -> bool
    ensures { result ≡ list_all is_name_byte bytes.now }
{
    bytes.iter().all(|b| is_name_byte(*b))
}

fn is_quote(bytes: &[u8]) -> bool
    ensures is { result ≡ is_quote bytes.now }
    ensures one { result ≡ true → length bytes.now ≡ 1 }
{
    match bytes {
        [b'"'] => true,
        _ => false,
    }
}

/// A quoted text without its quotes, behind the first of them.
fn closed(bytes: &[u8]) -> Option<&[u8]>
    ensures { Gives (λ x. x.now) result (if is_closed bytes.now then Some (take (length bytes.now - 1) bytes.now) else None) }
{
    let (inside, behind) = bytes.split_at(text_run(bytes));
    if is_quote(behind) { Some(inside) } else { None }
}

fn bare(name: &[u8]) -> Option<&[u8]>
    ensures { Gives (λ x. x.now) result (if is_name name.now then Some (unquoted name.now) else None) }
{
    match name {
        [] => None,
        [first, inside @ ..] => {
            if *first == b'"' {
                closed(inside)
            } else if are_name_bytes(name) {
                Some(name)
            } else {
                None
            }
        }
    }
}

/// The name that a word is, where it is a Global token: what stands behind its `@`, without quotes.
pub fn global_name(word: &[u8]) -> Option<&[u8]>
    ensures { Gives (λ x. x.now) result (if is_token Global word.now then Some (name_in word.now) else None) }
{
    match word {
        [b'@', name @ ..] => bare(name),
        _ => None,
    }
}
