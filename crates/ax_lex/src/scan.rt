//! The token at a place, by its first byte.

ghost use Rattle.std.specs.Prelude.{◌≡◌, ◌≤◌, ◌+◌, ◌<◌, ◌^◌, length, drop, IfSome, false};
ghost use Rattle.std.specs.List.{prefix_len};
ghost use Rattle.ax_lex.specs.Bytes.{is_name_byte, is_meta_byte, is_literal_byte, is_digit};
ghost use Rattle.ax_lex.specs.Tokens.{gap, behind_gap};
ghost use Rattle.ax_lex.specs.Scan.{text_run, named, banged, negative, behind_one, quoted, token_of, IsScan};

use crate::bytes::{
    Start, is_blank, is_digit, is_literal_byte, is_meta_byte, is_name_byte, is_text_byte, start_of,
};
use crate::token::TokenKind;

fn name_run(bytes: &[u8]) -> usize
    ensures is { result ≡ prefix_len is_name_byte bytes.now }
    ensures within { result ≤ length bytes.now }
{
    bytes.iter().take_while(|b| is_name_byte(**b)).count()
}

fn meta_run(bytes: &[u8]) -> usize
    ensures is { result ≡ prefix_len is_meta_byte bytes.now }
    ensures within { result ≤ length bytes.now }
{
    bytes.iter().take_while(|b| is_meta_byte(**b)).count()
}

fn digit_run(bytes: &[u8]) -> usize
    ensures is { result ≡ prefix_len is_digit bytes.now }
    ensures within { result ≤ length bytes.now }
{
    bytes.iter().take_while(|b| is_digit(**b)).count()
}

fn literal_run(bytes: &[u8]) -> usize
    ensures is { result ≡ prefix_len is_literal_byte bytes.now }
    ensures within { result ≤ length bytes.now }
{
    bytes.iter().take_while(|b| is_literal_byte(**b)).count()
}

/// How many bytes at the front may stand in a quoted text.
pub fn text_run(bytes: &[u8]) -> usize
    ensures is { result ≡ text_run bytes.now }
    ensures within { result ≤ length bytes.now }
{
    bytes.iter().take_while(|b| is_text_byte(**b)).count()
}

fn gap_len(bytes: &[u8]) -> usize
    ensures is { result ≡ gap false bytes.now }
    ensures within { result ≤ length bytes.now }
{
    let mut in_comment = false;
    for (i, b) in bytes.iter().enumerate() {
        if in_comment {
            if *b == b'\n' {
                return i;
            }
        } else if *b == b';' {
            in_comment = true;
        } else if !is_blank(*b) {
            return i;
        }
    }
    bytes.len()
}

/// A text's inside and its closing quote, behind so many bytes of the token.
fn quoted(kind: TokenKind, before: usize, inside: &[u8]) -> Option<(TokenKind, usize)>
    requires inside { length inside.now < 2 ^ 63 }
    requires before { before < 2 ^ 62 }
    ensures { result ≡ quoted kind before inside.now }
{
    let n = text_run(inside);
    let (_, rest) = inside.split_at(n);
    match rest {
        [b'"', ..] => Some((kind, before + (1 + n))),
        _ => None,
    }
}

fn plain_name(kind: TokenKind, rest: &[u8]) -> Option<(TokenKind, usize)>
    requires { length rest.now < 2 ^ 63 }
    ensures { result ≡ behind_one is_name_byte kind rest.now }
{
    let n = name_run(rest);
    if n == 0 { None } else { Some((kind, 1 + n)) }
}

fn named(kind: TokenKind, rest: &[u8]) -> Option<(TokenKind, usize)>
    requires { length rest.now < 2 ^ 63 }
    ensures { result ≡ named kind rest.now }
{
    match rest {
        [] => None,
        [first, inside @ ..] => {
            if *first == b'"' {
                quoted(kind, 2, inside)
            } else {
                plain_name(kind, rest)
            }
        }
    }
}

fn banged(rest: &[u8]) -> Option<(TokenKind, usize)>
    requires { length rest.now < 2 ^ 63 }
    ensures { result ≡ banged rest.now }
{
    let n = meta_run(rest);
    if n == 0 {
        Some((TokenKind::Mark, 1))
    } else {
        Some((TokenKind::Meta, 1 + n))
    }
}

fn group(rest: &[u8]) -> Option<(TokenKind, usize)>
    requires { length rest.now < 2 ^ 63 }
    ensures { result ≡ behind_one is_digit TokenKind.Group rest.now }
{
    let n = digit_run(rest);
    if n == 0 {
        None
    } else {
        Some((TokenKind::Group, 1 + n))
    }
}

fn negative(rest: &[u8]) -> Option<(TokenKind, usize)>
    requires { length rest.now < 2 ^ 63 }
    ensures { result ≡ negative rest.now }
{
    match rest {
        [] => None,
        [first, more @ ..] => {
            if is_digit(*first) {
                Some((TokenKind::Literal, 2 + literal_run(more)))
            } else {
                None
            }
        }
    }
}

fn token_at(bytes: &[u8]) -> Option<(TokenKind, usize)>
    ensures { result ≡ token_of bytes.now }
{
    match bytes {
        [] => None,
        [first, rest @ ..] => match start_of(*first) {
            Start::Letter => Some((TokenKind::Word, 1 + name_run(rest))),
            Start::Percent => named(TokenKind::Local, rest),
            Start::At => named(TokenKind::Global, rest),
            Start::Bang => banged(rest),
            Start::Hash => group(rest),
            Start::Digit => Some((TokenKind::Literal, 1 + literal_run(rest))),
            Start::Minus => negative(rest),
            Start::Quote => quoted(TokenKind::Text, 1, rest),
            Start::Mark => Some((TokenKind::Mark, 1)),
            Start::Feed => Some((TokenKind::Newline, 1)),
            Start::Nothing => None,
        },
    }
}

/// The token at a place.
pub fn next_token(text: &[u8], at: usize) -> Option<(TokenKind, usize)>
    requires { at ≤ length text.now }
    ensures scan { IsScan (drop at text.now) result }
    ensures bounds { IfSome result (λ x. (0 < x.1) × (at + x.1 ≤ length text.now)) }
{
    let (_, rest) = text.split_at(at);
    token_at(rest)
}

/// The place behind blanks and comments.
pub fn gap_end(text: &[u8], at: usize) -> usize
    requires { at ≤ length text.now }
    ensures is { result ≡ behind_gap text.now at }
    ensures within { result ≤ length text.now }
{
    let (_, rest) = text.split_at(at);
    at + gap_len(rest)
}
