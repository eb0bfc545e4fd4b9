//! Symbols from tokens.

ghost use Rattle.std.specs.Prelude.{◌≡◌, map, IfOk};
ghost use Rattle.ax_lex.specs.Tokens.{text_at};
ghost use Rattle.ax_symbols.specs.Symbols.{number_or_odd, literal_sign, find_word, word_of, width_of, int_or_word, sides_of, name_of, span_of, global_sign, text_sign, mark_sign, sign_of, symbol_of, is_feed};
ghost use Rattle.ax_symbols.specs.Signs.{word_text};
ghost use Rattle.ax_symbols.specs.declared.vocabulary.Word.{Word};

use crate::symbol::{NameSpan, Punctuation, Sign, Symbol};
use crate::vocabulary::{WORDS, Word};
use ax_lex::{Token, TokenKind, decimal, text_of};
use std::alloc::{AllocError, Global};

fn number_or_odd(negative: bool, number: Option<u128>) -> Sign
    ensures { result ≡ number_or_odd negative number }
{
    match number {
        None => Sign::Odd,
        Some(n) => Sign::Number(negative, n),
    }
}

fn literal_sign(bytes: &[u8]) -> Sign
    ensures { result ≡ literal_sign bytes.now }
{
    match bytes {
        [] => Sign::Odd,
        [b'-', digits @ ..] => number_or_odd(true, decimal(1 << 127, digits)),
        _ => number_or_odd(false, decimal(u128::MAX, bytes)),
    }
}

fn find_word(mut table: &[(&[u8], Word)], bytes: &[u8]) -> Word
    ensures { result ≡ find_word (map (λ k. (k.0.now, k.1)) table.entry.now) bytes.now }
{
    while let [entry, rest @ ..] = table {
        if entry.0 == bytes {
            return entry.1;
        }
        table = rest;
    }
    Word::Other
}

#[tactic(auto, unfolding(crate::specs::Symbols::word_of))]
fn word_of(bytes: &[u8]) -> Word
    ensures { result ≡ word_of bytes.now }
{
    find_word(&WORDS, bytes)
}

/// The width of an integer type, which is `i` and one to eight digits.
fn width_of(bytes: &[u8]) -> Option<u32>
    ensures { result ≡ width_of bytes.now }
{
    match bytes {
        [b'i', digits @ ..] if digits.len() <= 8 => {
            let width = decimal(99_999_999, digits)?;
            Some(width as u32)
        }
        _ => None,
    }
}

fn word_sign(bytes: &[u8]) -> Sign
    ensures { result ≡ int_or_word (width_of bytes.now) bytes.now }
{
    match width_of(bytes) {
        None => Sign::Word(word_of(bytes)),
        Some(width) => Sign::Int(width),
    }
}

/// How many bytes of a token stand before its name, and how many behind.
fn sides_of(kind: TokenKind, bytes: &[u8]) -> (usize, usize)
    ensures { result ≡ sides_of kind bytes.now }
{
    match bytes {
        [] => (0, 0),
        [_, rest @ ..] => match kind {
            TokenKind::Local | TokenKind::Global => match rest {
                [b'"', ..] => (2, 1),
                _ => (1, 0),
            },
            TokenKind::Text => (1, 1),
            _ => (0, 0),
        },
    }
}

/// The name in the bytes of a token.
fn name_of(kind: TokenKind, bytes: &[u8]) -> &[u8]
    ensures { result.now ≡ name_of kind bytes.now }
{
    let (before, behind) = sides_of(kind, bytes);
    let (_, rest) = bytes.split_at(before.min(bytes.len()));
    let (name, _) = rest.split_at(rest.len().saturating_sub(behind));
    name
}

fn global_sign(name: &[u8]) -> Sign
    ensures { result ≡ global_sign name.now }
{
    if name.starts_with(b"llvm.lifetime.") {
        Sign::Lifetime
    } else if name.starts_with(b"llvm.") {
        Sign::Intrinsic
    } else {
        Sign::Global
    }
}

fn text_sign(bytes: &[u8]) -> Sign
    ensures { result ≡ text_sign bytes.now }
{
    if bytes == b"\"singlethread\"".as_slice() {
        Sign::SingleThread
    } else {
        Sign::Text
    }
}

fn mark_sign(bytes: &[u8]) -> Sign
    ensures { result ≡ mark_sign bytes.now }
{
    match bytes {
        [b'=', ..] => Sign::Mark(Punctuation::Equals),
        [b',', ..] => Sign::Mark(Punctuation::Comma),
        [b'(', ..] => Sign::Mark(Punctuation::Open),
        [b')', ..] => Sign::Mark(Punctuation::Close),
        [b'{', ..] => Sign::Mark(Punctuation::OpenBrace),
        [b'}', ..] => Sign::Mark(Punctuation::CloseBrace),
        [b'[', ..] => Sign::Mark(Punctuation::OpenBracket),
        [b']', ..] => Sign::Mark(Punctuation::CloseBracket),
        [b'<', ..] => Sign::Mark(Punctuation::Less),
        [b'>', ..] => Sign::Mark(Punctuation::Greater),
        [b':', ..] => Sign::Mark(Punctuation::Colon),
        [b'!', ..] => Sign::Mark(Punctuation::Bang),
        [b'*', ..] => Sign::Mark(Punctuation::Star),
        [b'|', ..] => Sign::Mark(Punctuation::Bar),
        _ => Sign::Odd,
    }
}

fn sign_of(kind: TokenKind, bytes: &[u8]) -> Sign
    ensures { result ≡ sign_of kind bytes.now }
{
    match kind {
        TokenKind::Word => word_sign(bytes),
        TokenKind::Local => Sign::Local,
        TokenKind::Global => global_sign(name_of(TokenKind::Global, bytes)),
        TokenKind::Meta => Sign::Meta,
        TokenKind::Group => Sign::Group,
        TokenKind::Literal => literal_sign(bytes),
        TokenKind::Text => text_sign(bytes),
        TokenKind::Mark => mark_sign(bytes),
        TokenKind::Newline => Sign::Feed,
    }
}

fn span_of(text: &[u8], token: Token) -> NameSpan
    ensures { result ≡ span_of token (sides_of token.kind (text_at text.now token)) }
{
    let (before, behind) = sides_of(token.kind, text_of(text, token));
    NameSpan {
        start: token.start + before,
        end: token.end - behind,
    }
}

fn symbol_of(text: &[u8], token: Token) -> Symbol
    ensures { result ≡ symbol_of text.now token }
{
    Symbol {
        sign: sign_of(token.kind, text_of(text, token)),
        name: span_of(text, token),
    }
}

/// The symbols of the tokens of a text, one for each token, with names as places in the text in
/// bytes (LLVM Language Reference, Identifiers).
///
/// A token that reaches past the text counts with the bytes that are there. Answers `AllocError`
/// where memory runs out.
pub fn symbols_of(alloc: Global, text: &[u8], tokens: &[Token]) -> Result<Vec<Symbol>, AllocError>
    ensures { IfOk result (λ v. v.items ≡ map (symbol_of text.now) tokens.now) }
{
    let mut symbols = Vec::with_capacity(alloc, tokens.len())?;
    for token in tokens {
        symbols.push(symbol_of(text, *token))?;
    }
    Ok(symbols)
}

/// Whether the symbol is a line feed.
#[tactic(auto, unfolding(crate::specs::Symbols::is_feed))]
pub fn is_feed(symbol: &Symbol) -> bool
    ensures { result ≡ is_feed symbol.now }
{
    matches!(symbol.sign, Sign::Feed)
}

/// Each word of the grammar is the word that its spelling stands for in the table.
#[tactic(auto, using(crate::proofs::SymbolLemmas::word_again))]
pub fn words_are_read_again()
    ensures { (word : Word) → word_of (word_text word) ≡ word }
{}
