//! What a token of a module's text is.

ghost use Rattle.std.specs.Prelude.{◌≡◌};
ghost use Rattle.ax_lex.specs.declared.token.LexFault.TheVariants.{Memory};
ghost use Rattle.ax_lex.specs.Tokens.{text_at};

use std::alloc::{AllocError, AllocFailed};
use thiserror::Error;

/// What a token is.
#[derive(Clone, Copy)]
pub enum TokenKind {
    /// A letter or `_`, then letters, digits, `_`, `.`, `-`, `$`.
    Word,
    /// `%` and a name, which may be quoted.
    Local,
    /// `@` and a name, which may be quoted.
    Global,
    /// `!` and a name of letters, digits, `_`, `.`.
    Meta,
    /// `#` and digits.
    Group,
    /// A number: an optional `-` and a digit, then letters, digits, `.`, `_`, `+`, `-`.
    Literal,
    /// Printable ASCII in double quotes.
    Text,
    /// One of `= , ( ) { } [ ] < > : ! * |`.
    Mark,
    /// A line feed.
    Newline,
}

/// A token: its kind, and the bytes of the text from `start` to before `end`.
#[derive(Clone, Copy)]
pub struct Token {
    pub kind: TokenKind,
    pub start: usize,
    pub end: usize,
}

/// Why a text has no tokens.
#[derive(Clone, Copy, Debug, Error)]
pub enum LexFault {
    /// The first place at which no token starts.
    #[error("no token starts at byte {at}")]
    Byte { at: usize },
    /// Memory ran out.
    #[error("memory ran out")]
    Memory,
}

impl From<AllocError> for LexFault {
    ghost from_gives = { λ _ e. e ≡ Memory };

    fn from(_e: AllocError) -> LexFault {
        LexFault::Memory
    }
}

impl<T: Drop> From<AllocFailed<T>> for LexFault {
    ghost from_gives = { λ _ e. e ≡ Memory };

    fn from(_e: AllocFailed<T>) -> LexFault {
        LexFault::Memory
    }
}

/// The bytes of a token in its text; of a token that reaches past the text, those that are there.
pub fn text_of(text: &[u8], token: Token) -> &[u8]
    ensures { result.now ≡ text_at text.now token }
{
    let (_, rest) = text.split_at(token.start.min(text.len()));
    let (word, _) = rest.split_at(token.end.saturating_sub(token.start).min(rest.len()));
    word
}
