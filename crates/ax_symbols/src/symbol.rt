//! The symbols of a line: what its tokens are to the grammar.

use crate::vocabulary::Word;

/// A mark of the text.
#[derive(Clone, Copy)]
pub enum Punctuation {
    Equals,
    Comma,
    Open,
    Close,
    OpenBrace,
    CloseBrace,
    OpenBracket,
    CloseBracket,
    Less,
    Greater,
    Colon,
    Bang,
    Star,
    Bar,
}

/// What a symbol is to the grammar, without its name.
#[derive(Clone, Copy)]
pub enum Sign {
    Word(Word),
    /// `i` and this number, which has one to eight digits.
    Int(u32),
    Local,
    Global,
    /// A global whose name begins with `llvm.` and not with `llvm.lifetime.`.
    Intrinsic,
    /// A global whose name begins with `llvm.lifetime.`.
    Lifetime,
    Meta,
    Group,
    /// A decimal whole number from -2^127 to 2^128 - 1: whether it is written with a `-`, and its
    /// magnitude.
    Number(bool, u128),
    /// Any other literal.
    Odd,
    /// The text `"singlethread"`.
    SingleThread,
    Text,
    Mark(Punctuation),
    Feed,
}

/// The place of a name in the text, from its first byte to behind its last, without `%`, `@` and
/// quotes.
#[derive(Clone, Copy)]
pub struct NameSpan {
    pub start: usize,
    pub end: usize,
}

/// A token as the grammar sees it, with the place of its name.
#[derive(Clone, Copy)]
pub struct Symbol {
    pub sign: Sign,
    pub name: NameSpan,
}
