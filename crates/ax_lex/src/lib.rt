//! The tokens of a module's text in LLVM's notation.
//!
//! This is the lowest layer of the reader: it takes bytes and gives words, names, literals and marks
//! with their places. What a line of them says is the business of the crates above.
#![tactic(auto)]

mod bytes;
mod lexer;
mod name;
mod number;
mod scan;
mod token;

pub use bytes::{is_blank, is_digit};
pub use lexer::tokens;
pub use name::global_name;
pub use number::decimal;
pub use token::{LexFault, Token, TokenKind, text_of};
