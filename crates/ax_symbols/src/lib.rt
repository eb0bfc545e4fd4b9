//! The symbols of a module's text and what a few of them say: words, names, numbers, types, and
//! what is passed over.
//!
//! A grammar is data (specs/Grammar.antt): what it derives, and what reading by it from the left
//! gives. The functions here read the pieces of which the grammars of lines are made.
#![tactic(auto)]

mod pass;
mod piece;
mod signs;
mod symbol;
mod symbols;
mod types;
mod values;
mod vocabulary;
mod words;

pub use pass::{Pass, pass_over, tail};
pub use piece::{
    base, callee, constant, count, global, is_label_sign, label, local, part, sign_at, strip, value,
};
pub use symbol::{NameSpan, Punctuation, Sign, Symbol};
pub use symbols::{is_feed, symbols_of, words_are_read_again};
pub use types::type_at;
pub use values::{Base, Value};
pub use vocabulary::Word;
pub use words::{binary_operation, cast, condition, order, rmw_operation};
