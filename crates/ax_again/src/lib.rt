//! The canonical text of a module is read again.
#![tactic(auto)]

mod derived;
mod lines;
mod tokens;

pub use derived::{canonical_text_derives_its_module, reread};
pub use lines::canonical_lines_are_split;
pub use tokens::{canonical_text_is_its_pieces, canonical_tokens_are_read};
