//! What the names of a function's lines stand for.

ghost use Rattle.std.specs.Prelude.{◌≡◌};
ghost use Rattle.ax_scope.specs.Names.{text_at};

use crate::name_table::NameTable;
use ax_symbols::NameSpan;

/// The parameters and results of a function, and its blocks.
#[derive(Drop)]
pub struct Locals {
    pub values: NameTable,
    pub blocks: NameTable,
}

/// What names stand for at the lines of a function, and the text that they stand in.
#[derive(Clone, Copy)]
pub struct Names<'a> {
    pub text: &'a [u8],
    pub globals: &'a NameTable,
    pub locals: &'a Locals,
}

/// The bytes of a name.
pub fn text_at(text: &[u8], span: NameSpan) -> &[u8]
    ensures { result.now ≡ text_at text.now span }
{
    let end = span.end.min(text.len());
    let start = span.start.min(end);
    &text[start..end]
}
