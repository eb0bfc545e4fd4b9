//! Values and bases as they are written, with names in place of numbers.

use crate::symbol::NameSpan;

/// A number as it is written, or a local.
#[derive(Clone, Copy)]
pub enum Value {
    Const(i128),
    /// A number from 2^127 on.
    Wide(u128),
    Local(NameSpan),
}

/// What a pointer begins with.
#[derive(Clone, Copy)]
pub enum Base {
    Global(NameSpan),
    Local(NameSpan),
}
