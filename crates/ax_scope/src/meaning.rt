//! What a name stands for.

/// What a name stands for, by its number among those of its kind, counted from 0.
#[derive(Clone, Copy)]
pub enum Meaning {
    Global(u32),
    /// The result of the instruction of this number.
    Value(u32),
    Param(u32),
    /// The block of this number.
    Block(u32),
}
