//! What pointers point to.

use ax_module::Ty;

/// What a pointer points into: a global, or the alloca of an instruction.
#[derive(Clone, Copy)]
pub enum Object {
    Shared(u32),
    Private(u32),
}

/// The result that is an index: a getelementptr's, or a number of a type.
#[derive(Clone, Copy)]
pub enum Origin {
    Gep(u32),
    Number(Ty, u32),
}

/// The index of an element: the text fixes it, or it is brought into register 1.
#[derive(Clone, Copy)]
pub enum Index {
    Fixed(u64),
    Brought(Origin),
}

/// An object and an index of it, which may lie past the last element.
#[derive(Clone, Copy)]
pub struct Pointing {
    pub object: Object,
    pub index: Index,
}
