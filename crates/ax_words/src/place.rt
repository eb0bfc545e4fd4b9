//! Places of a module: a global, the head of a function, an instruction.

/// An instruction of a module: the number of its function, and its number in that function.
///
/// Both count from 0. Instructions are numbered block after block.
#[derive(Clone, Copy, Debug)]
pub struct Site {
    pub function: u32,
    pub instruction: u32,
}

/// A place of a module. In module order the globals come first, and then each function with its
/// head before its instructions.
#[derive(Clone, Copy, Debug)]
pub enum Place {
    Global(u32),
    Head(u32),
    Inst(Site),
}
