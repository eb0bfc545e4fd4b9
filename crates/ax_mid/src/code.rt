//! Middle code.

use crate::instruction::MidInst;
use ax_tags::Tag;
use ax_words::{Items, Site};

/// The objects of a global: where the first lies, the bytes of each, how many there are, and
/// whether they are native on the target.
#[derive(Clone, Copy)]
pub struct MidGlobal {
    pub address: u64,
    pub bytes: u64,
    pub count: u64,
    pub native: bool,
}

/// An instruction, the instruction of the source of which it is a part, and its tag.
#[derive(Drop)]
pub struct Line<R> {
    pub inst: MidInst<R>,
    pub site: Site,
    pub tag: Tag,
}

/// Middle code: the globals, and the code of all functions.
#[derive(Drop)]
pub struct Mid<R> {
    pub globals: Items<MidGlobal>,
    pub lines: Items<Line<R>>,
}
