//! One processor of a machine.

use ax_tags::Role;

/// What a processor is doing. It is stuck after an access that is misaligned or outside the
/// regions of memory, and after going to a place that is no number below 2^32 or has no instruction.
#[derive(Clone, Copy, PartialEq, Eq)]
pub enum Status {
    Running,
    Ended,
    Trapped,
    Stuck,
}

/// A processor: its 32 registers of 64 bits, the pair of numbers last compared, whether it is
/// between the two steps of a linked load of 16 bytes, the place of its next instruction, counted
/// from 1, its status, and its role.
#[derive(Clone, Copy)]
pub struct Cpu {
    pub regs: [u64; 32],
    pub compared: (u64, u64),
    pub half: bool,
    pub place: u32,
    pub status: Status,
    pub role: Role,
}
