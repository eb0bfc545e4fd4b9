//! The address map: where the lock table, the globals and the frames lie. All numbers are
//! addresses or counts of bytes.
#![tactic(auto)]

/// The first address of the lock table, whose words stand 64 bytes apart.
pub const LOCK_TABLE_START: u64 = 0x8000;

/// The address behind the lock table.
pub const LOCK_TABLE_END: u64 = 0xc000;

/// Where the first global's addresses begin.
pub const GLOBALS_START: u64 = 0x1_0000;

/// The greatest address at which the globals may end.
pub const GLOBALS_LIMIT: u64 = 0x11_0000;

/// Where the addresses of the first processor's frame begin.
pub const FRAMES_START: u64 = 0x100_0000;

/// The addresses of each processor's frame, which has at most as many bytes.
pub const FRAME_ROOM: u64 = 0x2_0000;

/// How far behind the beginning of a frame's addresses a stack pointer begins.
pub const STACK_OFFSET: u64 = FRAME_ROOM - 8;
