//! What a command comes to, before anything is written.

use ax_sched::Cause;

/// A file of a command.
#[derive(Clone, Copy)]
pub enum Part {
    Module,
    Schedule,
}

/// What a command comes to: its text, or what stands in the way. Lines are counted from 1; a place
/// is as a refusal writes it.
#[derive(Drop)]
pub enum Verdict {
    Text(String),
    Usage,
    ReadFault(Part),
    TooLong(Part),
    Syntax { line: u32 },
    Opcode { line: u32 },
    Name { line: u32 },
    Refused { number: u8, place: String },
    Unbuilt,
    Schedule { line: u32, cause: Cause },
    Memory,
}
