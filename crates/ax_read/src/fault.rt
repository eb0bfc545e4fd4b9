//! Why a text is no module.

use thiserror::Error;

/// Why a text is no module. Lines are counted from 1.
///
/// A byte that starts no token comes before any other fault, and a line that is no production in
/// its place before a fault of names.
#[derive(Clone, Copy, Debug, Error)]
pub enum ReadFault {
    /// The line has a byte that starts no token, or is no production in its place, or is the last
    /// line of a text that ends in a function.
    #[error("line {line} is none of a module")]
    Syntax { line: u32 },
    /// The line stands in a function and has an unknown word for an opcode.
    #[error("line {line} has an unknown opcode")]
    Opcode { line: u32 },
    /// The line uses an undeclared name, declares a name again, or defines a reserved function.
    #[error("line {line} has a name that does not fit")]
    Name { line: u32 },
    /// Memory ran out.
    #[error("memory ran out")]
    Memory,
}
