//! What ties an instruction to source events.

/// In which call of a routine a processor is: none, the whole of an operation, the load before a
/// library loop, or the exchange of such a loop.
#[derive(Clone, Copy)]
pub enum Role {
    None,
    Whole,
    Probe,
    Compare,
}

/// Which source event a step of an instruction gives. A register is named by its number.
#[derive(Clone, Copy)]
pub enum Tag {
    /// None.
    Silent,
    /// The `Act` of its processor.
    Act,
    /// The `Act` where the pair store or the compare stored.
    Stored,
    /// The same, at the pair store that writes a loaded number of 16 bytes back.
    Back,
    /// The `Act` where the pair store stored, else the `Miss`.
    StoredOrMiss,
    /// The `Act` where the loaded number is not the expected one, else the `Look` where weak. Both
    /// numbers are masked by a register where one is named.
    Linked {
        weak: bool,
        expected: u8,
        mask: Option<u8>,
    },
    /// None; the role of the processor until the return.
    Call(Role),
    /// The `Act`; where the routine only compares, only if the register says that it stored.
    Free {
        stored: Option<u8>,
    },
}
