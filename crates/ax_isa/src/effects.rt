//! What an instruction does, with the numbers that it read from the registers.

use ax_words::RmwOp;

/// How a register of 8 bytes takes a number of fewer bytes.
#[derive(Clone, Copy)]
pub enum Rest {
    /// Extended by zeros.
    Zeros,
    /// Extended by its sign.
    Signs,
    /// In the low bytes alone; the others stay.
    Stays,
}

/// What a locked instruction leaves where it found the old number.
#[derive(Clone, Copy)]
pub enum Change {
    /// The result of an operation on the old number and this one.
    Update {
        op: RmwOp,
        number: u64,
    },
    /// The new number, where the old one is the expected one. Where `compares`, the two become the
    /// pair last compared, and the registers get the old number only where it is another.
    Exchange {
        expected: u128,
        number: u128,
        compares: bool,
    },
}

/// Where a return place is kept.
#[derive(Clone, Copy)]
pub enum Saved {
    /// In a register.
    Register(u8),
    /// In the 8 bytes at an address, which the stack pointer then names.
    Stack { pointer: u8, address: u64 },
}

/// Where a return finds its place.
#[derive(Clone, Copy)]
pub enum Back {
    /// It is this number.
    Place(u64),
    /// It is the number in the 8 bytes at an address. The stack pointer then names the byte after them.
    Stack { pointer: u8, address: u64 },
}

/// The effect of one instruction. Registers are named by number and sizes are in bytes. Of a
/// number of 16 bytes the register `to` gets the low 8 and the register `high` the others.
#[derive(Clone, Copy)]
pub enum Effect {
    /// A register gets a number.
    Set {
        to: u8,
        number: u64,
    },
    /// Two numbers become the pair last compared.
    Compare {
        left: u64,
        right: u64,
    },
    /// A register gets the number at an address. Where `ends_half` this is the second step of a linked load of 16 bytes.
    Load {
        to: u8,
        address: u64,
        bytes: u8,
        rest: Rest,
        ends_half: bool,
    },
    /// The low bytes of a number are stored.
    Store {
        address: u64,
        bytes: u8,
        number: u64,
    },
    /// A locked change of a number in memory.
    Locked {
        to: u8,
        high: u8,
        address: u64,
        bytes: u8,
        rest: Rest,
        change: Change,
    },
    /// The own stores that wait go to memory.
    Fence,
    /// A linked load.
    Link {
        to: u8,
        address: u64,
        bytes: u8,
        rest: Rest,
    },
    /// The first step of a linked load of 16 bytes: the low 8.
    LinkHalf {
        to: u8,
        address: u64,
    },
    /// A pair store. The register gets 0 where it wrote, else 1.
    PairStore {
        to: u8,
        address: u64,
        bytes: u8,
        number: u128,
    },
    /// Goes to a place.
    Jump {
        place: u64,
    },
    /// Calls the code at a place.
    CallTo {
        place: u64,
        saved: Saved,
    },
    /// Goes back to a place; place 0 ends the processor.
    Return {
        back: Back,
    },
    /// Appends a number to the outputs.
    Output {
        number: u64,
    },
    /// Ends the processor, at its place.
    Trap,
    /// Nothing but going on.
    Nop,
}

/// What a step shows beside the processor and the storage. All are None after a step that ends
/// in Stuck.
#[derive(Clone, Copy)]
pub struct Outcome {
    /// Whether a pair store or a locked instruction wrote.
    pub stored: Option<bool>,
    /// The number that a load, a linked load or a locked instruction read.
    pub loaded: Option<u128>,
    /// The number that an output appends.
    pub output: Option<u64>,
}
