//! The instructions of RV64.

use ax_words::RoutineName;

/// The order ending of an instruction of the A extension.
#[derive(Clone, Copy)]
pub enum Ending {
    Plain,
    Acquire,
    Release,
    AcquireRelease,
}

/// The size of an access of the A extension: `.w` or `.d`.
#[derive(Clone, Copy)]
pub enum Size {
    Word,
    Double,
}

/// The predecessor and successor sets of a fence.
#[derive(Clone, Copy)]
pub enum FenceSets {
    /// `r,rw`
    ReadBeforeAll,
    /// `rw,w`
    AllBeforeWrite,
    /// `rw,rw`
    AllBeforeAll,
    /// `fence.tso`
    TotalStoreOrder,
}

/// Of one register: `mv`, `neg`, `not`, `sext.w`, `seqz`, `snez`.
#[derive(Clone, Copy)]
pub enum Unary {
    Move,
    Negate,
    Not,
    SignExtendWord,
    IsZero,
    IsNotZero,
}

/// Of two registers: `add`, `sub`, `and`, `or`, `xor`, `mul`, `sll`, `srl`, `sra`, `slt`, `sltu`.
#[derive(Clone, Copy)]
pub enum Binary {
    Add,
    Subtract,
    And,
    Or,
    Xor,
    Multiply,
    ShiftLeft,
    ShiftRight,
    ShiftRightSigned,
    IsLess,
    IsBelow,
}

/// Of a register and an amount from 0 to 63: `slli`, `srli`, `srai`.
#[derive(Clone, Copy)]
pub enum Shift {
    Left,
    Right,
    RightSigned,
}

/// Of a register and a number from -2,048 to 2,047: `andi`, `addi`.
#[derive(Clone, Copy)]
pub enum Immediate {
    And,
    Add,
}

/// `lbu`, `lhu`, `lw`, `ld`.
#[derive(Clone, Copy)]
pub enum LoadForm {
    Byte,
    Half,
    Word,
    Double,
}

/// `sb`, `sh`, `sw`, `sd`.
#[derive(Clone, Copy)]
pub enum StoreForm {
    Byte,
    Half,
    Word,
    Double,
}

/// `amoswap`, `amoadd`, `amoand`, `amoor`, `amoxor`, `amomax`, `amomin`, `amomaxu`, `amominu`.
#[derive(Clone, Copy)]
pub enum Amo {
    Swap,
    Add,
    And,
    Or,
    Xor,
    Max,
    Min,
    MaxUnsigned,
    MinUnsigned,
}

/// `beq`, `bne`, `blt`, `bge`, `bltu`, `bgeu`.
#[derive(Clone, Copy)]
pub enum Condition {
    Equal,
    NotEqual,
    Less,
    GreaterEqual,
    Below,
    AboveEqual,
}

/// An instruction. Registers are named by their numbers, 0 to 31, where register 0 reads as 0; a
/// displacement is from -2,048 to 2,047; the distance of a jump is from its own place.
#[derive(Clone, Copy)]
pub enum RvInstr {
    /// `li rd, n`
    Li {
        rd: u8,
        n: u64,
    },
    /// `op rd, rs`
    Unary {
        op: Unary,
        rd: u8,
        rs: u8,
    },
    /// `op rd, rs1, rs2`
    Binary {
        op: Binary,
        rd: u8,
        rs1: u8,
        rs2: u8,
    },
    /// `op rd, rs, k`
    Shift {
        op: Shift,
        rd: u8,
        rs: u8,
        k: u8,
    },
    /// `op rd, rs, n`
    Immediate {
        op: Immediate,
        rd: u8,
        rs: u8,
        n: i16,
    },
    /// `op rd, d(rs1)`
    Load {
        form: LoadForm,
        rd: u8,
        d: i16,
        rs1: u8,
    },
    /// `op rs2, d(rs1)`
    Store {
        form: StoreForm,
        rs2: u8,
        d: i16,
        rs1: u8,
    },
    /// `lr rd, (rs1)` with its size and order ending
    LoadReserved {
        size: Size,
        ending: Ending,
        rd: u8,
        rs1: u8,
    },
    /// `sc rd, rs2, (rs1)` with its size and order ending
    StoreConditional {
        size: Size,
        ending: Ending,
        rd: u8,
        rs2: u8,
        rs1: u8,
    },
    /// `amo rd, rs2, (rs1)` with its size and order ending
    Amo {
        op: Amo,
        size: Size,
        ending: Ending,
        rd: u8,
        rs2: u8,
        rs1: u8,
    },
    /// `fence`, which does nothing on a machine with one flat memory
    Fence(FenceSets),
    /// `j`
    Jump {
        distance: i32,
    },
    /// `jal ra` to the code of a routine
    Call {
        routine: RoutineName,
        place: u32,
    },
    /// `ret`
    Ret,
    /// `op rs1, rs2`, and the place that it goes to
    Branch {
        condition: Condition,
        rs1: u8,
        rs2: u8,
        distance: i32,
    },
    /// `ecall`, which puts out register 10
    Ecall,
    /// `ebreak`, a trap
    Ebreak,
    /// `nop`
    Nop,
}
