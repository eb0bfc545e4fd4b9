//! x86-64 instructions.

ghost use Rattle.std.specs.Prelude.{◌≡◌};
ghost use Rattle.ax_x86.specs.Sizes.{size_bytes};

use ax_words::RoutineName;

/// An operation of two registers of 64 bits.
#[derive(Clone, Copy)]
pub enum Alu {
    Add,
    Sub,
    And,
    Or,
    Xor,
    Imul,
}

/// A shift by a count: to the left, to the right with zeros, to the right with the sign.
#[derive(Clone, Copy)]
pub enum Shift {
    Shl,
    Shr,
    Sar,
}

/// How the low bytes of a register fill another of 64 bits.
#[derive(Clone, Copy)]
pub enum Extension {
    /// `movzbq`
    ZeroByte,
    /// `movzwq`
    ZeroWord,
    /// `movl`
    ZeroLong,
    /// `movsbq`
    SignByte,
    /// `movswq`
    SignWord,
    /// `movslq`
    SignLong,
}

/// A condition on the pair last compared; the first five are of unsigned numbers.
#[derive(Clone, Copy)]
pub enum Condition {
    Equal,
    NotEqual,
    Below,
    AboveOrEqual,
    BelowOrEqual,
    Above,
    Less,
    GreaterOrEqual,
    LessOrEqual,
    Greater,
}

/// The size of an operand: 1, 2, 4 or 8 bytes.
#[derive(Clone, Copy)]
pub enum Size {
    Byte,
    Word,
    Long,
    Quad,
}

impl Size {
    /// The size in bytes.
    pub fn bytes(self) -> u8
        ensures { result ≡ size_bytes self }
    {
        match self {
            Size::Byte => 1,
            Size::Word => 2,
            Size::Long => 4,
            Size::Quad => 8,
        }
    }
}

/// The bytes at a register's number and a displacement.
#[derive(Clone, Copy)]
pub struct MemoryOperand {
    pub displacement: i32,
    pub base: u8,
}

/// An instruction, its operands in the order of AT&T's syntax. Registers are named by their
/// numbers: 0 to 15 are rax, rcx, rdx, rbx, rsp, rbp, rsi, rdi, r8 to r15. A count is at most 63.
/// A jump has the distance from its own place, in instructions; a call has the place that it calls
/// and the routine that stands there.
#[derive(Clone, Copy)]
pub enum X86Instr {
    /// `movabsq $n, to`
    Movabs {
        n: u64,
        to: u8,
    },
    /// `movq from, to`
    Mov {
        from: u8,
        to: u8,
    },
    /// `addq from, to` and its like
    Alu {
        op: Alu,
        from: u8,
        to: u8,
    },
    /// `negq to`
    Neg {
        to: u8,
    },
    /// `notq to`
    Not {
        to: u8,
    },
    /// `shlq $count, to` and its like
    Shift {
        op: Shift,
        count: u8,
        to: u8,
    },
    /// `movzbq from, to` and its like
    Extend {
        kind: Extension,
        from: u8,
        to: u8,
    },
    /// `cmpq right, left`
    Cmp {
        right: u8,
        left: u8,
    },
    /// `sete to` and its like
    Setcc {
        condition: Condition,
        to: u8,
    },
    /// `cmove from, to` and its like
    Cmovcc {
        condition: Condition,
        from: u8,
        to: u8,
    },
    /// `movzbq memory, to`, `movzwq`, `movl`, `movq`
    Load {
        size: Size,
        memory: MemoryOperand,
        to: u8,
    },
    /// `movb from, memory` and its like
    Store {
        size: Size,
        from: u8,
        memory: MemoryOperand,
    },
    /// `xchgb with, memory` and its like
    Xchg {
        size: Size,
        with: u8,
        memory: MemoryOperand,
    },
    /// `lock xaddb with, memory` and its like
    LockXadd {
        size: Size,
        with: u8,
        memory: MemoryOperand,
    },
    /// `lock cmpxchgb from, memory` and its like
    LockCmpxchg {
        size: Size,
        from: u8,
        memory: MemoryOperand,
    },
    /// `lock cmpxchg16b memory`
    LockCmpxchg16b {
        memory: MemoryOperand,
    },
    /// `mfence`
    Mfence,
    /// `jmp`
    Jmp {
        distance: i32,
    },
    /// `je` and its like
    Jcc {
        condition: Condition,
        distance: i32,
    },
    /// `call routine`
    Call {
        routine: RoutineName,
        place: u32,
    },
    /// `ret`
    Ret,
    /// `syscall`, which puts out rdi
    Syscall,
    /// `ud2`
    Ud2,
    /// `nop`
    Nop,
}
