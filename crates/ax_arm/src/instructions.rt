//! AArch64 instructions. The fields have the manual's names: registers of data processing are rd,
//! rn and rm, those that are moved rt and rt2, a base is rn, and rs is the status of a pair store
//! or the operand of a locked instruction.

use ax_words::RoutineName;

/// An operation on two registers of 64 bits.
#[derive(Clone, Copy)]
pub enum Alu {
    Add,
    Sub,
    And,
    Orr,
    Eor,
    Mul,
}

/// A shift of 64 bits.
#[derive(Clone, Copy)]
pub enum Shift {
    Lsl,
    Lsr,
    Asr,
}

/// How the low bytes of a register are extended: `uxtb` and `uxth` by zeros, the others by sign.
#[derive(Clone, Copy)]
pub enum Extension {
    Uxtb,
    Uxth,
    Sxtb,
    Sxth,
    Sxtw,
}

/// A condition on the two numbers last compared: `eq` and `ne`, the unsigned `lo`, `hs`, `ls` and
/// `hi`, the signed `lt`, `ge`, `le` and `gt`.
#[derive(Clone, Copy)]
pub enum Condition {
    Eq,
    Ne,
    Lo,
    Hs,
    Ls,
    Hi,
    Lt,
    Ge,
    Le,
    Gt,
}

/// The bytes of an access: 1, 2, 4 or 8. Those of 8 name their register as x, the others as w.
#[derive(Clone, Copy)]
pub enum Size {
    Byte,
    Half,
    Word,
    Double,
}

/// The order ending of an LSE instruction.
#[derive(Clone, Copy)]
pub enum Ending {
    Plain,
    Acquire,
    Release,
    AcquireRelease,
}

/// A locked read-modify-write of LSE.
#[derive(Clone, Copy)]
pub enum Lse {
    Swp,
    Ldadd,
    /// Clears the bits that are set in its operand.
    Ldclr,
    Ldset,
    Ldeor,
    Ldsmax,
    Ldsmin,
    Ldumax,
    Ldumin,
}

/// What a `dmb` orders.
#[derive(Clone, Copy)]
pub enum Barrier {
    Ish,
    Ishld,
}

/// An instruction. Registers are named by their numbers: 0 to 30, and 31 for the stack pointer,
/// which no 32-bit name means. A jump has the distance from its own place.
#[derive(Clone, Copy)]
pub enum ArmInstr {
    /// `ldr x, =n`
    Constant {
        rd: u8,
        n: u64,
    },
    /// `mov x, x`
    Mov {
        rd: u8,
        rn: u8,
    },
    /// `mov w, w`, which clears the upper half
    MovWord {
        rd: u8,
        rn: u8,
    },
    /// `add x, x, x` and the others
    Alu {
        op: Alu,
        rd: u8,
        rn: u8,
        rm: u8,
    },
    /// `neg x, x`
    Neg {
        rd: u8,
        rm: u8,
    },
    /// `mvn x, x`
    Mvn {
        rd: u8,
        rm: u8,
    },
    /// `lsl x, x, #k` and the others, k from 0 to 63
    Shift {
        op: Shift,
        rd: u8,
        rn: u8,
        k: u8,
    },
    /// `uxtb w, w`, `sxtb x, w` and the others
    Extend {
        op: Extension,
        rd: u8,
        rn: u8,
    },
    /// `cmp x, x`
    Cmp {
        rn: u8,
        rm: u8,
    },
    /// `cset x, C`
    Cset {
        rd: u8,
        condition: Condition,
    },
    /// `csel x, x, x, C`: rn where C holds, else rm
    Csel {
        rd: u8,
        rn: u8,
        rm: u8,
        condition: Condition,
    },
    /// `ldrb w, [x, #d]` and the others, d a multiple of the size up to 4,095 times it
    Ldr {
        size: Size,
        rt: u8,
        rn: u8,
        d: u16,
    },
    /// `ldarb w, [x, #0]` and the others
    Ldar {
        size: Size,
        rt: u8,
        rn: u8,
    },
    /// `strb w, [x, #d]` and the others, d as for a load
    Str {
        size: Size,
        rt: u8,
        rn: u8,
        d: u16,
    },
    /// `stlrb w, [x, #0]` and the others
    Stlr {
        size: Size,
        rt: u8,
        rn: u8,
    },
    /// `ldxrb w, [x]` and the others
    Ldxr {
        size: Size,
        rt: u8,
        rn: u8,
    },
    /// `ldaxrb w, [x]` and the others
    Ldaxr {
        size: Size,
        rt: u8,
        rn: u8,
    },
    /// `ldxp x, x, [x]`, the low 8 bytes first
    Ldxp {
        rt: u8,
        rt2: u8,
        rn: u8,
    },
    /// `ldaxp x, x, [x]`
    Ldaxp {
        rt: u8,
        rt2: u8,
        rn: u8,
    },
    /// `stxrb w, w, [x]` and the others
    Stxr {
        size: Size,
        rs: u8,
        rt: u8,
        rn: u8,
    },
    /// `stlxrb w, w, [x]` and the others
    Stlxr {
        size: Size,
        rs: u8,
        rt: u8,
        rn: u8,
    },
    /// `stxp w, x, x, [x]`, the low 8 bytes first
    Stxp {
        rs: u8,
        rt: u8,
        rt2: u8,
        rn: u8,
    },
    /// `stlxp w, x, x, [x]`
    Stlxp {
        rs: u8,
        rt: u8,
        rt2: u8,
        rn: u8,
    },
    /// `ldaddalb w, w, [x]` and the others: the operand rs, the old number in rt
    Lse {
        op: Lse,
        ending: Ending,
        size: Size,
        rs: u8,
        rt: u8,
        rn: u8,
    },
    /// `casalb w, w, [x]` and the others: the expected and then the old number in rs, the new in rt
    Cas {
        ending: Ending,
        size: Size,
        rs: u8,
        rt: u8,
        rn: u8,
    },
    /// `caspal x, x, x, x, [x]`: rs and rt are even, and each stands for itself and the next one
    Casp {
        ending: Ending,
        rs: u8,
        rt: u8,
        rn: u8,
    },
    /// `dmb`, which does nothing on a machine with one flat memory
    Dmb(Barrier),
    /// `b L`
    B {
        d: i32,
    },
    /// `b.C L`
    BCond {
        condition: Condition,
        d: i32,
    },
    /// `cbz x, L`
    Cbz {
        rt: u8,
        d: i32,
    },
    /// `cbnz x, L`
    Cbnz {
        rt: u8,
        d: i32,
    },
    /// `bl` to the first place of a routine
    Bl {
        routine: RoutineName,
        place: u32,
    },
    /// `ret`
    Ret,
    /// `svc #0`, which puts out register 0
    Svc,
    /// `brk #1`
    Brk,
    /// `nop`
    Nop,
}
