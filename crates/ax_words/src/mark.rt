//! Operations and the marks of their rows: memory accesses with their orders, fences and calls.

ghost use Rattle.std.specs.Prelude.{◌≡◌};

use crate::operation::RmwOp;
use crate::routine::RoutineName;

/// An atomic operation.
#[derive(Clone, Copy)]
pub enum Op {
    Load,
    Store,
    Cmpxchg,
    Rmw(RmwOp),
    Fence,
}

/// A memory instruction and its order, without its size: x86-64's in AT&T's spelling, AArch64's
/// with its pairs and LSE, and RV64's with its A extension.
#[derive(Clone, Copy)]
pub enum MarkCode {
    /// `movzbq m,r`, `movzwq m,r`, `movl m,r`, `movq m,r`.
    X86Load,
    /// `movS r,m`.
    X86Store,
    /// `xchgS r,m`.
    Xchg,
    /// `lock xaddS r,m`.
    LockXadd,
    /// `lock cmpxchgS r,m`.
    LockCmpxchg,
    /// `lock cmpxchg16b m`.
    LockCmpxchg16b,
    /// `ldrb`, `ldrh`, `ldr w`, `ldr x`; the sizes of the next seven are spelled alike.
    Ldr,
    Ldar,
    Str,
    Stlr,
    Ldxr,
    Ldaxr,
    Stxr,
    Stlxr,
    Ldxp,
    Ldaxp,
    Stxp,
    Stlxp,
    /// `swp`, then the order ending, then the size, as in `swpalb` and `swpal x`; the next are alike.
    Swp,
    Swpa,
    Swpl,
    Swpal,
    Ldadd,
    Ldadda,
    Ldaddl,
    Ldaddal,
    Ldclr,
    Ldclra,
    Ldclrl,
    Ldclral,
    Ldset,
    Ldseta,
    Ldsetl,
    Ldsetal,
    Ldeor,
    Ldeora,
    Ldeorl,
    Ldeoral,
    Ldsmax,
    Ldsmaxa,
    Ldsmaxl,
    Ldsmaxal,
    Ldsmin,
    Ldsmina,
    Ldsminl,
    Ldsminal,
    Ldumax,
    Ldumaxa,
    Ldumaxl,
    Ldumaxal,
    Ldumin,
    Ldumina,
    Lduminl,
    Lduminal,
    Cas,
    Casa,
    Casl,
    Casal,
    /// `casp`, then the order ending; it has one size.
    Casp,
    Caspa,
    Caspl,
    Caspal,
    /// `lbu`, `lhu`, `lw`, `ld`.
    RvLoad,
    /// `sb`, `sh`, `sw`, `sd`.
    RvStore,
    /// `lr`, then the size, then the order ending, as in `lr.w.aq`; the next are alike.
    Lr,
    LrAq,
    LrAqrl,
    Sc,
    ScRl,
    Amoswap,
    AmoswapAq,
    AmoswapRl,
    AmoswapAqrl,
    Amoadd,
    AmoaddAq,
    AmoaddRl,
    AmoaddAqrl,
    Amoand,
    AmoandAq,
    AmoandRl,
    AmoandAqrl,
    Amoor,
    AmoorAq,
    AmoorRl,
    AmoorAqrl,
    Amoxor,
    AmoxorAq,
    AmoxorRl,
    AmoxorAqrl,
    Amomax,
    AmomaxAq,
    AmomaxRl,
    AmomaxAqrl,
    Amomin,
    AmominAq,
    AmominRl,
    AmominAqrl,
    Amomaxu,
    AmomaxuAq,
    AmomaxuRl,
    AmomaxuAqrl,
    Amominu,
    AmominuAq,
    AmominuRl,
    AmominuAqrl,
}

/// A fence instruction.
#[derive(Clone, Copy)]
pub enum FenceCode {
    /// `mfence` of x86-64.
    Mfence,
    /// `dmb ishld` of AArch64.
    DmbIshld,
    /// `dmb ish` of AArch64.
    DmbIsh,
    /// `fence r,rw` of RV64.
    FenceRRw,
    /// `fence rw,w` of RV64.
    FenceRwW,
    /// `fence rw,rw` of RV64.
    FenceRwRw,
    /// `fence.tso` of RV64.
    FenceTso,
}

/// What is checked of an instruction that touches memory: which access it is and how many bytes it
/// touches, which fence, or which routine it calls.
#[derive(Clone, Copy)]
pub enum Mark {
    Memory { code: MarkCode, bytes: u8 },
    Fence(FenceCode),
    Call(RoutineName),
}

/// The mark that fills the empty places of a row. It stands for no instruction.
impl Default for Mark {
    ghost use Rattle.ax_words.specs.declared.mark.Mark.{Mark};
    ghost use Rattle.ax_words.specs.declared.mark.MarkCode.{MarkCode};

    ghost is_default = { λ mark. mark ≡ Mark.Memory MarkCode.X86Load 0 };

    fn default() -> Self {
        Mark::Memory {
            code: MarkCode::X86Load,
            bytes: 0,
        }
    }
}
