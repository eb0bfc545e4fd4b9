//! The words of marks.

ghost use Rattle.std.specs.Prelude.{◌≡◌, ◌++◌, OnOk, string_bytes};
ghost use Rattle.ax_table.specs.MarkText.{ending_of, fence_text, mark_text, sizes_of, stem_of};

use crate::sizes::Sizes;
use ax_words::{FenceCode, Mark, MarkCode};
use std::alloc::AllocError;

/// The word of a memory instruction before its size (Intel SDM in AT&T's spelling, Arm ARM, RISC-V
/// manual).
#[tactic(auto, unfolding(crate::specs::MarkText::stem_of))]
fn stem(code: MarkCode) -> &'static str
    ensures { result.now ≡ stem_of code }
{
    match code {
        MarkCode::X86Load | MarkCode::X86Store => "mov",
        MarkCode::Xchg => "xchg",
        MarkCode::LockXadd => "lock xadd",
        MarkCode::LockCmpxchg => "lock cmpxchg",
        MarkCode::LockCmpxchg16b => "lock cmpxchg16b",
        MarkCode::Ldr => "ldr",
        MarkCode::Ldar => "ldar",
        MarkCode::Str => "str",
        MarkCode::Stlr => "stlr",
        MarkCode::Ldxr => "ldxr",
        MarkCode::Ldaxr => "ldaxr",
        MarkCode::Stxr => "stxr",
        MarkCode::Stlxr => "stlxr",
        MarkCode::Ldxp => "ldxp",
        MarkCode::Ldaxp => "ldaxp",
        MarkCode::Stxp => "stxp",
        MarkCode::Stlxp => "stlxp",
        MarkCode::Swp => "swp",
        MarkCode::Swpa => "swpa",
        MarkCode::Swpl => "swpl",
        MarkCode::Swpal => "swpal",
        MarkCode::Ldadd => "ldadd",
        MarkCode::Ldadda => "ldadda",
        MarkCode::Ldaddl => "ldaddl",
        MarkCode::Ldaddal => "ldaddal",
        MarkCode::Ldclr => "ldclr",
        MarkCode::Ldclra => "ldclra",
        MarkCode::Ldclrl => "ldclrl",
        MarkCode::Ldclral => "ldclral",
        MarkCode::Ldset => "ldset",
        MarkCode::Ldseta => "ldseta",
        MarkCode::Ldsetl => "ldsetl",
        MarkCode::Ldsetal => "ldsetal",
        MarkCode::Ldeor => "ldeor",
        MarkCode::Ldeora => "ldeora",
        MarkCode::Ldeorl => "ldeorl",
        MarkCode::Ldeoral => "ldeoral",
        MarkCode::Ldsmax => "ldsmax",
        MarkCode::Ldsmaxa => "ldsmaxa",
        MarkCode::Ldsmaxl => "ldsmaxl",
        MarkCode::Ldsmaxal => "ldsmaxal",
        MarkCode::Ldsmin => "ldsmin",
        MarkCode::Ldsmina => "ldsmina",
        MarkCode::Ldsminl => "ldsminl",
        MarkCode::Ldsminal => "ldsminal",
        MarkCode::Ldumax => "ldumax",
        MarkCode::Ldumaxa => "ldumaxa",
        MarkCode::Ldumaxl => "ldumaxl",
        MarkCode::Ldumaxal => "ldumaxal",
        MarkCode::Ldumin => "ldumin",
        MarkCode::Ldumina => "ldumina",
        MarkCode::Lduminl => "lduminl",
        MarkCode::Lduminal => "lduminal",
        MarkCode::Cas => "cas",
        MarkCode::Casa => "casa",
        MarkCode::Casl => "casl",
        MarkCode::Casal => "casal",
        MarkCode::Casp => "casp",
        MarkCode::Caspa => "caspa",
        MarkCode::Caspl => "caspl",
        MarkCode::Caspal => "caspal",
        MarkCode::RvLoad => "l",
        MarkCode::RvStore => "s",
        MarkCode::Lr | MarkCode::LrAq | MarkCode::LrAqrl => "lr",
        MarkCode::Sc | MarkCode::ScRl => "sc",
        MarkCode::Amoswap | MarkCode::AmoswapAq | MarkCode::AmoswapRl | MarkCode::AmoswapAqrl =>
            "amoswap",
        MarkCode::Amoadd | MarkCode::AmoaddAq | MarkCode::AmoaddRl | MarkCode::AmoaddAqrl =>
            "amoadd",
        MarkCode::Amoand | MarkCode::AmoandAq | MarkCode::AmoandRl | MarkCode::AmoandAqrl =>
            "amoand",
        MarkCode::Amoor | MarkCode::AmoorAq | MarkCode::AmoorRl | MarkCode::AmoorAqrl => "amoor",
        MarkCode::Amoxor | MarkCode::AmoxorAq | MarkCode::AmoxorRl | MarkCode::AmoxorAqrl =>
            "amoxor",
        MarkCode::Amomax | MarkCode::AmomaxAq | MarkCode::AmomaxRl | MarkCode::AmomaxAqrl =>
            "amomax",
        MarkCode::Amomin | MarkCode::AmominAq | MarkCode::AmominRl | MarkCode::AmominAqrl =>
            "amomin",
        MarkCode::Amomaxu | MarkCode::AmomaxuAq | MarkCode::AmomaxuRl | MarkCode::AmomaxuAqrl =>
            "amomaxu",
        MarkCode::Amominu | MarkCode::AmominuAq | MarkCode::AmominuRl | MarkCode::AmominuAqrl =>
            "amominu",
    }
}

#[tactic(auto, unfolding(crate::specs::MarkText::sizes_of))]
fn sizes(code: MarkCode) -> Sizes
    ensures { result ≡ sizes_of code }
{
    match code {
        MarkCode::X86Load => Sizes::X86Extended,
        MarkCode::X86Store | MarkCode::Xchg | MarkCode::LockXadd | MarkCode::LockCmpxchg =>
            Sizes::X86,
        MarkCode::LockCmpxchg16b
        | MarkCode::Ldxp
        | MarkCode::Ldaxp
        | MarkCode::Stxp
        | MarkCode::Stlxp => Sizes::Fixed,
        MarkCode::Casp | MarkCode::Caspa | MarkCode::Caspl | MarkCode::Caspal => Sizes::Fixed,
        MarkCode::Ldr
        | MarkCode::Ldar
        | MarkCode::Str
        | MarkCode::Stlr
        | MarkCode::Ldxr
        | MarkCode::Ldaxr
        | MarkCode::Stxr
        | MarkCode::Stlxr => Sizes::Arm,
        MarkCode::Swp | MarkCode::Swpa | MarkCode::Swpl | MarkCode::Swpal => Sizes::Arm,
        MarkCode::Ldadd | MarkCode::Ldadda | MarkCode::Ldaddl | MarkCode::Ldaddal => Sizes::Arm,
        MarkCode::Ldclr | MarkCode::Ldclra | MarkCode::Ldclrl | MarkCode::Ldclral => Sizes::Arm,
        MarkCode::Ldset | MarkCode::Ldseta | MarkCode::Ldsetl | MarkCode::Ldsetal => Sizes::Arm,
        MarkCode::Ldeor | MarkCode::Ldeora | MarkCode::Ldeorl | MarkCode::Ldeoral => Sizes::Arm,
        MarkCode::Ldsmax | MarkCode::Ldsmaxa | MarkCode::Ldsmaxl | MarkCode::Ldsmaxal => Sizes::Arm,
        MarkCode::Ldsmin | MarkCode::Ldsmina | MarkCode::Ldsminl | MarkCode::Ldsminal => Sizes::Arm,
        MarkCode::Ldumax | MarkCode::Ldumaxa | MarkCode::Ldumaxl | MarkCode::Ldumaxal => Sizes::Arm,
        MarkCode::Ldumin | MarkCode::Ldumina | MarkCode::Lduminl | MarkCode::Lduminal => Sizes::Arm,
        MarkCode::Cas | MarkCode::Casa | MarkCode::Casl | MarkCode::Casal => Sizes::Arm,
        MarkCode::RvLoad => Sizes::RvExtended,
        MarkCode::RvStore => Sizes::RvPlain,
        MarkCode::Lr | MarkCode::LrAq | MarkCode::LrAqrl | MarkCode::Sc | MarkCode::ScRl =>
            Sizes::RvAtomic,
        MarkCode::Amoswap | MarkCode::AmoswapAq | MarkCode::AmoswapRl | MarkCode::AmoswapAqrl =>
            Sizes::RvAtomic,
        MarkCode::Amoadd | MarkCode::AmoaddAq | MarkCode::AmoaddRl | MarkCode::AmoaddAqrl =>
            Sizes::RvAtomic,
        MarkCode::Amoand | MarkCode::AmoandAq | MarkCode::AmoandRl | MarkCode::AmoandAqrl =>
            Sizes::RvAtomic,
        MarkCode::Amoor | MarkCode::AmoorAq | MarkCode::AmoorRl | MarkCode::AmoorAqrl =>
            Sizes::RvAtomic,
        MarkCode::Amoxor | MarkCode::AmoxorAq | MarkCode::AmoxorRl | MarkCode::AmoxorAqrl =>
            Sizes::RvAtomic,
        MarkCode::Amomax | MarkCode::AmomaxAq | MarkCode::AmomaxRl | MarkCode::AmomaxAqrl =>
            Sizes::RvAtomic,
        MarkCode::Amomin | MarkCode::AmominAq | MarkCode::AmominRl | MarkCode::AmominAqrl =>
            Sizes::RvAtomic,
        MarkCode::Amomaxu | MarkCode::AmomaxuAq | MarkCode::AmomaxuRl | MarkCode::AmomaxuAqrl =>
            Sizes::RvAtomic,
        MarkCode::Amominu | MarkCode::AmominuAq | MarkCode::AmominuRl | MarkCode::AmominuAqrl =>
            Sizes::RvAtomic,
    }
}

/// What stands behind the size: operands, or an order.
#[tactic(auto, unfolding(crate::specs::MarkText::ending_of))]
fn ending(code: MarkCode) -> &'static str
    ensures { result.now ≡ ending_of code }
{
    match code {
        MarkCode::X86Load => " m,r",
        MarkCode::X86Store | MarkCode::Xchg | MarkCode::LockXadd | MarkCode::LockCmpxchg => " r,m",
        MarkCode::LockCmpxchg16b => " m",
        MarkCode::LrAq
        | MarkCode::AmoswapAq
        | MarkCode::AmoaddAq
        | MarkCode::AmoandAq
        | MarkCode::AmoorAq
        | MarkCode::AmoxorAq
        | MarkCode::AmomaxAq
        | MarkCode::AmominAq
        | MarkCode::AmomaxuAq
        | MarkCode::AmominuAq => ".aq",
        MarkCode::LrAqrl
        | MarkCode::AmoswapAqrl
        | MarkCode::AmoaddAqrl
        | MarkCode::AmoandAqrl
        | MarkCode::AmoorAqrl
        | MarkCode::AmoxorAqrl
        | MarkCode::AmomaxAqrl
        | MarkCode::AmominAqrl
        | MarkCode::AmomaxuAqrl
        | MarkCode::AmominuAqrl => ".aqrl",
        MarkCode::ScRl
        | MarkCode::AmoswapRl
        | MarkCode::AmoaddRl
        | MarkCode::AmoandRl
        | MarkCode::AmoorRl
        | MarkCode::AmoxorRl
        | MarkCode::AmomaxRl
        | MarkCode::AmominRl
        | MarkCode::AmomaxuRl
        | MarkCode::AmominuRl => ".rl",
        _ => "",
    }
}

fn fence(code: FenceCode) -> &'static str
    ensures { result.now ≡ fence_text code }
{
    match code {
        FenceCode::Mfence => "mfence",
        FenceCode::DmbIshld => "dmb ishld",
        FenceCode::DmbIsh => "dmb ish",
        FenceCode::FenceRRw => "fence r,rw",
        FenceCode::FenceRwW => "fence rw,w",
        FenceCode::FenceRwRw => "fence rw,rw",
        FenceCode::FenceTso => "fence.tso",
    }
}

/// Appends a mark's words.
pub(crate) fn push_mark(out: &mut String, mark: Mark) -> Result<(), AllocError>
    ensures { OnOk result (string_bytes out.new ≡ string_bytes out.old ++ mark_text mark) }
{
    match mark {
        Mark::Memory { code, bytes } => {
            out.push_str(stem(code))?;
            out.push_str(sizes(code).text(bytes))?;
            out.push_str(ending(code))
        }
        Mark::Fence(code) => out.push_str(fence(code)),
        Mark::Call(routine) => out.push_str(routine.name()),
    }
}
