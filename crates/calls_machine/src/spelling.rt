//! Marks as the mapping table has them.

use ax_words::{FenceCode, Mark, MarkCode};
use std::alloc::AllocError;

/// AT&T's letters.
const LETTERS: [&str; 4] = ["b", "w", "l", "q"];

/// AT&T's loads, of which the short ones extend.
const EXTENDED: [&str; 4] = ["zbq", "zwq", "l", "q"];

/// AArch64's endings: two of names, and two of registers.
const NAMED: [&str; 4] = ["b", "h", " w", " x"];

/// RV64's loads, of which the short ones extend.
const LOADED: [&str; 4] = ["bu", "hu", "w", "d"];

const STORED: [&str; 4] = ["b", "h", "w", "d"];

/// RV64's atomic instructions, which have two sizes.
const DOTTED: [&str; 4] = ["", "", ".w", ".d"];

/// How an instruction of RV64 is spelled, with the name of its sizes.
fn rv_spelling(code: MarkCode) -> &'static str {
    match code {
        MarkCode::RvLoad => "l<load>",
        MarkCode::RvStore => "s<store>",
        MarkCode::Lr => "lr<rv>",
        MarkCode::LrAq => "lr<rv>.aq",
        MarkCode::LrAqrl => "lr<rv>.aqrl",
        MarkCode::Sc => "sc<rv>",
        MarkCode::ScRl => "sc<rv>.rl",
        MarkCode::Amoswap => "amoswap<rv>",
        MarkCode::AmoswapAq => "amoswap<rv>.aq",
        MarkCode::AmoswapRl => "amoswap<rv>.rl",
        MarkCode::AmoswapAqrl => "amoswap<rv>.aqrl",
        MarkCode::Amoadd => "amoadd<rv>",
        MarkCode::AmoaddAq => "amoadd<rv>.aq",
        MarkCode::AmoaddRl => "amoadd<rv>.rl",
        MarkCode::AmoaddAqrl => "amoadd<rv>.aqrl",
        MarkCode::Amoand => "amoand<rv>",
        MarkCode::AmoandAq => "amoand<rv>.aq",
        MarkCode::AmoandRl => "amoand<rv>.rl",
        MarkCode::AmoandAqrl => "amoand<rv>.aqrl",
        MarkCode::Amoor => "amoor<rv>",
        MarkCode::AmoorAq => "amoor<rv>.aq",
        MarkCode::AmoorRl => "amoor<rv>.rl",
        MarkCode::AmoorAqrl => "amoor<rv>.aqrl",
        MarkCode::Amoxor => "amoxor<rv>",
        MarkCode::AmoxorAq => "amoxor<rv>.aq",
        MarkCode::AmoxorRl => "amoxor<rv>.rl",
        MarkCode::AmoxorAqrl => "amoxor<rv>.aqrl",
        MarkCode::Amomax => "amomax<rv>",
        MarkCode::AmomaxAq => "amomax<rv>.aq",
        MarkCode::AmomaxRl => "amomax<rv>.rl",
        MarkCode::AmomaxAqrl => "amomax<rv>.aqrl",
        MarkCode::Amomin => "amomin<rv>",
        MarkCode::AmominAq => "amomin<rv>.aq",
        MarkCode::AmominRl => "amomin<rv>.rl",
        MarkCode::AmominAqrl => "amomin<rv>.aqrl",
        MarkCode::Amomaxu => "amomaxu<rv>",
        MarkCode::AmomaxuAq => "amomaxu<rv>.aq",
        MarkCode::AmomaxuRl => "amomaxu<rv>.rl",
        MarkCode::AmomaxuAqrl => "amomaxu<rv>.aqrl",
        MarkCode::Amominu => "amominu<rv>",
        MarkCode::AmominuAq => "amominu<rv>.aq",
        MarkCode::AmominuRl => "amominu<rv>.rl",
        MarkCode::AmominuAqrl => "amominu<rv>.aqrl",
        _ => "?",
    }
}

/// How a memory instruction is spelled, with the name of its sizes where it has several.
fn spelling(code: MarkCode) -> &'static str {
    match code {
        MarkCode::X86Load => "mov<ext> m,r",
        MarkCode::X86Store => "mov<att> r,m",
        MarkCode::Xchg => "xchg<att> r,m",
        MarkCode::LockXadd => "lock xadd<att> r,m",
        MarkCode::LockCmpxchg => "lock cmpxchg<att> r,m",
        MarkCode::LockCmpxchg16b => "lock cmpxchg16b m",
        MarkCode::Ldr => "ldr<arm>",
        MarkCode::Ldar => "ldar<arm>",
        MarkCode::Str => "str<arm>",
        MarkCode::Stlr => "stlr<arm>",
        MarkCode::Ldxr => "ldxr<arm>",
        MarkCode::Ldaxr => "ldaxr<arm>",
        MarkCode::Stxr => "stxr<arm>",
        MarkCode::Stlxr => "stlxr<arm>",
        MarkCode::Ldxp => "ldxp",
        MarkCode::Ldaxp => "ldaxp",
        MarkCode::Stxp => "stxp",
        MarkCode::Stlxp => "stlxp",
        MarkCode::Swp => "swp<arm>",
        MarkCode::Swpa => "swpa<arm>",
        MarkCode::Swpl => "swpl<arm>",
        MarkCode::Swpal => "swpal<arm>",
        MarkCode::Ldadd => "ldadd<arm>",
        MarkCode::Ldadda => "ldadda<arm>",
        MarkCode::Ldaddl => "ldaddl<arm>",
        MarkCode::Ldaddal => "ldaddal<arm>",
        MarkCode::Ldclr => "ldclr<arm>",
        MarkCode::Ldclra => "ldclra<arm>",
        MarkCode::Ldclrl => "ldclrl<arm>",
        MarkCode::Ldclral => "ldclral<arm>",
        MarkCode::Ldset => "ldset<arm>",
        MarkCode::Ldseta => "ldseta<arm>",
        MarkCode::Ldsetl => "ldsetl<arm>",
        MarkCode::Ldsetal => "ldsetal<arm>",
        MarkCode::Ldeor => "ldeor<arm>",
        MarkCode::Ldeora => "ldeora<arm>",
        MarkCode::Ldeorl => "ldeorl<arm>",
        MarkCode::Ldeoral => "ldeoral<arm>",
        MarkCode::Ldsmax => "ldsmax<arm>",
        MarkCode::Ldsmaxa => "ldsmaxa<arm>",
        MarkCode::Ldsmaxl => "ldsmaxl<arm>",
        MarkCode::Ldsmaxal => "ldsmaxal<arm>",
        MarkCode::Ldsmin => "ldsmin<arm>",
        MarkCode::Ldsmina => "ldsmina<arm>",
        MarkCode::Ldsminl => "ldsminl<arm>",
        MarkCode::Ldsminal => "ldsminal<arm>",
        MarkCode::Ldumax => "ldumax<arm>",
        MarkCode::Ldumaxa => "ldumaxa<arm>",
        MarkCode::Ldumaxl => "ldumaxl<arm>",
        MarkCode::Ldumaxal => "ldumaxal<arm>",
        MarkCode::Ldumin => "ldumin<arm>",
        MarkCode::Ldumina => "ldumina<arm>",
        MarkCode::Lduminl => "lduminl<arm>",
        MarkCode::Lduminal => "lduminal<arm>",
        MarkCode::Cas => "cas<arm>",
        MarkCode::Casa => "casa<arm>",
        MarkCode::Casl => "casl<arm>",
        MarkCode::Casal => "casal<arm>",
        MarkCode::Casp => "casp",
        MarkCode::Caspa => "caspa",
        MarkCode::Caspl => "caspl",
        MarkCode::Caspal => "caspal",
        _ => rv_spelling(code),
    }
}

fn fence_word(code: FenceCode) -> &'static str {
    match code {
        FenceCode::Mfence => "mfence",
        FenceCode::DmbIshld => "dmb ishld",
        FenceCode::DmbIsh => "dmb ish",
        FenceCode::FenceRRw => "fence r,rw",
        FenceCode::FenceRwW => "fence rw,w",
        FenceCode::FenceRwRw => "fence rw,rw",
        FenceCode::FenceTso => "fence.tso",
    }
}

/// How sizes of a name spell so many bytes.
fn size_of(name: &str, bytes: u8) -> &'static str {
    let [byte, half, word, double] = match name {
        "att" => LETTERS,
        "ext" => EXTENDED,
        "arm" => NAMED,
        "load" => LOADED,
        "store" => STORED,
        _ => DOTTED,
    };
    match bytes {
        1 => byte,
        2 => half,
        4 => word,
        8 => double,
        _ => "?",
    }
}

fn push_memory(out: &mut String, code: MarkCode, bytes: u8) -> Result<(), AllocError> {
    let spelling = spelling(code);
    let Some((front, rest)) = spelling.split_once('<') else {
        return out.push_str(spelling);
    };
    let (name, back) = rest.split_once('>').unwrap_or((rest, ""));
    let size = size_of(name, bytes);
    write!(out, "{front}{size}{back}")
}

/// Appends a mark: an instruction with its size, a fence, or the routine that is called.
pub(crate) fn push_mark(out: &mut String, mark: Mark) -> Result<(), AllocError> {
    match mark {
        Mark::Memory { code, bytes } => push_memory(out, code, bytes),
        Mark::Fence(code) => out.push_str(fence_word(code)),
        Mark::Call(routine) => out.push_str(routine.name()),
    }
}
