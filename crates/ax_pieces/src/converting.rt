//! Choices, conversions, and parts of pairs.

ghost use Rattle.std.specs.Prelude.{◌≡◌, ◌<◌, OnOk, false, true};
ghost use Rattle.ax_mid.specs.Built.{pushed};
ghost use Rattle.ax_pieces.specs.Near.{IsNearChoice, IsNearConversion};
ghost use Rattle.ax_selected.specs.Operands.{is_narrow};
ghost use Rattle.ax_selected.specs.Pieces.{convert_lines, extract_lines, select_lines};
ghost use Rattle.ax_selected.specs.Selected.{straight};

use crate::lines::{
    Code, acting, copy, cut_into, flag_of, high_into, high_of, is_narrow, low_into, low_of,
    push_straight, width,
};
use crate::parts::{Choice, Conversion};
use ax_mid::{MidInst, Virtual};
use ax_module::{Cast, Ty};
use ax_words::Site;
use std::alloc::AllocError;

/// A choice between numbers of at most 64 bits.
fn narrow_select(code: &mut Code, site: Site, v: Choice) -> Result<(), AllocError>
    requires near { IsNearChoice site.instruction v }
    requires small { is_narrow v.ty ≡ true }
    ensures { OnOk result (code.new ≡ pushed (straight site.function site.instruction (select_lines site.instruction v.test v.ty v.a v.other v.b)) code.old) }
{
    let low = Virtual(low_of(site.instruction));
    push_straight(
        code,
        site,
        [
            low_into(0, Ty::I1, v.test),
            low_into(1, v.ty, v.a),
            low_into(2, v.other, v.b),
        ],
        MidInst::Select(low, Virtual(0), Virtual(1), Virtual(2)),
    )
}

/// A choice between numbers of 128 bits.
fn wide_select(code: &mut Code, site: Site, v: Choice) -> Result<(), AllocError>
    requires near { IsNearChoice site.instruction v }
    requires large { is_narrow v.ty ≡ false }
    ensures { OnOk result (code.new ≡ pushed (straight site.function site.instruction (select_lines site.instruction v.test v.ty v.a v.other v.b)) code.old) }
{
    let low = Virtual(low_of(site.instruction));
    let high = Virtual(high_of(site.instruction));
    push_straight(
        code,
        site,
        [
            low_into(0, Ty::I1, v.test),
            low_into(1, v.ty, v.a),
            low_into(2, v.other, v.b),
            high_into(3, v.ty, v.a),
            high_into(4, v.other, v.b),
            MidInst::Select(high, Virtual(0), Virtual(3), Virtual(4)),
        ],
        MidInst::Select(low, Virtual(0), Virtual(1), Virtual(2)),
    )
}

/// The lines of a `select` (LLVM Language Reference, `select`). Memory is its only refusal.
pub fn push_select(code: &mut Code, site: Site, v: Choice) -> Result<(), AllocError>
    requires { IsNearChoice site.instruction v }
    ensures { OnOk result (code.new ≡ pushed (straight site.function site.instruction (select_lines site.instruction v.test v.ty v.a v.other v.b)) code.old) }
{
    if is_narrow(v.ty) {
        narrow_select(code, site, v)
    } else {
        wide_select(code, site, v)
    }
}

/// The lines of a conversion (LLVM Language Reference, Conversion Operations); none by sign has 128
/// bits. Memory is its only refusal.
pub fn push_convert(
    code: &mut Code,
    site: Site,
    cast: Cast,
    v: Conversion,
) -> Result<(), AllocError>
    requires { IsNearConversion site.instruction v }
    ensures { OnOk result (code.new ≡ pushed (straight site.function site.instruction (convert_lines cast site.instruction v.ty v.a v.to)) code.old) }
{
    let low = low_of(site.instruction);
    let operand = low_into(0, v.ty, v.a);
    match cast {
        Cast::Zext => {
            let high = MidInst::Const(Virtual(high_of(site.instruction)), 0);
            push_straight(code, site, [operand, high], copy(low, 0))
        }
        Cast::Sext => {
            let extended = MidInst::Extend(Virtual(0), Virtual(0), width(v.ty), true);
            let last = cut_into(low, 0, width(v.to));
            push_straight(code, site, [operand, extended], last)
        }
        Cast::Trunc => push_straight(code, site, [operand], cut_into(low, 0, width(v.to))),
    }
}

/// The lines of an `extractvalue` from the pair of a `cmpxchg`, which is named by the number of its
/// instruction (LLVM Language Reference, `extractvalue`): part 0 is the number that was found, and
/// any other the flag. Memory is its only refusal.
pub fn push_extract(code: &mut Code, site: Site, pair: u32, part: u8) -> Result<(), AllocError>
    requires near { site.instruction < 2048 }
    requires pair { pair < 2048 }
    ensures { OnOk result (code.new ≡ pushed (straight site.function site.instruction (extract_lines site.instruction pair part)) code.old) }
{
    let low = low_of(site.instruction);
    if part == 0 {
        push_straight(
            code,
            site,
            [
                copy(0, low_of(pair)),
                copy(1, high_of(pair)),
                copy(high_of(site.instruction), 1),
            ],
            copy(low, 0),
        )
    } else {
        acting(code, site, copy(low, flag_of(pair)))
    }
}
