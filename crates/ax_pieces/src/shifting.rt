//! Shifts by constants.

ghost use Rattle.std.specs.Prelude.{◌≡◌, ◌<◌, IsTrue, OnOk};
ghost use Rattle.ax_cells.specs.Narrow as cells;
ghost use Rattle.ax_source_run.specs.SourceValues.{type_bits};
ghost use Rattle.ax_mid.specs.Built.{pushed};
ghost use Rattle.ax_pieces.specs.Near.{AreNear};
ghost use Rattle.ax_selected.specs.Operands.{constant_of};
ghost use Rattle.ax_selected.specs.Pieces.{narrow_ashr, narrow_lshr, narrow_shl, wide_ashr, wide_lshr, wide_shl};
ghost use Rattle.ax_selected.specs.Selected.{straight};

use crate::lines::{
    Code, copy, cut_into, high_into, high_of, low_into, low_of, push_straight, width,
};
use crate::parts::Operands;
use ax_cells::constant;
use ax_mid::{MidInst, MidShift, Virtual};
use ax_words::Site;
use std::alloc::AllocError;

/// By how many bits a number is shifted.
fn amount(v: Operands) -> u8
    requires narrow { IsTrue (cells.is_narrow v.ty) }
    requires below { constant_of v.ty v.b < type_bits v.ty }
    ensures { result ≡ constant_of v.ty v.b }
{
    constant(v.ty, v.b) as u8
}

/// A shift to the left of a number of at most 64 bits: on 64 bits, and then cut.
pub(crate) fn narrow_shl(code: &mut Code, site: Site, v: Operands) -> Result<(), AllocError>
    requires near { AreNear site.instruction v }
    requires amount { constant_of v.ty v.b < type_bits v.ty }
    ensures { OnOk result (code.new ≡ pushed (straight site.function site.instruction (narrow_shl site.instruction v.ty v.a (constant_of v.ty v.b))) code.old) }
{
    push_straight(
        code,
        site,
        [
            low_into(0, v.ty, v.a),
            MidInst::Shift(MidShift::Shl, Virtual(0), Virtual(0), amount(v)),
        ],
        cut_into(low_of(site.instruction), 0, width(v.ty)),
    )
}

/// A shift to the right that fills with zeros, of a number of at most 64 bits.
pub(crate) fn narrow_lshr(code: &mut Code, site: Site, v: Operands) -> Result<(), AllocError>
    requires near { AreNear site.instruction v }
    requires amount { constant_of v.ty v.b < type_bits v.ty }
    ensures { OnOk result (code.new ≡ pushed (straight site.function site.instruction (narrow_lshr site.instruction v.ty v.a (constant_of v.ty v.b))) code.old) }
{
    let to = Virtual(low_of(site.instruction));
    push_straight(
        code,
        site,
        [low_into(0, v.ty, v.a)],
        MidInst::Shift(MidShift::Lshr, to, Virtual(0), amount(v)),
    )
}

/// A shift to the right that fills with the sign: of the number extended to 64 bits, and then cut.
pub(crate) fn narrow_ashr(code: &mut Code, site: Site, v: Operands) -> Result<(), AllocError>
    requires near { AreNear site.instruction v }
    requires amount { constant_of v.ty v.b < type_bits v.ty }
    ensures { OnOk result (code.new ≡ pushed (straight site.function site.instruction (narrow_ashr site.instruction v.ty v.a (constant_of v.ty v.b))) code.old) }
{
    push_straight(
        code,
        site,
        [
            low_into(0, v.ty, v.a),
            MidInst::Extend(Virtual(0), Virtual(0), width(v.ty), true),
            MidInst::Shift(MidShift::Ashr, Virtual(0), Virtual(0), amount(v)),
        ],
        cut_into(low_of(site.instruction), 0, width(v.ty)),
    )
}

/// A shift by 64 bits to the left.
pub(crate) fn wide_shl(code: &mut Code, site: Site, v: Operands) -> Result<(), AllocError>
    requires { AreNear site.instruction v }
    ensures { OnOk result (code.new ≡ pushed (straight site.function site.instruction (wide_shl site.instruction v.ty v.a)) code.old) }
{
    let high = copy(high_of(site.instruction), 0);
    push_straight(
        code,
        site,
        [low_into(0, v.ty, v.a), high],
        MidInst::Const(Virtual(low_of(site.instruction)), 0),
    )
}

/// A shift by 64 bits to the right that fills with zeros.
pub(crate) fn wide_lshr(code: &mut Code, site: Site, v: Operands) -> Result<(), AllocError>
    requires { AreNear site.instruction v }
    ensures { OnOk result (code.new ≡ pushed (straight site.function site.instruction (wide_lshr site.instruction v.ty v.a)) code.old) }
{
    let high = MidInst::Const(Virtual(high_of(site.instruction)), 0);
    push_straight(
        code,
        site,
        [high_into(0, v.ty, v.a), high],
        copy(low_of(site.instruction), 0),
    )
}

/// A shift by 64 bits to the right that fills with the sign.
pub(crate) fn wide_ashr(code: &mut Code, site: Site, v: Operands) -> Result<(), AllocError>
    requires { AreNear site.instruction v }
    ensures { OnOk result (code.new ≡ pushed (straight site.function site.instruction (wide_ashr site.instruction v.ty v.a)) code.old) }
{
    let to = Virtual(high_of(site.instruction));
    let high = MidInst::Shift(MidShift::Ashr, to, Virtual(0), 63);
    push_straight(
        code,
        site,
        [high_into(0, v.ty, v.a), high],
        copy(low_of(site.instruction), 0),
    )
}
