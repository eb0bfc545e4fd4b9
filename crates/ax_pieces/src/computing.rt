//! Binary operations.

ghost use Rattle.std.specs.Prelude.{◌≡◌, ◌++◌, OnOk};
ghost use Rattle.ax_mid.specs.Built.{pushed};
ghost use Rattle.ax_pieces.specs.Near.{AreNear, IsAmount};
ghost use Rattle.ax_selected.specs.Pieces.{bin_lines, both_into, carried, copy, narrow_bin, narrow_op, wide_bin, wide_op};
ghost use Rattle.ax_selected.specs.Registers.{low_of};
ghost use Rattle.ax_selected.specs.Selected.{straight};

use crate::lines::{
    Code, apply, copy, cut_into, high_into, high_of, is_narrow, low_into, low_of, push_straight,
    width,
};
use crate::parts::Operands;
use crate::shifting::{narrow_ashr, narrow_lshr, narrow_shl, wide_ashr, wide_lshr, wide_shl};
use ax_mid::MidOp;
use ax_module::BinOp;
use ax_words::Site;
use std::alloc::AllocError;

/// An operation of at most 64 bits: on 64 bits, and then cut.
fn narrow_op(code: &mut Code, site: Site, op: MidOp, v: Operands) -> Result<(), AllocError>
    requires { AreNear site.instruction v }
    ensures { OnOk result (code.new ≡ pushed (straight site.function site.instruction (narrow_op op site.instruction v.ty v.a v.b)) code.old) }
{
    push_straight(
        code,
        site,
        [
            low_into(0, v.ty, v.a),
            low_into(1, v.ty, v.b),
            apply(op, 0, 0, 1),
        ],
        cut_into(low_of(site.instruction), 0, width(v.ty)),
    )
}

/// An operation on 128 bits whose halves don't depend on each other.
fn wide_op(code: &mut Code, site: Site, op: MidOp, v: Operands) -> Result<(), AllocError>
    requires { AreNear site.instruction v }
    ensures { OnOk result (code.new ≡ pushed (straight site.function site.instruction (wide_op op site.instruction v.ty v.a v.b)) code.old) }
{
    push_straight(
        code,
        site,
        [
            low_into(0, v.ty, v.a),
            high_into(1, v.ty, v.a),
            low_into(2, v.ty, v.b),
            high_into(3, v.ty, v.b),
            apply(op, high_of(site.instruction), 1, 3),
        ],
        apply(op, low_of(site.instruction), 0, 2),
    )
}

/// A sum or a difference of 128 bits: of the low halves, which carries where register `x` is below
/// `y`, and of the high halves and the carry.
fn wide_sum(
    code: &mut Code,
    site: Site,
    op: MidOp,
    v: Operands,
    x: u32,
    y: u32,
) -> Result<(), AllocError>
    requires { AreNear site.instruction v }
    ensures { OnOk result (code.new ≡ pushed (straight site.function site.instruction (record { silent = both_into v.ty v.a v.b ++ carried op site.instruction x y; last = copy (low_of site.instruction) 4 })) code.old) }
{
    push_straight(
        code,
        site,
        [
            low_into(0, v.ty, v.a),
            high_into(1, v.ty, v.a),
            low_into(2, v.ty, v.b),
            high_into(3, v.ty, v.b),
            apply(op, 4, 0, 2),
            apply(MidOp::Ult, 5, x, y),
            apply(op, 6, 1, 3),
            apply(op, high_of(site.instruction), 6, 5),
        ],
        copy(low_of(site.instruction), 4),
    )
}

/// A binary operation of at most 64 bits.
fn narrow_bin(code: &mut Code, site: Site, op: BinOp, v: Operands) -> Result<(), AllocError>
    requires near { AreNear site.instruction v }
    requires amount { IsAmount op v }
    ensures { OnOk result (code.new ≡ pushed (straight site.function site.instruction (narrow_bin op site.instruction v.ty v.a v.b)) code.old) }
{
    match op {
        BinOp::Add => narrow_op(code, site, MidOp::Add, v),
        BinOp::Sub => narrow_op(code, site, MidOp::Sub, v),
        BinOp::Mul => narrow_op(code, site, MidOp::Mul, v),
        BinOp::And => narrow_op(code, site, MidOp::And, v),
        BinOp::Or => narrow_op(code, site, MidOp::Or, v),
        BinOp::Xor => narrow_op(code, site, MidOp::Xor, v),
        BinOp::Shl => narrow_shl(code, site, v),
        BinOp::Lshr => narrow_lshr(code, site, v),
        BinOp::Ashr => narrow_ashr(code, site, v),
    }
}

/// A binary operation of 128 bits.
fn wide_bin(code: &mut Code, site: Site, op: BinOp, v: Operands) -> Result<(), AllocError>
    requires { AreNear site.instruction v }
    ensures { OnOk result (code.new ≡ pushed (straight site.function site.instruction (wide_bin op site.instruction v.ty v.a v.b)) code.old) }
{
    match op {
        BinOp::Add => wide_sum(code, site, MidOp::Add, v, 4, 0),
        BinOp::Sub => wide_sum(code, site, MidOp::Sub, v, 0, 2),
        BinOp::Mul => narrow_op(code, site, MidOp::Mul, v),
        BinOp::And => wide_op(code, site, MidOp::And, v),
        BinOp::Or => wide_op(code, site, MidOp::Or, v),
        BinOp::Xor => wide_op(code, site, MidOp::Xor, v),
        BinOp::Shl => wide_shl(code, site, v),
        BinOp::Lshr => wide_lshr(code, site, v),
        BinOp::Ashr => wide_ashr(code, site, v),
    }
}

/// The lines of a binary operation (LLVM Language Reference, Binary Operations). A shift of at most
/// 64 bits is by a constant below its bits, and one of 128 bits is by 64; no product has 128 bits.
/// Memory is its only refusal.
pub fn push_bin(code: &mut Code, site: Site, op: BinOp, v: Operands) -> Result<(), AllocError>
    requires near { AreNear site.instruction v }
    requires amount { IsAmount op v }
    ensures { OnOk result (code.new ≡ pushed (straight site.function site.instruction (bin_lines op site.instruction v.ty v.a v.b)) code.old) }
{
    if is_narrow(v.ty) {
        narrow_bin(code, site, op, v)
    } else {
        wide_bin(code, site, op, v)
    }
}
