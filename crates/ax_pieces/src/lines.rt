//! Lines of an instruction's code, and its operands.

ghost use Rattle.std.specs.Prelude.{◌≡◌, ◌<◌, ◌≤◌, [], ◌∷◌, IsTrue, OnOk, map};
ghost use Rattle.ax_cells.specs.Narrow as cells;
ghost use Rattle.ax_mid.specs.Built.{pushed};
ghost use Rattle.ax_selected.specs.Operands.{high_into, is_narrow, low_into};
ghost use Rattle.ax_selected.specs.Pieces.{apply, copy, cut_into};
ghost use Rattle.ax_selected.specs.Ranges.{IsNear};
ghost use Rattle.ax_selected.specs.Registers.{flag_of, high_of, low_of};
ghost use Rattle.ax_selected.specs.Selected as selected;
ghost use Rattle.ax_source_run.specs.SourceValues.{type_bits};

use ax_cells::constant;
use ax_mid::{Builder, MidInst, MidOp, Virtual};
use ax_module::{Operand, Ty};
use ax_tags::Tag;
use ax_values::bits;
use ax_words::Site;
use std::alloc::AllocError;

/// The code so far.
pub type Code = Builder<Virtual>;

/// One more line without an event.
pub fn silent(code: &mut Code, site: Site, inst: MidInst<Virtual>) -> Result<(), AllocError>
    ensures { OnOk result (code.new ≡ pushed (selected.silent site.function site.instruction inst ∷ []) code.old) }
{
    code.push(inst, site, Tag::Silent)
}

/// The line with the event.
pub fn acting(code: &mut Code, site: Site, inst: MidInst<Virtual>) -> Result<(), AllocError>
    ensures { OnOk result (code.new ≡ pushed (selected.acting site.function site.instruction inst ∷ []) code.old) }
{
    code.push(inst, site, Tag::Act)
}

/// Lines without an event, in order, at most eight.
#[tactic(auto, using(crate::proofs::Pushing::pushes))]
pub fn push_silent<const N: usize>(
    code: &mut Code,
    site: Site,
    insts: [MidInst<Virtual>; N],
) -> Result<(), AllocError>
    requires { N ≤ 8 }
    ensures { OnOk result (code.new ≡ pushed (map (selected.silent site.function site.instruction) insts.entry) code.old) }
{
    for inst in insts {
        silent(code, site, inst)?;
    }
    Ok(())
}

/// Lines without an event, at most eight, and then the one that has it.
pub fn push_straight<const N: usize>(
    code: &mut Code,
    site: Site,
    insts: [MidInst<Virtual>; N],
    last: MidInst<Virtual>,
) -> Result<(), AllocError>
    requires { N ≤ 8 }
    ensures { OnOk result (code.new ≡ pushed (selected.straight site.function site.instruction (record { silent = insts.entry; last = last })) code.old) }
{
    push_silent(code, site, insts)?;
    acting(code, site, last)
}

/// The register of the low half of an instruction's result.
pub fn low_of(instruction: u32) -> u32
    requires { instruction < 2048 }
    ensures { result ≡ low_of instruction }
{
    4 * instruction + 16
}

/// The register of its high half.
pub fn high_of(instruction: u32) -> u32
    requires { instruction < 2048 }
    ensures { result ≡ high_of instruction }
{
    4 * instruction + 17
}

/// The register of a compare-exchange's flag.
pub fn flag_of(instruction: u32) -> u32
    requires { instruction < 2048 }
    ensures { result ≡ flag_of instruction }
{
    4 * instruction + 18
}

/// Whether a number of a type fits one register.
pub fn is_narrow(ty: Ty) -> bool
    ensures { result ≡ is_narrow ty }
{
    bits(ty) <= 64
}

/// The bits of a type that has at most 128.
pub(crate) fn width(ty: Ty) -> u8
    requires { IsTrue (cells.is_narrow ty) }
    ensures { result ≡ type_bits ty }
{
    bits(ty) as u8
}

/// The low half of an operand, into a register.
pub fn low_into(register: u32, ty: Ty, operand: Operand) -> MidInst<Virtual>
    requires narrow { IsTrue (cells.is_narrow ty) }
    requires near { IsNear operand }
    ensures { result ≡ low_into register ty operand }
{
    match operand {
        Operand::Value(k) => MidInst::Copy(Virtual(register), Virtual(low_of(k))),
        Operand::Param(_) => MidInst::Const(Virtual(register), 0),
        constant_operand => MidInst::Const(
            Virtual(register),
            (constant(ty, constant_operand) & 0xffff_ffff_ffff_ffff) as u64,
        ),
    }
}

/// Its high half.
pub fn high_into(register: u32, ty: Ty, operand: Operand) -> MidInst<Virtual>
    requires narrow { IsTrue (cells.is_narrow ty) }
    requires near { IsNear operand }
    ensures { result ≡ high_into register ty operand }
{
    match operand {
        Operand::Value(k) => MidInst::Copy(Virtual(register), Virtual(high_of(k))),
        Operand::Param(_) => MidInst::Const(Virtual(register), 0),
        constant_operand => MidInst::Const(
            Virtual(register),
            (constant(ty, constant_operand) >> 64) as u64,
        ),
    }
}

/// The low bits of a register, into a register.
pub fn cut_into(to: u32, from: u32, bits: u8) -> MidInst<Virtual>
    ensures { result ≡ cut_into to from bits }
{
    MidInst::Extend(Virtual(to), Virtual(from), bits, false)
}

/// An operation on two registers, into a register.
pub fn apply(op: MidOp, to: u32, a: u32, b: u32) -> MidInst<Virtual>
    ensures { result ≡ apply op to a b }
{
    MidInst::Apply(op, Virtual(to), Virtual(a), Virtual(b))
}

/// A register's number, into a register.
pub fn copy(to: u32, from: u32) -> MidInst<Virtual>
    ensures { result ≡ copy to from }
{
    MidInst::Copy(Virtual(to), Virtual(from))
}
