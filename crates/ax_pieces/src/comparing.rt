//! Comparisons.

ghost use Rattle.std.specs.Prelude.{◌≡◌, if◌then◌else◌, OnOk};
ghost use Rattle.ax_mid.specs.Built.{pushed};
ghost use Rattle.ax_pieces.specs.Near.{AreNear};
ghost use Rattle.ax_selected.specs.Pieces.{apply, comparison, icmp_lines, narrow_icmp, wide_icmp};
ghost use Rattle.ax_selected.specs.Selected.{straight};

use crate::lines::{Code, apply, high_into, is_narrow, low_into, low_of, push_straight, width};
use crate::parts::Operands;
use ax_mid::{MidInst, MidOp, Virtual};
use ax_module::Pred;
use ax_words::Site;
use std::alloc::AllocError;

/// The operation that compares registers.
fn operation(condition: Pred) -> MidOp
    ensures { result ≡ (comparison condition).operation }
{
    match condition {
        Pred::Eq => MidOp::Eq,
        Pred::Ne => MidOp::Ne,
        Pred::Ugt | Pred::Ult => MidOp::Ult,
        Pred::Uge | Pred::Ule => MidOp::Ule,
        Pred::Sgt | Pred::Slt => MidOp::Slt,
        Pred::Sge | Pred::Sle => MidOp::Sle,
    }
}

/// Whether its operands change places.
fn is_swapped(condition: Pred) -> bool
    ensures { result ≡ (comparison condition).swapped }
{
    matches!(condition, Pred::Ugt | Pred::Uge | Pred::Sgt | Pred::Sge)
}

/// Whether they are extended by their signs.
fn is_signed(condition: Pred) -> bool
    ensures { result ≡ (comparison condition).signed }
{
    matches!(condition, Pred::Sgt | Pred::Sge | Pred::Slt | Pred::Sle)
}

/// The comparison of registers 0 and 1, into a register.
fn compared(condition: Pred, to: u32) -> MidInst<Virtual>
    ensures { result ≡ (if (comparison condition).swapped then apply (comparison condition).operation to 1 0 else apply (comparison condition).operation to 0 1) }
{
    if is_swapped(condition) {
        apply(operation(condition), to, 1, 0)
    } else {
        apply(operation(condition), to, 0, 1)
    }
}

/// A comparison of at most 64 bits, extended to 64.
fn narrow_icmp(code: &mut Code, site: Site, condition: Pred, v: Operands) -> Result<(), AllocError>
    requires { AreNear site.instruction v }
    ensures { OnOk result (code.new ≡ pushed (straight site.function site.instruction (narrow_icmp (comparison condition) site.instruction v.ty v.a v.b)) code.old) }
{
    let signed = is_signed(condition);
    push_straight(
        code,
        site,
        [
            low_into(0, v.ty, v.a),
            low_into(1, v.ty, v.b),
            MidInst::Extend(Virtual(0), Virtual(0), width(v.ty), signed),
            MidInst::Extend(Virtual(1), Virtual(1), width(v.ty), signed),
        ],
        compared(condition, low_of(site.instruction)),
    )
}

/// A comparison of 128 bits: whether a bit differs, in register 0, is compared with 0.
fn wide_icmp(code: &mut Code, site: Site, condition: Pred, v: Operands) -> Result<(), AllocError>
    requires { AreNear site.instruction v }
    ensures { OnOk result (code.new ≡ pushed (straight site.function site.instruction (wide_icmp (comparison condition) site.instruction v.ty v.a v.b)) code.old) }
{
    push_straight(
        code,
        site,
        [
            low_into(0, v.ty, v.a),
            high_into(1, v.ty, v.a),
            low_into(2, v.ty, v.b),
            high_into(3, v.ty, v.b),
            apply(MidOp::Xor, 0, 0, 2),
            apply(MidOp::Xor, 1, 1, 3),
            apply(MidOp::Or, 0, 0, 1),
            MidInst::Const(Virtual(1), 0),
        ],
        apply(operation(condition), low_of(site.instruction), 0, 1),
    )
}

/// The lines of an `icmp` (LLVM Language Reference, `icmp`); numbers of 128 bits are compared for
/// being equal or not. Memory is its only refusal.
pub fn push_icmp(
    code: &mut Code,
    site: Site,
    condition: Pred,
    v: Operands,
) -> Result<(), AllocError>
    requires { AreNear site.instruction v }
    ensures { OnOk result (code.new ≡ pushed (straight site.function site.instruction (icmp_lines condition site.instruction v.ty v.a v.b)) code.old) }
{
    if is_narrow(v.ty) {
        narrow_icmp(code, site, condition, v)
    } else {
        wide_icmp(code, site, condition, v)
    }
}
