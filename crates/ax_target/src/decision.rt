//! Which way an operation is lowered.

ghost use Rattle.std.specs.Prelude.{◌≡◌, ◌≢◌, ◌≤◌, ◌<◌, ◌↔◌, ◌⊎◌, ℕ, true, false, IsTrue};
ghost use Rattle.ax_words.specs.Width.{bytes_of};
ghost use Rattle.ax_target.specs.Targets.{greatest_native, has_pairs};
ghost use Rattle.ax_target.specs.Decisions.{can_be, decided, is_whole, native_way, has_compare_loops, is_rv64};

use crate::table::max_native;
use crate::target::Target;
use ax_words::{Op, RmwOp, Width};

/// How an operation is lowered.
#[derive(Clone, Copy)]
pub enum Way {
    /// By instructions without a loop.
    Inline,
    /// By a loop round a compare-and-swap.
    CasLoop,
    /// By a loop round a linked load and its store.
    PairLoop,
    /// By such a loop on the aligned word that holds the object.
    Masked,
    /// By calls of libatomic's routines of the object's size.
    Sized,
    /// By calls of libatomic's routines that take the size as an argument.
    Generic,
}

/// Which way an operation on an object of a width is lowered, where the instruction states an
/// alignment of `align` bytes. A fence has neither width nor alignment.
pub fn decide(t: Target, op: Op, width: Width, align: u64) -> Way
    ensures value { result ≡ decided t op width align }
    ensures fence { op ≡ Op.Fence → result ≡ Way.Inline }
    ensures sized { (result ≡ Way.Sized) ↔ ((op ≢ Op.Fence) × (greatest_native t < bytes_of width) × (bytes_of width ≤ align)) }
    ensures generic { (result ≡ Way.Generic) ↔ ((op ≢ Op.Fence) × (align < bytes_of width)) }
    ensures masked { result ≡ Way.Masked → IsTrue (is_rv64 t) × (bytes_of width ≤ 2) }
    ensures pairs { result ≡ Way.PairLoop → IsTrue (has_pairs t) }
    ensures compares { result ≡ Way.CasLoop → IsTrue (has_compare_loops t) }
{
    let bytes = width.bytes();
    if matches!(op, Op::Fence) {
        Way::Inline
    } else if align < bytes as u64 {
        Way::Generic
    } else if max_native(t) < bytes {
        Way::Sized
    } else {
        match t {
            Target::X86 { .. } => x86_way(op, width),
            Target::Arm { lse: false } => arm_way(op, width),
            Target::Arm { lse: true } => lse_way(op, width),
            Target::Rv { .. } => rv_way(op, width),
        }
    }
}

fn x86_way(op: Op, width: Width) -> Way
    requires { op ≢ Op.Fence }
    ensures cx16 { result ≡ native_way (Target.X86 true) op (bytes_of width) }
    ensures plain { bytes_of width ≤ 8 → result ≡ native_way (Target.X86 false) op (bytes_of width) }
    ensures ways { (result ≡ Way.Inline) ⊎ (result ≡ Way.CasLoop) }
{
    match (op, width) {
        (Op::Load | Op::Cmpxchg, _) => Way::Inline,
        (_, Width::W128) => Way::CasLoop,
        (Op::Store | Op::Rmw(RmwOp::Xchg | RmwOp::Add | RmwOp::Sub), _) => Way::Inline,
        _ => Way::CasLoop,
    }
}

fn arm_way(op: Op, width: Width) -> Way
    requires { op ≢ Op.Fence }
    ensures value { result ≡ native_way (Target.Arm false) op (bytes_of width) }
    ensures ways { (result ≡ Way.Inline) ⊎ (result ≡ Way.PairLoop) }
{
    match (op, width) {
        (_, Width::W128) => Way::PairLoop,
        (Op::Load | Op::Store, _) => Way::Inline,
        _ => Way::PairLoop,
    }
}

fn lse_way(op: Op, width: Width) -> Way
    requires { op ≢ Op.Fence }
    ensures value { result ≡ native_way (Target.Arm true) op (bytes_of width) }
    ensures ways { (result ≡ Way.Inline) ⊎ (result ≡ Way.CasLoop) }
{
    match (op, width) {
        (Op::Load | Op::Cmpxchg, _) => Way::Inline,
        (Op::Rmw(RmwOp::Nand), _) | (_, Width::W128) => Way::CasLoop,
        _ => Way::Inline,
    }
}

fn rv_way(op: Op, width: Width) -> Way
    requires access { op ≢ Op.Fence }
    requires native { bytes_of width ≤ 8 }
    ensures value { result ≡ native_way (Target.Rv false false) op (bytes_of width) }
    ensures ways { (result ≡ Way.Inline) ⊎ (result ≡ Way.PairLoop) ⊎ (result ≡ Way.Masked) }
    ensures masked { result ≡ Way.Masked → bytes_of width ≤ 2 }
{
    match (op, width) {
        (Op::Load | Op::Store, _) => Way::Inline,
        (_, Width::W8 | Width::W16) => Way::Masked,
        (Op::Cmpxchg | Op::Rmw(RmwOp::Nand), _) => Way::PairLoop,
        _ => Way::Inline,
    }
}

/// Each native access has a line of the decision table, and a way tells something of its access.
#[tactic(auto, using(crate::proofs::Decisions::decided_can_be))]
pub fn decisions_hold()
    ensures whole { (t : Target) → IsTrue (is_whole t) }
    ensures fence { (t : Target) (width : Width) (align : ℕ) → decided t Op.Fence width align ≡ Way.Inline }
    ensures ways { (t : Target) (op : Op) (width : Width) (align : ℕ) → IsTrue (can_be t (bytes_of width) align (decided t op width align)) }
{}
