//! N1 Width, N3 DynamicShift and N5 Parameter.

ghost use Rattle.std.specs.Prelude.{◌≡◌, ◌||◌, not};
ghost use Rattle.std.specs.List.{list_any};
ghost use Rattle.ax_module.specs.WellFormed.{is_bit};
ghost use Rattle.ax_rules.specs.Parts.{AreParts};
ghost use Rattle.ax_rules.specs.Points.{is_empty, signature_of};
ghost use Rattle.ax_rules.specs.Width.{has_wide_step, is_amount, is_equality, is_left_out, is_mul, is_odd, is_shift, is_shift_amount, memory_types, returns_value, shift_fault, width_fault};

use crate::facts::Parts;
use crate::types::{bits, is_bit, is_i128, is_odd};
use ax_module::{Addr, BinOp, Cast, Function, Inst, Operand, Pred, Ty, module};

/// Whether an instruction has an i1 in memory.
#[tactic(auto, unfolding(crate::specs::Width::memory_types))]
fn has_bit_in_memory(inst: &Inst) -> bool
    ensures { result ≡ list_any is_bit (memory_types inst.now) }
{
    match inst {
        Inst::Alloca(t, _, _)
        | Inst::Load(t, _, _)
        | Inst::LoadAtomic(t, _, _, _)
        | Inst::Store(t, _, _, _)
        | Inst::StoreAtomic(t, _, _, _, _)
        | Inst::Rmw(_, _, t, _, _, _) => is_bit(*t),
        Inst::Cmpxchg(_, _, t, _, u, ..) => is_bit(*t) || is_bit(*u),
        _ => false,
    }
}

fn is_equality(condition: Pred) -> bool
    ensures { result ≡ is_equality condition }
{
    matches!(condition, Pred::Eq | Pred::Ne)
}

#[tactic(auto, unfolding(crate::specs::Width::is_left_out))]
fn is_left_out(inst: &Inst) -> bool
    ensures { result ≡ is_left_out inst.now }
{
    match inst {
        Inst::Bin(BinOp::Mul, t, _, _) => is_i128(*t),
        Inst::Icmp(condition, t, _, _) => !is_equality(*condition) && is_i128(*t),
        Inst::Convert(Cast::Sext, t, _, u) => is_i128(*t) || is_i128(*u),
        Inst::Gep(_, _, _, t, _) => is_i128(*t),
        _ => false,
    }
}

fn has_wide_step(a: Addr) -> bool
    ensures { result ≡ has_wide_step a }
{
    match a.step {
        None => false,
        Some((_, _, t, _)) => is_i128(t),
    }
}

fn any_odd(types: &[Ty]) -> bool
    ensures { result ≡ list_any is_odd types.now }
{
    types.iter().any(|t| is_odd(*t))
}

fn any_wide_step(pointers: &[Addr]) -> bool
    ensures { result ≡ list_any has_wide_step pointers.now }
{
    pointers.iter().any(|a| has_wide_step(*a))
}

/// N1: whether an instruction has a type of another width, an i1 in memory, or an operation on i128
/// that is left out.
pub fn has_width(parts: &Parts, inst: &Inst) -> bool
    requires { AreParts parts.now inst.now }
    ensures { result ≡ width_fault inst.now }
{
    any_odd(parts.types.as_slice())
        || has_bit_in_memory(inst)
        || is_left_out(inst)
        || any_wide_step(parts.pointers.as_slice())
}

/// N1 at a global.
pub fn has_width_of_global(variable: &module::Global) -> bool
    ensures { result ≡ (is_odd variable.now.elem || is_bit variable.now.elem) }
{
    is_odd(variable.elem) || is_bit(variable.elem)
}

/// N1 at the head of a function.
pub fn has_width_at_head(f: &Function) -> bool
    ensures { result ≡ list_any is_odd (signature_of f.now) }
{
    is_odd(f.result) || any_odd(f.params.as_slice())
}

fn is_shift(op: BinOp) -> bool
    ensures { result ≡ is_shift op }
{
    matches!(op, BinOp::Shl | BinOp::Lshr | BinOp::Ashr)
}

fn is_shift_amount(t: Ty, v: Operand) -> bool
    ensures { result ≡ is_shift_amount t v }
{
    match v {
        Operand::Const(n) => match u128::try_from(n) {
            Ok(n) if is_i128(t) => n == 64,
            Ok(n) => n < u128::from(bits(t)),
            Err(_) => false,
        },
        _ => false,
    }
}

/// N3: whether an instruction shifts by what is no constant from 0 to the width - 1, or on i128 by
/// another than 64.
#[tactic(auto, unfolding(crate::specs::Width::shift_fault))]
pub fn has_dynamic_shift(inst: &Inst) -> bool
    ensures { result ≡ shift_fault inst.now }
{
    match inst {
        Inst::Bin(op, t, _, w) => is_shift(*op) && !is_shift_amount(*t, *w),
        _ => false,
    }
}

/// N5 at an instruction: whether it returns a value.
#[tactic(auto, unfolding(crate::specs::Width::returns_value))]
pub fn has_returned_value(inst: &Inst) -> bool
    ensures { result ≡ returns_value inst.now }
{
    matches!(inst, Inst::Ret(..))
}

/// N5 at the head of a function: whether it has parameters or a result.
pub fn has_parameter(f: &Function) -> bool
    ensures { result ≡ (not f.now.is_void || not (is_empty f.now.params)) }
{
    !f.is_void || !f.params.as_slice().is_empty()
}
