//! N11 Alloca.

ghost use Rattle.std.specs.Prelude.{◌≡◌};
ghost use Rattle.std.specs.List.{list_any};
ghost use Rattle.ax_source_run.specs.SourceInstructions.{pointers_of};
ghost use Rattle.ax_access_rules.specs.Allocas.{alloca_fault, is_address, is_late_alloca, is_misplaced, is_misplaced_in, misplaced, to_alloca, to_global};
ghost use Rattle.ax_rules.specs.Parts.{AreParts};

use ax_module::{Addr, Base, Inst, Operand, Ty};
use ax_rules::calls::called;
use ax_rules::scope::{is_alloca, is_shared};
use ax_rules::{FunctionScope, Parts};
use ax_words::RoutineName;

/// Whether an alloca stands outside the entry block.
#[tactic(auto, unfolding(crate::specs::Allocas::is_late_alloca))]
fn is_late_alloca(block: usize, inst: &Inst) -> bool
    ensures { result ≡ is_late_alloca block inst.now }
{
    match inst {
        Inst::Alloca(..) => block != 0,
        _ => false,
    }
}

fn to_alloca(scope: &FunctionScope, a: &Addr) -> bool
    ensures { result ≡ to_alloca scope.now a.now }
{
    is_alloca(scope.origin(a.base))
}

fn to_global(scope: &FunctionScope, a: &Addr) -> bool
    ensures { result ≡ to_global scope.now a.now }
{
    is_shared(scope.origin(a.base))
}

fn is_address(scope: &FunctionScope, v: Operand, _t: Ty) -> bool
    ensures { result ≡ is_address scope.now (_t, v) }
{
    match v {
        Operand::Value(k) => is_alloca(scope.origin(Base::Value(k))),
        _ => false,
    }
}

fn any_to_alloca(scope: &FunctionScope, pointers: &[Addr]) -> bool
    ensures { result ≡ list_any (to_alloca scope.now) pointers.now }
{
    pointers.iter().any(|a| to_alloca(scope, a))
}

fn any_to_global(scope: &FunctionScope, pointers: &[Addr]) -> bool
    ensures { result ≡ list_any (to_global scope.now) pointers.now }
{
    pointers.iter().any(|a| to_global(scope, a))
}

/// Whether a routine's first pointer comes from an alloca, or another one from a global.
fn is_misplaced(scope: &FunctionScope, pointers: &[Addr]) -> bool
    ensures { result ≡ is_misplaced scope.now pointers.now }
{
    match pointers {
        [] => false,
        [object, more @ ..] => to_alloca(scope, object) || any_to_global(scope, more),
    }
}

fn is_misplaced_in(scope: &FunctionScope, routine: Option<RoutineName>, pointers: &[Addr]) -> bool
    ensures { result ≡ is_misplaced_in scope.now routine pointers.now }
{
    match routine {
        Some(_) => is_misplaced(scope, pointers),
        None => any_to_alloca(scope, pointers),
    }
}

#[tactic(auto, unfolding(crate::specs::Allocas::misplaced))]
fn has_misplaced(scope: &FunctionScope, inst: &Inst, pointers: &[Addr]) -> bool
    requires { pointers.now ≡ pointers_of inst.now }
    ensures { result ≡ misplaced scope.now inst.now }
{
    match inst {
        Inst::LoadAtomic(_, a, _, _)
        | Inst::StoreAtomic(_, _, a, _, _)
        | Inst::Cmpxchg(_, a, ..)
        | Inst::Rmw(_, a, ..) => to_alloca(scope, a),
        Inst::Call(t, name, args) => {
            is_misplaced_in(
                scope,
                called(*t, name.as_bytes(), args.as_slice()),
                pointers,
            )
        }
        _ => false,
    }
}

fn any_address(scope: &FunctionScope, operands: &[(Ty, Operand)]) -> bool
    ensures { result ≡ list_any (is_address scope.now) operands.now }
{
    operands.iter().any(|(t, v)| is_address(scope, *v, *t))
}

/// N11: whether an instruction is an alloca outside the entry block, or uses an alloca's address, or
/// a global's as an argument, where it may not stand.
pub fn has_alloca(scope: &FunctionScope, parts: &Parts, block: usize, inst: &Inst) -> bool
    requires { AreParts parts.now inst.now }
    ensures { result ≡ alloca_fault scope.now block inst.now }
{
    is_late_alloca(block, inst)
        || has_misplaced(scope, inst, parts.pointers.as_slice())
        || any_address(scope, parts.operands.as_slice())
}
