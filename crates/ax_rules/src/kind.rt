//! N2 Kind.

ghost use Rattle.std.specs.Prelude.{◌≡◌};
ghost use Rattle.std.specs.List.{list_any};
ghost use Rattle.ax_rules.specs.Kind.{is_bad_gep, is_bad_pointer, is_gep, is_object, is_other, kind_fault};
ghost use Rattle.ax_rules.specs.Parts.{AreParts};
ghost use Rattle.ax_rules.specs.Points.{signature_of};

use crate::facts::{FunctionScope, Outcome, Parts};
use crate::types::is_other;
use ax_module::{Addr, Base, Function, Inst, Ty, module};

fn is_gep(scope: &FunctionScope, base: Base) -> bool
    ensures { result ≡ is_gep scope.now base }
{
    match base {
        Base::Value(k) => matches!(scope.outcome(k), Outcome::Gep(..)),
        Base::Global(_) | Base::Param(_) => false,
    }
}

fn is_object(scope: &FunctionScope, base: Base) -> bool
    ensures { result ≡ is_object scope.now base }
{
    match base {
        Base::Global(_) => true,
        Base::Value(k) => matches!(scope.outcome(k), Outcome::Alloca(_)),
        Base::Param(_) => false,
    }
}

fn is_bad_pointer(scope: &FunctionScope, a: Addr) -> bool
    ensures { result ≡ is_bad_pointer scope.now a }
{
    !(is_object(scope, a.base) || a.step.is_none() && is_gep(scope, a.base))
}

#[tactic(auto, unfolding(crate::specs::Kind::is_bad_gep))]
fn is_bad_gep(scope: &FunctionScope, inst: &Inst) -> bool
    ensures { result ≡ is_bad_gep scope.now inst.now }
{
    match inst {
        Inst::Gep(_, _, base, _, _) => !is_object(scope, *base),
        _ => false,
    }
}

fn any_other(types: &[Ty]) -> bool
    ensures { result ≡ list_any is_other types.now }
{
    types.iter().any(|t| is_other(*t))
}

fn any_bad_pointer(scope: &FunctionScope, pointers: &[Addr]) -> bool
    ensures { result ≡ list_any (is_bad_pointer scope.now) pointers.now }
{
    pointers.iter().any(|a| is_bad_pointer(scope, *a))
}

/// N2: whether an instruction has a type that no value has, or a pointer that comes from neither a
/// global nor an alloca, or by two getelementptrs.
pub fn has_kind(scope: &FunctionScope, parts: &Parts, inst: &Inst) -> bool
    requires { AreParts parts.now inst.now }
    ensures { result ≡ kind_fault scope.now inst.now }
{
    any_other(parts.types.as_slice())
        || is_bad_gep(scope, inst)
        || any_bad_pointer(scope, parts.pointers.as_slice())
}

/// N2 at a global.
pub fn has_kind_of_global(variable: &module::Global) -> bool
    ensures { result ≡ is_other variable.now.elem }
{
    is_other(variable.elem)
}

/// N2 at the head of a function.
pub fn has_kind_at_head(f: &Function) -> bool
    ensures { result ≡ list_any is_other (signature_of f.now) }
{
    is_other(f.result) || any_other(f.params.as_slice())
}
