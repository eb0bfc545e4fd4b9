//! N7 MixedWidth.

ghost use Rattle.std.specs.Prelude.{◌≡◌, not};
ghost use Rattle.std.specs.List.{list_any};
ghost use Rattle.std.specs.Option.{option_map};
ghost use Rattle.ax_source_run.specs.SourceInstructions.{pointers_of};
ghost use Rattle.ax_rules.specs.Facts.{extent_of, origin_of};
ghost use Rattle.ax_access_rules.specs.Mixed.{constant_in, converts, is_byte_step, is_element_of, is_mistyped, is_mixed_access, is_mixed_call, is_mixed_inst, is_mixed_pointer, is_mixed_size, is_other_element, is_other_step, is_pair, is_same_extent, is_sized, mixed_fault, size_of};
ghost use Rattle.ax_rules.specs.Parts.{AreParts};

use ax_module::{Addr, Arg, Cast, Inst, Operand, Ty};
use ax_rules::calls::{called, shape, type_of_routine};
use ax_rules::constants::{constant_index, constant_of, is_multiple};
use ax_rules::types::{bits, is_i8, is_same};
use ax_rules::{Extent, FunctionScope, Outcome, Parts, Shape};
use ax_words::RoutineName;

/// Whether an operand is of another type than required.
fn is_mistyped(scope: &FunctionScope, t: Ty, v: Operand) -> bool
    ensures { result ≡ is_mistyped scope.now (t, v) }
{
    match v {
        Operand::Const(_) | Operand::Wide(_) => false,
        Operand::Value(k) => match scope.outcome(k) {
            Outcome::Number(u) => !is_same(t, u),
            _ => true,
        },
        Operand::Param(k) => match scope.params.as_slice().get(k as usize) {
            Some(u) => !is_same(t, *u),
            None => true,
        },
    }
}

/// Whether an operand is the pair of a compare-exchange of the type.
fn is_pair(scope: &FunctionScope, t: Ty, v: Operand) -> bool
    ensures { result ≡ is_pair scope.now t v }
{
    match v {
        Operand::Value(k) => match scope.outcome(k) {
            Outcome::Pair(u) => is_same(t, u),
            _ => false,
        },
        _ => false,
    }
}

/// Whether a cast widens or narrows as named.
fn converts(cast: Cast, t: Ty, u: Ty) -> bool
    ensures { result ≡ converts cast t u }
{
    match cast {
        Cast::Zext | Cast::Sext => bits(t) < bits(u),
        Cast::Trunc => bits(u) < bits(t),
    }
}

fn is_mixed_access(scope: &FunctionScope, t: Ty, a: &Addr) -> bool
    ensures { result ≡ is_mixed_access scope.now t a.now }
{
    match scope.extent(scope.origin(a.base)) {
        None => false,
        Some(e) => !is_same(t, e.elem),
    }
}

fn is_same_extent(elem: Ty, count: u64, e: Extent) -> bool
    ensures { result ≡ is_same_extent elem count e }
{
    is_same(elem, e.elem) && (count == 0 || count == e.count)
}

/// Whether a step counts bytes, by a constant that names an element.
fn is_byte_step(elem: Ty, count: u64, t: Ty, v: Operand, e: Extent) -> bool
    ensures { result ≡ is_byte_step elem count t v e }
{
    if !is_i8(elem) || count != 0 {
        return false;
    }
    match constant_index(t, v) {
        None => false,
        Some(n) => {
            let bytes = e.elem.bytes();
            is_multiple(u128::from(n), bytes)
                && u128::from(n) < u128::from(e.count) * u128::from(bytes)
        }
    }
}

fn is_other_step(elem: Ty, count: u64, t: Ty, v: Operand, extent: Option<Extent>) -> bool
    ensures { result ≡ is_other_step elem count t v extent }
{
    match extent {
        None => false,
        Some(e) => !(is_same_extent(elem, count, e) || is_byte_step(elem, count, t, v, e)),
    }
}

fn is_mixed_pointer(scope: &FunctionScope, a: Addr) -> bool
    ensures { result ≡ is_mixed_pointer scope.now a }
{
    match a.step {
        None => false,
        Some((elem, count, t, v)) => {
            is_other_step(
                elem,
                count,
                t,
                v,
                scope.extent(scope.origin_of_step(a.base)),
            )
        }
    }
}

fn is_element_of(size: u128, extent: Option<Extent>) -> bool
    ensures { result ≡ is_element_of size extent }
{
    match extent {
        None => true,
        Some(e) => u128::from(e.elem.bytes()) == size,
    }
}

fn is_mixed_element(scope: &FunctionScope, size: u128, a: Addr) -> bool
    ensures { result ≡ not (is_element_of size (extent_of scope.now (origin_of scope.now a.base))) }
{
    !is_element_of(size, scope.extent(scope.origin(a.base)))
}

fn any_mixed_element(scope: &FunctionScope, size: u128, pointers: &[Addr]) -> bool
    ensures { result ≡ list_any (λ a. not (is_element_of size (extent_of scope.now (origin_of scope.now a.base)))) pointers.now }
{
    pointers.iter().any(|a| is_mixed_element(scope, size, *a))
}

/// Whether one of these pointers names an element of another size.
fn is_mixed_size(scope: &FunctionScope, size: Option<u128>, pointers: &[Addr]) -> bool
    ensures { result ≡ is_mixed_size scope.now size pointers.now }
{
    match size {
        None => true,
        Some(size) => any_mixed_element(scope, size, pointers),
    }
}

fn constant_in(arg: Option<&Arg>) -> Option<u128>
    ensures { result ≡ constant_in (option_map (λ a. a.now) arg.entry) }
{
    match arg {
        Some(Arg::Value(_, v)) => constant_of(64, *v),
        _ => None,
    }
}

pub(crate) fn is_sized(shape: Shape) -> bool
    ensures { result ≡ is_sized shape }
{
    matches!(
        shape,
        Shape::Load | Shape::Store | Shape::Update | Shape::Compare
    )
}

/// The size of a call: that of the routine, or its first argument.
fn size_of(routine: RoutineName, args: &[Arg]) -> Option<u128>
    ensures { result ≡ size_of routine args.now }
{
    if is_sized(shape(routine)) {
        Some(u128::from(type_of_routine(routine).bytes()))
    } else {
        constant_in(args.get(0))
    }
}

fn is_mixed_call(
    scope: &FunctionScope,
    routine: Option<RoutineName>,
    args: &[Arg],
    pointers: &[Addr],
) -> bool
    ensures { result ≡ is_mixed_call scope.now routine args.now pointers.now }
{
    match routine {
        None => false,
        Some(routine) => is_mixed_size(scope, size_of(routine, args), pointers),
    }
}

#[tactic(auto, unfolding(crate::specs::Mixed::is_mixed_inst))]
fn is_mixed_inst(scope: &FunctionScope, inst: &Inst, pointers: &[Addr]) -> bool
    requires { pointers.now ≡ pointers_of inst.now }
    ensures { result ≡ is_mixed_inst scope.now inst.now }
{
    match inst {
        Inst::Select(_, t, _, u, _) => !is_same(*t, *u),
        Inst::Convert(cast, t, _, u) => !converts(*cast, *t, *u),
        Inst::Gep(elem, count, base, t, v) => {
            is_other_step(
                *elem,
                *count,
                *t,
                *v,
                scope.extent(scope.origin_of_step(*base)),
            )
        }
        Inst::Load(t, a, _)
        | Inst::LoadAtomic(t, a, _, _)
        | Inst::Store(t, _, a, _)
        | Inst::StoreAtomic(t, _, a, _, _)
        | Inst::Rmw(_, a, t, _, _, _) => is_mixed_access(scope, *t, a),
        Inst::Cmpxchg(_, a, t, _, u, ..) => is_mixed_access(scope, *t, a) || !is_same(*t, *u),
        Inst::Extract(t, v, _) => !is_pair(scope, *t, *v),
        Inst::Call(t, name, args) => {
            let args = args.as_slice();
            is_mixed_call(scope, called(*t, name.as_bytes(), args), args, pointers)
        }
        _ => false,
    }
}

fn any_mistyped(scope: &FunctionScope, operands: &[(Ty, Operand)]) -> bool
    ensures { result ≡ list_any (is_mistyped scope.now) operands.now }
{
    operands.iter().any(|(t, v)| is_mistyped(scope, *t, *v))
}

fn any_mixed_pointer(scope: &FunctionScope, pointers: &[Addr]) -> bool
    ensures { result ≡ list_any (is_mixed_pointer scope.now) pointers.now }
{
    pointers.iter().any(|a| is_mixed_pointer(scope, *a))
}

/// N7: whether an instruction has an operand of another type than required, a cast that doesn't
/// widen or narrow as named, an access or a step of another type or length than the object's, or a
/// size that isn't the elements'.
pub fn has_mixed_width(scope: &FunctionScope, parts: &Parts, inst: &Inst) -> bool
    requires { AreParts parts.now inst.now }
    ensures { result ≡ mixed_fault scope.now inst.now }
{
    any_mistyped(scope, parts.operands.as_slice())
        || is_mixed_inst(scope, inst, parts.pointers.as_slice())
        || any_mixed_pointer(scope, parts.pointers.as_slice())
}
