//! N8 AlignOverstated and N9 PlainLocked, which speak of the addresses of globals.

ghost use Rattle.std.specs.Prelude.{◌≡◌, ◌<◌};
ghost use Rattle.ax_layout.specs.Classes.{class_of};
ghost use Rattle.ax_module.specs.Types.{type_bytes};
ghost use Rattle.ax_layout.specs.Layout.{HasElement, bytes_in};
ghost use Rattle.ax_access_rules.specs.Alignment.{LaysOut, are_aligned, index_in, index_of_base, is_locked_class, is_overstated, is_plain_locked, is_unaligned_call, overstated, plain_locked, scaled_if, stated};
ghost use Rattle.ax_rules.specs.Parts.{AreParts};

use crate::mixed::is_sized;
use ax_layout::Layout;
use ax_module::{Addr, Base, Inst, Ty};
use ax_rules::calls::{called, shape, type_of_routine};
use ax_rules::constants::{constant_index, is_multiple};
use ax_rules::types::{is_i8, is_i128};
use ax_rules::{Extent, FunctionScope, Origin, Outcome, Parts};
use ax_target::{Target, max_native};
use ax_words::RoutineName;

/// A number of a step as a number of elements.
fn scaled_if(elem: Ty, bytes: u64, index: Option<u64>) -> Option<u64>
    requires { 0 < bytes }
    ensures { result ≡ scaled_if elem bytes index }
{
    let index = index?;
    if is_i8(elem) {
        Some(index / bytes)
    } else {
        Some(index)
    }
}

fn index_of_base(scope: &FunctionScope, bytes: u64, base: Base) -> Option<u64>
    requires { 0 < bytes }
    ensures { result ≡ index_of_base scope.now bytes base }
{
    match base {
        Base::Value(k) => match scope.outcome(k) {
            Outcome::Gep(_, elem, t, v) => scaled_if(elem, bytes, constant_index(t, v)),
            _ => Some(0),
        },
        _ => Some(0),
    }
}

/// The index of a pointer to elements of so many bytes. None exactly where it isn't constant.
fn index_in(scope: &FunctionScope, bytes: u64, a: &Addr) -> Option<u64>
    requires { 0 < bytes }
    ensures { result ≡ index_in scope.now bytes a.now }
{
    match a.step {
        None => index_of_base(scope, bytes, a.base),
        Some((elem, _, t, v)) => scaled_if(elem, bytes, constant_index(t, v)),
    }
}

/// Whether the address of the element that is named, or else of each, is a multiple.
fn are_aligned(layout: &Layout, g: u32, e: Extent, index: Option<u64>, n: u64) -> bool
    requires element { HasElement layout.now g 0 }
    requires bytes { bytes_in layout.now g ≡ type_bytes e.elem }
    ensures { result ≡ are_aligned layout.now g e index n }
{
    let start = u128::from(layout.address(g, 0));
    let bytes = e.elem.bytes();
    match index {
        Some(i) => is_multiple(start + u128::from(i) * u128::from(bytes), n),
        None => is_multiple(start, n) && (e.count == 1 || is_multiple(u128::from(bytes), n)),
    }
}

/// Whether a pointer to a global has an address that is no multiple of `n`.
fn is_overstated(layout: &Layout, scope: &FunctionScope, a: &Addr, n: u64) -> bool
    requires { LaysOut layout.now scope.now }
    ensures { result ≡ is_overstated layout.now scope.now a.now n }
{
    let Origin::Global(g) = scope.origin(a.base) else {
        return false;
    };
    match scope.globals.as_slice().get(g as usize) {
        None => false,
        Some(e) => !are_aligned(layout, g, *e, index_in(scope, e.elem.bytes(), a), n),
    }
}

fn stated(align: Option<u64>, t: Ty) -> u64
    ensures { result ≡ stated align t }
{
    align.unwrap_or(t.bytes())
}

fn is_unaligned_call(
    layout: &Layout,
    scope: &FunctionScope,
    routine: Option<RoutineName>,
    pointers: &[Addr],
) -> bool
    requires { LaysOut layout.now scope.now }
    ensures { result ≡ is_unaligned_call layout.now scope.now routine pointers.now }
{
    match (routine, pointers) {
        (Some(routine), [object, ..]) => {
            is_sized(shape(routine))
                && is_overstated(layout, scope, object, type_of_routine(routine).bytes())
        }
        _ => false,
    }
}

/// N8: whether an access to a global, or a sized call, is at an address that is no multiple of the
/// stated alignment, or of the size.
#[tactic(auto, unfolding(crate::specs::Alignment::overstated))]
pub fn has_overstated(layout: &Layout, scope: &FunctionScope, parts: &Parts, inst: &Inst) -> bool
    requires parts { AreParts parts.now inst.now }
    requires layout { LaysOut layout.now scope.now }
    ensures { result ≡ overstated layout.now scope.now inst.now }
{
    match inst {
        Inst::Load(t, a, align) | Inst::Store(t, _, a, align) => {
            is_overstated(layout, scope, a, stated(*align, *t))
        }
        Inst::LoadAtomic(_, a, _, align)
        | Inst::StoreAtomic(_, _, a, _, align)
        | Inst::Cmpxchg(_, a, _, _, _, _, _, _, align)
        | Inst::Rmw(_, a, _, _, _, align) => is_overstated(layout, scope, a, *align),
        Inst::Call(t, name, args) => {
            let routine = called(*t, name.as_bytes(), args.as_slice());
            is_unaligned_call(layout, scope, routine, parts.pointers.as_slice())
        }
        _ => false,
    }
}

fn is_locked(address: u64, bytes: u64, t: Target) -> bool
    requires { 0 < bytes }
    ensures { result ≡ is_locked_class (class_of address bytes t) }
{
    bytes > max_native(t) as u64 || address % bytes != 0
}

fn is_plain_locked(layout: &Layout, scope: &FunctionScope, t: Target, origin: Origin) -> bool
    requires { LaysOut layout.now scope.now }
    ensures { result ≡ is_plain_locked layout.now t scope.now origin }
{
    let Origin::Global(g) = origin else {
        return false;
    };
    match scope.globals.as_slice().get(g as usize) {
        None => false,
        Some(e) => is_locked(layout.address(g, 0), e.elem.bytes(), t) || is_i128(e.elem),
    }
}

/// N9: whether an instruction is a plain load or store of a global that is locked or has i128
/// elements.
#[tactic(auto, unfolding(crate::specs::Alignment::plain_locked))]
pub fn has_plain_locked(layout: &Layout, scope: &FunctionScope, t: Target, inst: &Inst) -> bool
    requires { LaysOut layout.now scope.now }
    ensures { result ≡ plain_locked layout.now t scope.now inst.now }
{
    match inst {
        Inst::Load(_, a, _) | Inst::Store(_, _, a, _) => {
            is_plain_locked(layout, scope, t, scope.origin(a.base))
        }
        _ => false,
    }
}
