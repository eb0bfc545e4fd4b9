//! The functions that may be called, and their signatures.

ghost use Rattle.std.specs.Prelude.{◌≡◌, map};
ghost use Rattle.std.specs.Cmp.Lexicographic.{pointwise};
ghost use Rattle.ax_source_run.specs.SourceInstructions.{is_out};
ghost use Rattle.ax_rules.specs.Parts.{same_type};
ghost use Rattle.ax_rules.specs.Signatures.{arg_type, argument_types, called, fits_out, fits_routine, result_type, same_result, shape_of, type_of_routine, user_call};

use crate::facts::Shape;
use crate::types::is_same;
use ax_module::{Arg, Inst, Ty};
use ax_words::RoutineName;

/// Which arguments a routine takes.
#[tactic(auto, unfolding(crate::specs::Signatures::shape_of, ax_source_run::specs::SourceCalls::kind_of, ax_words::specs::Routine::number_of))]
pub fn shape(routine: RoutineName) -> Shape
    ensures { result ≡ shape_of routine }
{
    match routine {
        RoutineName::Load1
        | RoutineName::Load2
        | RoutineName::Load4
        | RoutineName::Load8
        | RoutineName::Load16 => Shape::Load,
        RoutineName::Store1
        | RoutineName::Store2
        | RoutineName::Store4
        | RoutineName::Store8
        | RoutineName::Store16 => Shape::Store,
        RoutineName::CompareExchange1
        | RoutineName::CompareExchange2
        | RoutineName::CompareExchange4
        | RoutineName::CompareExchange8
        | RoutineName::CompareExchange16 => Shape::Compare,
        RoutineName::Load => Shape::GenericLoad,
        RoutineName::Store => Shape::GenericStore,
        RoutineName::Exchange => Shape::GenericExchange,
        RoutineName::CompareExchange => Shape::GenericCompare,
        RoutineName::IsLockFree => Shape::IsLockFree,
        _ => Shape::Update,
    }
}

/// The type of a sized routine's size.
#[tactic(auto, unfolding(crate::specs::Signatures::type_of_routine))]
pub fn type_of_routine(routine: RoutineName) -> Ty
    ensures { result ≡ type_of_routine routine }
{
    let number = routine.number();
    if number < 10 {
        Ty::I8
    } else if number < 20 {
        Ty::I16
    } else if number < 30 {
        Ty::I32
    } else if number < 40 {
        Ty::I64
    } else {
        Ty::I128
    }
}

fn arg_type(arg: Arg) -> Ty
    ensures { result ≡ arg_type arg }
{
    match arg {
        Arg::Pointer(_) => Ty::Ptr,
        Arg::Value(t, _) => t,
    }
}

fn are_types(types: &[Ty], args: &[Arg]) -> bool
    ensures { result ≡ pointwise same_type types.now (map arg_type args.now) }
{
    match (types, args) {
        ([], []) => true,
        ([t, types @ ..], [arg, args @ ..]) => {
            is_same(*t, arg_type(*arg)) && are_types(types, args)
        }
        _ => false,
    }
}

fn are_argument_types(shape: Shape, t: Ty, args: &[Arg]) -> bool
    ensures { result ≡ pointwise same_type (argument_types shape t) (map arg_type args.now) }
{
    match shape {
        Shape::Load => are_types(&[Ty::Ptr, Ty::I32], args),
        Shape::Store | Shape::Update => are_types(&[Ty::Ptr, t, Ty::I32], args),
        Shape::Compare => are_types(&[Ty::Ptr, Ty::Ptr, t, Ty::I32, Ty::I32], args),
        Shape::GenericLoad | Shape::GenericStore => {
            are_types(&[Ty::I64, Ty::Ptr, Ty::Ptr, Ty::I32], args)
        }
        Shape::GenericExchange => {
            are_types(&[Ty::I64, Ty::Ptr, Ty::Ptr, Ty::Ptr, Ty::I32], args)
        }
        Shape::GenericCompare => {
            are_types(
                &[Ty::I64, Ty::Ptr, Ty::Ptr, Ty::Ptr, Ty::I32, Ty::I32],
                args,
            )
        }
        Shape::IsLockFree => are_types(&[Ty::I64, Ty::Ptr], args),
    }
}

fn result_type(shape: Shape, t: Ty) -> Option<Ty>
    ensures { result ≡ result_type shape t }
{
    match shape {
        Shape::Load | Shape::Update => Some(t),
        Shape::Compare | Shape::GenericCompare | Shape::IsLockFree => Some(Ty::I1),
        Shape::Store | Shape::GenericLoad | Shape::GenericStore | Shape::GenericExchange => None,
    }
}

fn same_result(wanted: Option<Ty>, given: Option<Ty>) -> bool
    ensures { result ≡ same_result wanted given }
{
    match (wanted, given) {
        (None, None) => true,
        (Some(t), Some(u)) => is_same(t, u),
        _ => false,
    }
}

fn fits_routine(routine: RoutineName, t: Option<Ty>, args: &[Arg]) -> bool
    ensures { result ≡ fits_routine routine t args.now }
{
    let shape = shape(routine);
    let size = type_of_routine(routine);
    same_result(result_type(shape, size), t) && are_argument_types(shape, size, args)
}

/// The routine that is called with the types of its signature. None exactly where the name is no
/// routine's, or a type is another.
pub fn called(t: Option<Ty>, name: &[u8], args: &[Arg]) -> Option<RoutineName>
    ensures { result ≡ called t name.now args.now }
{
    let routine = RoutineName::named(name)?;
    if fits_routine(routine, t, args) {
        Some(routine)
    } else {
        None
    }
}

fn is_out(name: &[u8]) -> bool
    ensures { result ≡ is_out name.now }
{
    name == b"out".as_slice()
}

fn fits_out(t: Option<Ty>, args: &[Arg]) -> bool
    ensures { result ≡ fits_out t args.now }
{
    same_result(None, t) && are_types(&[Ty::I64], args)
}

/// N4: whether an instruction is a call of a function that is neither `@out` nor a routine, or
/// whose types aren't those of its signature.
#[tactic(auto, unfolding(crate::specs::Signatures::user_call))]
pub fn is_user_call(inst: &Inst) -> bool
    ensures { result ≡ user_call inst.now }
{
    match inst {
        Inst::Call(t, name, args) => {
            let name = name.as_bytes();
            if is_out(name) {
                !fits_out(*t, args.as_slice())
            } else {
                called(*t, name, args.as_slice()).is_none()
            }
        }
        _ => false,
    }
}
