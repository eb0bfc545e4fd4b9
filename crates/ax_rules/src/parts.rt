//! The parts of an instruction.

ghost use Rattle.std.specs.Prelude.{◌≡◌, ◌++◌, IfOk, OnOk, map};
ghost use Rattle.std.specs.List.{flat_map};
ghost use Rattle.ax_source_run.specs.SourceInstructions.{pointers_of_arg};
ghost use Rattle.ax_rules.specs.Parts.{AreParts, arg_operands, arg_types, operands_of, pointers_of, result_types, step_operands, step_types, types_of};

use crate::facts::Parts;
use ax_module::{Addr, Arg, Inst, Operand, Ty};
use ax_words::Items;
use std::alloc::{AllocError, Global};

type Step = Option<(Ty, u64, Ty, Operand)>;

fn push_step_types(all: &mut Vec<Ty>, step: Step) -> Result<(), AllocError>
    ensures { OnOk result (all.new.items ≡ all.old.items ++ step_types step) }
{
    if let Some((elem, _, t, _)) = step {
        all.push(elem)?;
        all.push(t)?;
    }
    Ok(())
}

fn push_step_operands(all: &mut Vec<(Ty, Operand)>, step: Step) -> Result<(), AllocError>
    ensures { OnOk result (all.new.items ≡ all.old.items ++ step_operands step) }
{
    if let Some((_, _, t, v)) = step {
        all.push((t, v))?;
    }
    Ok(())
}

fn push_arg_types(all: &mut Vec<Ty>, arg: Arg) -> Result<(), AllocError>
    ensures { OnOk result (all.new.items ≡ all.old.items ++ arg_types arg) }
{
    match arg {
        Arg::Pointer(a) => push_step_types(all, a.step),
        Arg::Value(t, _) => {
            all.push(t)?;
            Ok(())
        }
    }
}

fn push_arg_operands(all: &mut Vec<(Ty, Operand)>, arg: Arg) -> Result<(), AllocError>
    ensures { OnOk result (all.new.items ≡ all.old.items ++ arg_operands arg) }
{
    match arg {
        Arg::Pointer(a) => push_step_operands(all, a.step),
        Arg::Value(t, v) => {
            all.push((t, v))?;
            Ok(())
        }
    }
}

fn types_of_call(alloc: Global, returned: Option<Ty>, args: &[Arg]) -> Result<Vec<Ty>, AllocError>
    ensures { IfOk result (λ v. v.items ≡ result_types returned ++ flat_map arg_types args.now) }
{
    let mut all = Vec::new(alloc);
    if let Some(t) = returned {
        all.push(t)?;
    }
    for arg in args {
        push_arg_types(&mut all, *arg)?;
    }
    Ok(all)
}

fn operands_of_call(alloc: Global, args: &[Arg]) -> Result<Vec<(Ty, Operand)>, AllocError>
    ensures { IfOk result (λ v. v.items ≡ flat_map arg_operands args.now) }
{
    let mut all = Vec::new(alloc);
    for arg in args {
        push_arg_operands(&mut all, *arg)?;
    }
    Ok(all)
}

fn pointers_of_call(alloc: Global, args: &[Arg]) -> Result<Vec<Addr>, AllocError>
    ensures { IfOk result (λ v. v.items ≡ flat_map pointers_of_arg args.now) }
{
    let mut all = Vec::new(alloc);
    for arg in args {
        if let Arg::Pointer(a) = arg {
            all.push(*a)?;
        }
    }
    Ok(all)
}

#[tactic(auto, unfolding(crate::specs::Parts::types_of))]
fn types_in(alloc: Global, inst: &Inst) -> Result<Vec<Ty>, AllocError>
    ensures { IfOk result (λ v. v.items ≡ types_of inst.now) }
{
    let mut all = Vec::new(alloc);
    match inst {
        Inst::Bin(_, t, _, _)
        | Inst::Icmp(_, t, _, _)
        | Inst::Phi(t, _)
        | Inst::Ret(t, _)
        | Inst::Alloca(t, _, _)
        | Inst::Extract(t, _, _) => all.push(*t)?,
        Inst::Select(_, t, _, u, _) | Inst::Convert(_, t, _, u) | Inst::Gep(t, _, _, u, _) => {
            all.push(*t)?;
            all.push(*u)?;
        }
        Inst::Load(t, a, _)
        | Inst::LoadAtomic(t, a, _, _)
        | Inst::Store(t, _, a, _)
        | Inst::StoreAtomic(t, _, a, _, _)
        | Inst::Rmw(_, a, t, _, _, _) => {
            all.push(*t)?;
            push_step_types(&mut all, a.step)?;
        }
        Inst::Cmpxchg(_, a, t, _, u, ..) => {
            all.push(*t)?;
            all.push(*u)?;
            push_step_types(&mut all, a.step)?;
        }
        Inst::Call(t, _, args) => return types_of_call(alloc, *t, args.as_slice()),
        _ => {}
    }
    Ok(all)
}

fn operands_of_phi(
    alloc: Global,
    t: Ty,
    entries: &[(Operand, u32)],
) -> Result<Vec<(Ty, Operand)>, AllocError>
    ensures { IfOk result (λ v. v.items ≡ map (λ e. (t, e.0)) entries.now) }
{
    let mut all = Vec::new(alloc);
    for (operand, _block) in entries {
        all.push((t, *operand))?;
    }
    Ok(all)
}

#[tactic(auto, unfolding(crate::specs::Parts::operands_of))]
fn operands_in(alloc: Global, inst: &Inst) -> Result<Vec<(Ty, Operand)>, AllocError>
    ensures { IfOk result (λ v. v.items ≡ operands_of inst.now) }
{
    let mut all = Vec::new(alloc);
    match inst {
        Inst::Bin(_, t, v, w) | Inst::Icmp(_, t, v, w) => {
            all.push((*t, *v))?;
            all.push((*t, *w))?;
        }
        Inst::Select(c, t, v, u, w) => {
            all.push((Ty::I1, *c))?;
            all.push((*t, *v))?;
            all.push((*u, *w))?;
        }
        Inst::Convert(_, t, v, _) | Inst::Ret(t, v) | Inst::Gep(_, _, _, t, v) => {
            all.push((*t, *v))?;
        }
        Inst::Phi(t, entries) => return operands_of_phi(alloc, *t, entries.as_slice()),
        Inst::Branch(v, _, _) => all.push((Ty::I1, *v))?,
        Inst::Load(_, a, _) | Inst::LoadAtomic(_, a, _, _) => {
            push_step_operands(&mut all, a.step)?;
        }
        Inst::Store(t, v, a, _) | Inst::StoreAtomic(t, v, a, _, _) | Inst::Rmw(_, a, t, v, _, _) =>
            {
                all.push((*t, *v))?;
                push_step_operands(&mut all, a.step)?;
            }
        Inst::Cmpxchg(_, a, t, v, u, w, ..) => {
            all.push((*t, *v))?;
            all.push((*u, *w))?;
            push_step_operands(&mut all, a.step)?;
        }
        Inst::Call(_, _, args) => return operands_of_call(alloc, args.as_slice()),
        _ => {}
    }
    Ok(all)
}

#[tactic(auto, unfolding(ax_source_run::specs::SourceInstructions::pointers_of))]
fn pointers_in(alloc: Global, inst: &Inst) -> Result<Vec<Addr>, AllocError>
    ensures { IfOk result (λ v. v.items ≡ pointers_of inst.now) }
{
    let mut all = Vec::new(alloc);
    match inst {
        Inst::Load(_, a, _)
        | Inst::LoadAtomic(_, a, _, _)
        | Inst::Store(_, _, a, _)
        | Inst::StoreAtomic(_, _, a, _, _)
        | Inst::Cmpxchg(_, a, ..)
        | Inst::Rmw(_, a, ..) => all.push(*a)?,
        Inst::Call(_, _, args) => return pointers_of_call(alloc, args.as_slice()),
        _ => {}
    }
    Ok(all)
}

impl Parts {
    /// The parts of an instruction.
    pub fn of(alloc: Global, inst: &Inst) -> Result<Parts, AllocError>
        ensures { IfOk result (λ parts. AreParts parts inst.now) }
    {
        Ok(Parts {
            types: Items::of(types_in(alloc, inst)?),
            operands: Items::of(operands_in(alloc, inst)?),
            pointers: Items::of(pointers_in(alloc, inst)?),
        })
    }
}
