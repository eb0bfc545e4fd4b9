//! Instructions with numbers in place of names.

ghost use Rattle.std.specs.Prelude.{◌≡◌, IfOk};
ghost use Rattle.ax_lines.specs.declared.statement.Statement.TheVariants.{Bin, Icmp, Select, Convert, Phi, Jump, Branch, Ret, Gep, Load, LoadAtomic, Store, StoreAtomic, Cmpxchg, Rmw, Extract, Call};
ghost use Rattle.ax_scope.specs.Resolve.{alignment_or, args_of, incoming_of, inst_of};
ghost use Rattle.ax_scope.specs.Around.{looks};
ghost use Rattle.ax_scope.specs.Stops.{Resolves};

use crate::fault::NameStop;
use crate::locals::{Names, text_at};
use crate::resolve::{addr_of, arg_of, base_of, block_of, operand_of};
use ax_lines::{Argument, Path, Pointer, Statement};
use ax_module::{Arg, BinOp, Cast, Inst, Name, Operand, Pred, Ty};
use ax_symbols::{NameSpan, Value};
use ax_words::{Items, Order, RmwOp};
use std::alloc::Global;

#[tactic(auto, unfolding(crate::specs::Resolve::inst_of))]
fn binary(names: &Names, op: BinOp, ty: Ty, left: Value, right: Value) -> Option<Inst>
    ensures { result ≡ inst_of (looks names.now) (Bin op ty left right) }
{
    let left = operand_of(names, left)?;
    let right = operand_of(names, right)?;
    Some(Inst::Bin(op, ty, left, right))
}

#[tactic(auto, unfolding(crate::specs::Resolve::inst_of))]
fn comparison(names: &Names, pred: Pred, ty: Ty, left: Value, right: Value) -> Option<Inst>
    ensures { result ≡ inst_of (looks names.now) (Icmp pred ty left right) }
{
    let left = operand_of(names, left)?;
    let right = operand_of(names, right)?;
    Some(Inst::Icmp(pred, ty, left, right))
}

#[tactic(auto, unfolding(crate::specs::Resolve::inst_of))]
fn selection(names: &Names, test: Value, yes: (Ty, Value), no: (Ty, Value)) -> Option<Inst>
    ensures { result ≡ inst_of (looks names.now) (Select test yes.0 yes.1 no.0 no.1) }
{
    let test = operand_of(names, test)?;
    let yes_operand = operand_of(names, yes.1)?;
    let no_operand = operand_of(names, no.1)?;
    Some(Inst::Select(test, yes.0, yes_operand, no.0, no_operand))
}

#[tactic(auto, unfolding(crate::specs::Resolve::inst_of))]
fn conversion(names: &Names, cast: Cast, from: Ty, value: Value, to: Ty) -> Option<Inst>
    ensures { result ≡ inst_of (looks names.now) (Convert cast from value to) }
{
    let operand = operand_of(names, value)?;
    Some(Inst::Convert(cast, from, operand, to))
}

#[tactic(auto, unfolding(crate::specs::Resolve::inst_of))]
fn branch(names: &Names, test: Value, yes: NameSpan, no: NameSpan) -> Option<Inst>
    ensures { result ≡ inst_of (looks names.now) (Branch test yes no) }
{
    let test = operand_of(names, test)?;
    let yes = block_of(names, yes)?;
    let no = block_of(names, no)?;
    Some(Inst::Branch(test, yes, no))
}

#[tactic(auto, unfolding(crate::specs::Resolve::inst_of))]
fn jump(names: &Names, to: NameSpan) -> Option<Inst>
    ensures { result ≡ inst_of (looks names.now) (Jump to) }
{
    let to = block_of(names, to)?;
    Some(Inst::Jump(to))
}

#[tactic(auto, unfolding(crate::specs::Resolve::inst_of))]
fn value_return(names: &Names, ty: Ty, value: Value) -> Option<Inst>
    ensures { result ≡ inst_of (looks names.now) (Ret ty value) }
{
    let operand = operand_of(names, value)?;
    Some(Inst::Ret(ty, operand))
}

#[tactic(auto, unfolding(crate::specs::Resolve::inst_of))]
fn extraction(names: &Names, ty: Ty, value: Value, part: u8) -> Option<Inst>
    ensures { result ≡ inst_of (looks names.now) (Extract ty value part) }
{
    let operand = operand_of(names, value)?;
    Some(Inst::Extract(ty, operand, part))
}

#[tactic(auto, unfolding(crate::specs::Resolve::inst_of))]
fn element(names: &Names, path: Path) -> Option<Inst>
    ensures { result ≡ inst_of (looks names.now) (Gep path) }
{
    let base = base_of(names, path.base)?;
    let index = operand_of(names, path.index)?;
    Some(Inst::Gep(path.elem, path.count, base, path.index_type, index))
}

#[tactic(auto, unfolding(crate::specs::Resolve::inst_of))]
fn load(names: &Names, ty: Ty, pointer: Pointer, align: Option<u64>) -> Option<Inst>
    ensures { result ≡ inst_of (looks names.now) (Load ty pointer align) }
{
    let addr = addr_of(names, pointer)?;
    Some(Inst::Load(ty, addr, align))
}

#[tactic(auto, unfolding(crate::specs::Resolve::inst_of))]
fn atomic_load(names: &Names, ty: Ty, pointer: Pointer, order: Order, align: u64) -> Option<Inst>
    ensures { result ≡ inst_of (looks names.now) (LoadAtomic ty pointer order align) }
{
    let addr = addr_of(names, pointer)?;
    Some(Inst::LoadAtomic(ty, addr, order, align))
}

#[tactic(auto, unfolding(crate::specs::Resolve::inst_of))]
fn store(names: &Names, ty: Ty, value: Value, pointer: Pointer, align: Option<u64>) -> Option<Inst>
    ensures { result ≡ inst_of (looks names.now) (Store ty value pointer align) }
{
    let operand = operand_of(names, value)?;
    let addr = addr_of(names, pointer)?;
    Some(Inst::Store(ty, operand, addr, align))
}

#[tactic(auto, unfolding(crate::specs::Resolve::inst_of))]
fn atomic_store(
    names: &Names,
    stored: (Ty, Value),
    pointer: Pointer,
    order: Order,
    align: u64,
) -> Option<Inst>
    ensures { result ≡ inst_of (looks names.now) (StoreAtomic stored.0 stored.1 pointer order align) }
{
    let operand = operand_of(names, stored.1)?;
    let addr = addr_of(names, pointer)?;
    Some(Inst::StoreAtomic(stored.0, operand, addr, order, align))
}

/// The alignment, which is the type's size where none is stated.
fn alignment_or(ty: Ty, align: Option<u64>) -> u64
    ensures { result ≡ alignment_or ty align }
{
    match align {
        None => ty.bytes(),
        Some(align) => align,
    }
}

#[tactic(auto, unfolding(crate::specs::Resolve::inst_of))]
fn exchange(
    names: &Names,
    weak: bool,
    pointer: Pointer,
    expected: (Ty, Value),
    new: (Ty, Value),
    orders: (Order, Order),
    align: Option<u64>,
) -> Option<Inst>
    ensures { result ≡ inst_of (looks names.now) (Cmpxchg weak pointer expected new orders align) }
{
    let addr = addr_of(names, pointer)?;
    let old = operand_of(names, expected.1)?;
    let desired = operand_of(names, new.1)?;
    let align = alignment_or(expected.0, align);
    let (success, failure) = orders;
    Some(Inst::Cmpxchg(
        weak, addr, expected.0, old, new.0, desired, success, failure, align,
    ))
}

#[tactic(auto, unfolding(crate::specs::Resolve::inst_of))]
fn modification(
    names: &Names,
    op: RmwOp,
    pointer: Pointer,
    operand: (Ty, Value),
    order: Order,
    align: Option<u64>,
) -> Option<Inst>
    ensures { result ≡ inst_of (looks names.now) (Rmw op pointer operand.0 operand.1 order align) }
{
    let addr = addr_of(names, pointer)?;
    let value = operand_of(names, operand.1)?;
    let align = alignment_or(operand.0, align);
    Some(Inst::Rmw(op, addr, operand.0, value, order, align))
}

fn args_of(alloc: Global, names: &Names, arguments: &[Argument]) -> Result<Vec<Arg>, NameStop>
    ensures { Resolves (λ v. v.items) result (args_of (looks names.now) arguments.now) }
{
    let mut args = Vec::with_capacity(alloc, arguments.len())?;
    for argument in arguments {
        let arg = arg_of(names, *argument).ok_or(NameStop::Name)?;
        args.push(arg)?;
    }
    Ok(args)
}

fn incoming_of(
    alloc: Global,
    names: &Names,
    pairs: &[(Value, NameSpan)],
) -> Result<Vec<(Operand, u32)>, NameStop>
    ensures { Resolves (λ v. v.items) result (incoming_of (looks names.now) pairs.now) }
{
    let mut incoming = Vec::with_capacity(alloc, pairs.len())?;
    for (value, from) in pairs {
        let operand = operand_of(names, *value).ok_or(NameStop::Name)?;
        let block = block_of(names, *from).ok_or(NameStop::Name)?;
        incoming.push((operand, block))?;
    }
    Ok(incoming)
}

#[tactic(auto, unfolding(crate::specs::Resolve::inst_of))]
fn phi(
    alloc: Global,
    names: &Names,
    ty: Ty,
    pairs: &Items<(Value, NameSpan)>,
) -> Result<Inst, NameStop>
    ensures { Resolves (λ i. i) result (inst_of (looks names.now) (Phi ty pairs.now)) }
{
    let incoming = incoming_of(alloc, names, pairs.as_slice())?;
    Ok(Inst::Phi(ty, Items::of(incoming)))
}

#[tactic(auto, unfolding(crate::specs::Resolve::inst_of))]
fn call(
    alloc: Global,
    names: &Names,
    ty: Option<Ty>,
    callee: NameSpan,
    arguments: &Items<Argument>,
) -> Result<Inst, NameStop>
    ensures { Resolves (λ i. i) result (inst_of (looks names.now) (Call ty callee arguments.now)) }
{
    let args = args_of(alloc, names, arguments.as_slice())?;
    let callee = Vec::from_slice(alloc, text_at(names.text, callee))?;
    Ok(Inst::Call(ty, Name::of(callee), Items::of(args)))
}

fn found(inst: Option<Inst>) -> Result<Inst, NameStop>
    ensures { Resolves (λ i. i) result inst }
{
    inst.ok_or(NameStop::Name)
}

/// The instruction that a statement is, unless a name that it uses stands for nothing.
#[tactic(auto, unfolding(crate::specs::Resolve::inst_of))]
pub fn inst_of(alloc: Global, names: &Names, statement: &Statement) -> Result<Inst, NameStop>
    ensures { Resolves (λ i. i) result (inst_of (looks names.now) statement.now) }
{
    match statement {
        Statement::Bin(op, ty, left, right) => found(binary(names, *op, *ty, *left, *right)),
        Statement::Icmp(pred, ty, left, right) => {
            found(comparison(names, *pred, *ty, *left, *right))
        }
        Statement::Select(test, yes_type, yes, no_type, no) => found(selection(
            names,
            *test,
            (*yes_type, *yes),
            (*no_type, *no),
        )),
        Statement::Convert(cast, from, value, to) => {
            found(conversion(names, *cast, *from, *value, *to))
        }
        Statement::Phi(ty, pairs) => phi(alloc, names, *ty, pairs),
        Statement::Jump(to) => found(jump(names, *to)),
        Statement::Branch(test, yes, no) => found(branch(names, *test, *yes, *no)),
        Statement::RetVoid => Ok(Inst::RetVoid),
        Statement::Ret(ty, value) => found(value_return(names, *ty, *value)),
        Statement::Unreachable => Ok(Inst::Unreachable),
        Statement::Alloca(ty, count, align) => Ok(Inst::Alloca(*ty, *count, *align)),
        Statement::Gep(path) => found(element(names, *path)),
        Statement::Load(ty, pointer, align) => found(load(names, *ty, *pointer, *align)),
        Statement::LoadAtomic(ty, pointer, order, align) => {
            found(atomic_load(names, *ty, *pointer, *order, *align))
        }
        Statement::Store(ty, value, pointer, align) => {
            found(store(names, *ty, *value, *pointer, *align))
        }
        Statement::StoreAtomic(ty, value, pointer, order, align) => found(atomic_store(
            names,
            (*ty, *value),
            *pointer,
            *order,
            *align,
        )),
        Statement::Cmpxchg(weak, pointer, expected, new, orders, align) => found(exchange(
            names, *weak, *pointer, *expected, *new, *orders, *align,
        )),
        Statement::Rmw(op, pointer, ty, value, order, align) => found(modification(
            names,
            *op,
            *pointer,
            (*ty, *value),
            *order,
            *align,
        )),
        Statement::Fence(single, order) => Ok(Inst::Fence(*single, *order)),
        Statement::Extract(ty, value, part) => found(extraction(names, *ty, *value, *part)),
        Statement::Call(ty, callee, arguments) => call(alloc, names, *ty, *callee, arguments),
    }
}
