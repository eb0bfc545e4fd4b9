//! What an instruction does.

ghost use Rattle.std.specs.Prelude.{◌≡◌, IsTrue, false, option_map};
ghost use Rattle.std.specs.List.{list_all};
ghost use Rattle.ax_source_run.specs.SourcePointers.{is_element};
ghost use Rattle.ax_source_run.specs.SourceInstructions.{access_of, is_seq_cst, lock_free_at, result_in, routine_access, routine_result, store_may_wait, traps, width_of};
ghost use Rattle.ax_words.specs.Routine.{routine_named};
ghost use Rattle.ax_source.specs.Accesses.{access_in};
ghost use Rattle.ax_source.specs.Instructions.{any_outside};
ghost use Rattle.ax_source.specs.ProcessorState.{state_of};
ghost use Rattle.ax_source.specs.Calls.{routine_has_pointers};
ghost use Rattle.ax_source.specs.Runnable.{is_narrow_arg, is_narrow_inst};
ghost use Rattle.ax_cells.specs.Values.{pointer_of, value_of};

use crate::access::{Access, Operation, Reply};
use crate::calls::Kind;
use crate::processor::Processor;
use ax_cells::{Object, Pointer, Value};
use ax_module::{Arg, Inst, Name, Ty};
use ax_target::{Target, Way, decide};
use ax_values::{bits, compare, compute, convert};
use ax_words::{Op, Order, RoutineName, Width};

/// The width of a type's atomic accesses.
fn width_of(ty: Ty) -> Width
    ensures { result ≡ width_of ty }
{
    match ty {
        Ty::I16 => Width::W16,
        Ty::I32 => Width::W32,
        Ty::I64 => Width::W64,
        Ty::I128 => Width::W128,
        _ => Width::W8,
    }
}

/// Whether an atomic store waits: below seq_cst, in one access.
fn store_may_wait(target: Target, ty: Ty, order: Order, align: u64) -> bool
    ensures { result ≡ store_may_wait target ty order align }
{
    !is_seq_cst(order) && matches!(decide(target, Op::Store, width_of(ty), align), Way::Inline)
}

pub(crate) fn is_seq_cst(order: Order) -> bool
    ensures { result ≡ is_seq_cst order }
{
    matches!(order, Order::SeqCst)
}

impl<'a> Processor<'a> {
    /// Whether a pointer argument's index lies past the object's elements.
    #[tactic(auto, using(crate::proofs::Inside::arguments))]
    fn any_outside(&self, args: &[Arg]) -> bool
        requires { IsTrue (list_all is_narrow_arg args.now) }
        ensures { result ≡ any_outside self.now args.now }
    {
        for arg in args {
            if let Arg::Pointer(addr) = arg {
                if !self.is_inside(*addr) {
                    return true;
                }
            }
        }
        false
    }

    /// Whether an instruction traps: it is `unreachable`, or an index lies past the elements.
    #[tactic(auto, using(crate::proofs::Inside::arguments), unfolding(ax_source_run::specs::SourceInstructions::is_unreachable, ax_source_run::specs::SourceInstructions::pointers_of, crate::specs::Runnable::is_narrow_inst))]
    pub(crate) fn traps(&self, inst: &Inst) -> bool
        requires { IsTrue (is_narrow_inst inst.now) }
        ensures { result ≡ traps self.now.program (state_of self.now) inst.now }
    {
        match inst {
            Inst::Unreachable => true,
            Inst::Load(_, addr, _)
            | Inst::LoadAtomic(_, addr, _, _)
            | Inst::Store(_, _, addr, _)
            | Inst::StoreAtomic(_, _, addr, _, _)
            | Inst::Cmpxchg(_, addr, _, _, _, _, _, _, _)
            | Inst::Rmw(_, addr, _, _, _, _) => !self.is_inside(*addr),
            Inst::Call(_, _, args) => self.any_outside(args.as_slice()),
            _ => false,
        }
    }

    /// The operation on an object that an instruction is.
    #[tactic(auto, unfolding(ax_source_run::specs::SourceInstructions::access_of, crate::specs::Runnable::is_narrow_inst))]
    pub(crate) fn access(&self, inst: &Inst) -> Option<Access>
        requires { IsTrue (is_narrow_inst inst.now) }
        ensures { option_map access_in result ≡ access_of self.now.program (state_of self.now) inst.now }
    {
        match inst {
            Inst::Load(_, addr, _) | Inst::LoadAtomic(_, addr, _, _) => Some(Access {
                pointer: self.pointer(*addr),
                operation: Operation::Reads,
                may_wait: false,
                reply: Reply::Found,
            }),
            Inst::Store(ty, v, addr, _) => Some(Access {
                pointer: self.pointer(*addr),
                operation: Operation::Writes(self.operand(*ty, *v)),
                may_wait: true,
                reply: Reply::Silent,
            }),
            Inst::StoreAtomic(ty, v, addr, order, align) => Some(Access {
                pointer: self.pointer(*addr),
                operation: Operation::Writes(self.operand(*ty, *v)),
                may_wait: store_may_wait(self.program().target(), *ty, *order, *align),
                reply: Reply::Silent,
            }),
            Inst::Cmpxchg(_, addr, ty, expected, other, new, _, _, _) => Some(Access {
                pointer: self.pointer(*addr),
                operation: Operation::Compares(
                    self.operand(*ty, *expected),
                    self.operand(*other, *new),
                ),
                may_wait: false,
                reply: Reply::FoundEqual,
            }),
            Inst::Rmw(op, addr, ty, v, _, _) => Some(Access {
                pointer: self.pointer(*addr),
                operation: Operation::Updates(*op, self.operand(*ty, *v)),
                may_wait: false,
                reply: Reply::Found,
            }),
            Inst::Call(_, name, args) => self.routine_access(name, args.as_slice()),
            _ => None,
        }
    }

    fn routine_access(&self, name: &Name, args: &[Arg]) -> Option<Access>
        requires { IsTrue (list_all is_narrow_arg args.now) }
        ensures { option_map access_in result ≡ routine_access self.now.program (state_of self.now) (routine_named name.now) args.now }
    {
        match RoutineName::named(name.as_bytes()) {
            Some(routine) => self.call(Kind::of(routine), args),
            None => None,
        }
    }

    /// Whether an object is native, of which the class is asked.
    fn is_lock_free(&self, p: Pointer) -> bool
        requires { IsTrue (is_element self.now.program.source self.now.function (pointer_of p)) }
        ensures { result ≡ lock_free_at self.now.program (state_of self.now) (pointer_of p).object p.index }
    {
        match p.object {
            Object::Shared(g) => self.is_native(g, p.index),
            Object::Private(_) => false,
        }
    }

    fn routine_result(&self, name: &Name, args: &[Arg]) -> Option<Value>
        requires narrow { IsTrue (list_all is_narrow_arg args.now) }
        requires inside { any_outside self.now args.now ≡ false }
        requires pointers { IsTrue (routine_has_pointers (routine_named name.now) args.now) }
        ensures { option_map value_of result ≡ routine_result self.now.program (state_of self.now) (routine_named name.now) args.now }
    {
        match RoutineName::named(name.as_bytes()) {
            Some(routine) => match Kind::of(routine) {
                Kind::IsLockFree => {
                    let p = self.pointer_at(args, 1);
                    Some(Value::Number(u128::from(self.is_lock_free(p))))
                }
                _ => None,
            },
            None => None,
        }
    }

    /// The result of instruction `k` where it is no operation on an object.
    #[tactic(auto, unfolding(ax_source_run::specs::SourceInstructions::result_in, crate::specs::Runnable::is_narrow_inst))]
    pub(crate) fn result(&self, k: usize, inst: &Inst) -> Option<Value>
        requires narrow { IsTrue (is_narrow_inst inst.now) }
        requires inside { traps self.now.program (state_of self.now) inst.now ≡ false }
        ensures { option_map value_of result ≡ result_in self.now.program (state_of self.now) k inst.now }
    {
        match inst {
            Inst::Bin(op, ty, a, b) => {
                let (a, b) = (self.operand(*ty, *a), self.operand(*ty, *b));
                Some(Value::Number(compute(*op, bits(*ty), a, b)))
            }
            Inst::Icmp(condition, ty, a, b) => {
                let (a, b) = (self.operand(*ty, *a), self.operand(*ty, *b));
                Some(Value::Number(u128::from(compare(*condition, bits(*ty), a, b))))
            }
            Inst::Select(condition, ty, a, other, b) => {
                let n = if self.operand(Ty::I1, *condition) == 0 {
                    self.operand(*other, *b)
                } else {
                    self.operand(*ty, *a)
                };
                Some(Value::Number(n))
            }
            Inst::Convert(cast, ty, a, to) => {
                let n = self.operand(*ty, *a);
                Some(Value::Number(convert(*cast, bits(*ty), bits(*to), n)))
            }
            Inst::Alloca(..) => Some(Value::PointsTo(Pointer {
                object: Object::Private(k as u128),
                index: 0,
            })),
            Inst::Gep(ty, _, base, index_ty, index) => {
                let base = self.base(*base);
                Some(Value::PointsTo(self.stepped(*ty, *index_ty, *index, base)))
            }
            Inst::Extract(_, pair, part) => Some(Value::Number(self.part(*part, *pair))),
            Inst::Call(_, name, args) => self.routine_result(name, args.as_slice()),
            _ => None,
        }
    }
}
