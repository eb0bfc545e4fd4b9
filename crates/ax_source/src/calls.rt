//! Calls of libatomic's routines (GCC libatomic ABI).

ghost use Rattle.std.specs.Prelude.{◌≡◌, ◌<◌, ◌+◌, IsTrue, Some, false, option_map, slice_get, slice_index_or};
ghost use Rattle.std.specs.List.{list_all};
ghost use Rattle.ax_source_run.specs.SourceCalls.{IsLockFree, SizedLoad, call, call_of, content_at, generic_kinds, kind_of, number_at, pointer_at, sized_kinds};
ghost use Rattle.ax_source_run.specs.SourceAccess.{Compares, EqualOrInto};
ghost use Rattle.ax_source.specs.Accesses.{access_in, operation_of, reply_of};
ghost use Rattle.ax_source.specs.Kinds.{kind_in};
ghost use Rattle.ax_source.specs.ProcessorState.{state_of};
ghost use Rattle.ax_source.specs.Runnable.{is_narrow_arg};
ghost use Rattle.ax_cells.specs.Values.{pointer_of};

use crate::access::{Access, Operation, Reply};
use crate::processor::Processor;
use ax_cells::{Object, Pointer, Value};
use ax_module::Arg;
use ax_words::{RmwOp, RoutineName};

/// What a routine does, of a size that its name or its first argument states.
#[derive(Clone, Copy)]
pub(crate) enum Kind {
    SizedLoad,
    SizedStore,
    SizedUpdate(RmwOp),
    SizedCompare,
    GenericLoad,
    GenericStore,
    GenericExchange,
    GenericCompare,
    IsLockFree,
}

/// What the routines of a size do, in the order of their numbers.
fn sized(n: u32) -> Kind
    ensures { kind_in result ≡ slice_index_or sized_kinds n SizedLoad }
{
    match n {
        1 => Kind::SizedStore,
        2 => Kind::SizedUpdate(RmwOp::Xchg),
        3 => Kind::SizedCompare,
        4 => Kind::SizedUpdate(RmwOp::Add),
        5 => Kind::SizedUpdate(RmwOp::Sub),
        6 => Kind::SizedUpdate(RmwOp::And),
        7 => Kind::SizedUpdate(RmwOp::Or),
        8 => Kind::SizedUpdate(RmwOp::Xor),
        9 => Kind::SizedUpdate(RmwOp::Nand),
        _ => Kind::SizedLoad,
    }
}

/// What the routines behind those of the sizes do, in the order of their numbers.
fn generic(n: u32) -> Kind
    ensures { kind_in result ≡ slice_index_or generic_kinds n IsLockFree }
{
    match n {
        0 => Kind::GenericLoad,
        1 => Kind::GenericStore,
        2 => Kind::GenericExchange,
        3 => Kind::GenericCompare,
        _ => Kind::IsLockFree,
    }
}

impl Kind {
    /// What a routine does.
    #[tactic(auto, unfolding(ax_source_run::specs::SourceCalls::kind_of))]
    pub(crate) fn of(routine: RoutineName) -> Kind
        ensures { kind_in result ≡ kind_of routine }
    {
        let n = routine.number();
        if n < 50 {
            sized(n % 10)
        } else {
            generic(n - 50)
        }
    }
}

fn arg(args: &[Arg], k: usize) -> Option<Arg>
    ensures { result ≡ slice_get args.now k }
{
    args.get(k).copied()
}

/// An operation of a routine, which never waits.
fn call(pointer: Pointer, operation: Operation, reply: Reply) -> Option<Access>
    ensures { option_map access_in result ≡ Some (record { pointer = pointer_of pointer; operation = operation_of operation; may_wait = false; reply = reply_of reply }) }
{
    Some(Access {
        pointer,
        operation,
        may_wait: false,
        reply,
    })
}

impl<'a> Processor<'a> {
    /// The element that an argument points to.
    #[tactic(auto, using(crate::proofs::Narrow::args))]
    pub(crate) fn pointer_at(&self, args: &[Arg], k: usize) -> Pointer
        requires { IsTrue (list_all is_narrow_arg args.now) }
        ensures { pointer_of result ≡ pointer_at self.now.program (state_of self.now) args.now k }
    {
        match arg(args, k) {
            Some(Arg::Pointer(addr)) => self.pointer(addr),
            Some(Arg::Value(..)) | None => Value::Number(0).pointer(),
        }
    }

    /// The number that an argument is.
    #[tactic(auto, using(crate::proofs::Narrow::args))]
    fn number_at(&self, args: &[Arg], k: usize) -> u128
        requires { IsTrue (list_all is_narrow_arg args.now) }
        ensures { result ≡ number_at self.now.program (state_of self.now) args.now k }
    {
        match arg(args, k) {
            Some(Arg::Value(ty, operand)) => self.operand(ty, operand),
            Some(Arg::Pointer(_)) | None => 0,
        }
    }

    /// The number that an argument points to, in an alloca.
    fn content_at(&self, args: &[Arg], k: usize) -> u128
        requires { IsTrue (list_all is_narrow_arg args.now) }
        ensures { result ≡ content_at self.now.program (state_of self.now) args.now k }
    {
        let p = self.pointer_at(args, k);
        match p.object {
            Object::Private(r) => self.content(r, p.index),
            Object::Shared(_) => 0,
        }
    }

    /// The operation of a routine that is called. One that only asks for an object's class has none.
    pub(crate) fn call(&self, kind: Kind, args: &[Arg]) -> Option<Access>
        requires { IsTrue (list_all is_narrow_arg args.now) }
        ensures { option_map access_in result ≡ call_of self.now.program (state_of self.now) (kind_in kind) args.now }
    {
        match kind {
            Kind::SizedLoad => call(self.pointer_at(args, 0), Operation::Reads, Reply::Found),
            Kind::SizedStore => {
                let n = self.number_at(args, 1);
                call(
                    self.pointer_at(args, 0),
                    Operation::Writes(n),
                    Reply::Silent,
                )
            }
            Kind::SizedUpdate(op) => {
                let n = self.number_at(args, 1);
                call(
                    self.pointer_at(args, 0),
                    Operation::Updates(op, n),
                    Reply::Found,
                )
            }
            Kind::SizedCompare => self.compare(args, 0, self.number_at(args, 2)),
            Kind::GenericLoad => {
                let reply = Reply::Into(self.pointer_at(args, 2));
                call(self.pointer_at(args, 1), Operation::Reads, reply)
            }
            Kind::GenericStore => {
                let n = self.content_at(args, 2);
                call(
                    self.pointer_at(args, 1),
                    Operation::Writes(n),
                    Reply::Silent,
                )
            }
            Kind::GenericExchange => {
                let operation = Operation::Updates(RmwOp::Xchg, self.content_at(args, 2));
                let reply = Reply::Into(self.pointer_at(args, 3));
                call(self.pointer_at(args, 1), operation, reply)
            }
            Kind::GenericCompare => self.compare(args, 1, self.content_at(args, 3)),
            Kind::IsLockFree => None,
        }
    }

    /// A compare-exchange of the object at argument `k` with what the next one points to.
    fn compare(&self, args: &[Arg], k: usize, desired: u128) -> Option<Access>
        requires narrow { IsTrue (list_all is_narrow_arg args.now) }
        requires place { k < 2 }
        ensures { option_map access_in result ≡ Some (call self.now.program (state_of self.now) (pointer_at self.now.program (state_of self.now) args.now k) (Compares (content_at self.now.program (state_of self.now) args.now (k + 1)) desired) (EqualOrInto (pointer_at self.now.program (state_of self.now) args.now (k + 1)))) }
    {
        let operation = Operation::Compares(self.content_at(args, k + 1), desired);
        let reply = Reply::EqualOrInto(self.pointer_at(args, k + 1));
        call(self.pointer_at(args, k), operation, reply)
    }
}
