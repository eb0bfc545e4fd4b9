//! Operations on objects.

ghost use Rattle.std.specs.Prelude.{◌≡◌, ◌≤◌, IsTrue, None};
ghost use Rattle.ax_source_run.specs.SourceAccess.{is_expected, is_native_class, is_native_element, object_done, acts_on, waits, set_if, stored_by, replied, accessed, written_into, written_out};
ghost use Rattle.ax_layout.specs.Classes.{class_of};
ghost use Rattle.ax_source_run.specs.SourcePointers.{elements_of, is_element};
ghost use Rattle.ax_source_run.specs.SourceState.{Shared, Private};
ghost use Rattle.ax_source_run.specs.SourceValues.{type_bits};
ghost use Rattle.ax_target.specs.Targets.{is_buffered};
ghost use Rattle.ax_source.specs.Accesses.{Did, Does, HasRoom, IsAnswerable, IsPerformable, Went, access_in, operation_of, reply_of};
ghost use Rattle.ax_source.specs.ProcessorState.{Kept, Stands, state_of};
ghost use Rattle.ax_cells.specs.Shapes.{IsCell, alloca_shapes, cells_of, global_shapes, shapes_of};
ghost use Rattle.ax_cells.specs.Values.{pointer_of};

use crate::processor::Processor;
use ax_cells::{Arrays, Object, Pointer, Value, Waiting};
use ax_target::{Target, buffered, max_native};
use ax_values::update;
use ax_words::RmwOp;

/// What an operation does to the number that it finds. A compare-exchange has the expected and the
/// desired number.
#[derive(Clone, Copy)]
pub(crate) enum Operation {
    Reads,
    Writes(u128),
    Updates(RmwOp, u128),
    Compares(u128, u128),
}

/// What becomes of the number that an operation finds: nothing, the result, the pair of the number
/// and whether it was the expected one, the number in an argument, or whether it was the expected
/// one, and where it was not the number in an argument.
#[derive(Clone, Copy)]
pub(crate) enum Reply {
    Silent,
    Found,
    FoundEqual,
    Into(Pointer),
    EqualOrInto(Pointer),
}

/// An operation on an element, and whether it may wait as a store.
#[derive(Clone, Copy)]
pub(crate) struct Access {
    pub pointer: Pointer,
    pub operation: Operation,
    pub may_wait: bool,
    pub reply: Reply,
}

impl Operation {
    /// What it stores where it found a number of so many bits.
    fn stored(self, bits: u32, old: u128) -> Option<u128>
        requires { bits ≤ 128 }
        ensures { result ≡ stored_by (operation_of self) bits old }
    {
        match self {
            Operation::Reads => None,
            Operation::Writes(n) => Some(n),
            Operation::Updates(op, v) => Some(update(bits, op, old, v)),
            Operation::Compares(expected, desired) => {
                if old == expected { Some(desired) } else { None }
            }
        }
    }

    /// Whether the number that it found is the expected one, if it expects one.
    fn is_expected(self, old: u128) -> bool
        ensures { result ≡ is_expected (operation_of self) old }
    {
        match self {
            Operation::Compares(expected, _) => old == expected,
            Operation::Reads | Operation::Writes(_) | Operation::Updates(..) => true,
        }
    }
}

/// Whether an object of so many bytes at an address is native.
fn is_class_native(address: u64, bytes: u64, t: Target) -> bool
    requires { 1 ≤ bytes }
    ensures { result ≡ is_native_class (class_of address bytes t) }
{
    bytes <= max_native(t) as u64 && address % bytes == 0
}

impl<'a> Processor<'a> {
    /// Whether an element of a global, which there is, is native.
    pub(crate) fn is_native(&self, g: u32, i: u128) -> bool
        requires { IsCell (global_shapes self.now.program.source) g i }
        ensures { result ≡ is_native_element self.now.program g i }
    {
        let program = self.program();
        let bytes = self.elem_of(Object::Shared(g)).bytes();
        let address = program.layout().address(g, i as u64);
        is_class_native(address, bytes, program.target())
    }

    /// A store of a native element, which waits where the target has buffers.
    fn store(&mut self, globals: &mut Arrays, g: u32, i: u128, n: u128)
        requires globals { shapes_of globals.old ≡ global_shapes self.old.program.source }
        requires cell { IsCell (global_shapes self.old.program.source) g i }
        requires room { HasRoom self.old }
        ensures done { Did (waits (is_buffered self.old.program.target) g i n (state_of self.old) (cells_of globals.old)) 0 self.new globals.new }
        ensures went { Went self.old self.new }
        ensures shapes { shapes_of globals.new ≡ shapes_of globals.old }
    {
        if buffered(self.program().target()) {
            self.wait(Waiting::new(g, i, n));
        } else {
            globals.set(u128::from(g), i, n);
        }
    }

    /// An operation on an element of a global after the stores that wait.
    fn act_on(&mut self, globals: &mut Arrays, g: u32, i: u128, operation: Operation) -> u128
        requires globals { shapes_of globals.old ≡ global_shapes self.old.program.source }
        requires cell { IsCell (global_shapes self.old.program.source) g i }
        ensures done { Did (acts_on (type_bits (elements_of self.old.program.source self.old.function (Shared g)).elem) g i (operation_of operation) (state_of self.old) (written_out (state_of self.old).pending (cells_of globals.old))) result self.new globals.new }
        ensures kept { Kept self.old self.new }
        ensures shapes { shapes_of globals.new ≡ shapes_of globals.old }
    {
        let bits = self.bits_of(Object::Shared(g));
        self.write_out(globals);
        let found = globals.number(u128::from(g), i);
        if let Some(n) = operation.stored(bits, found) {
            globals.set(u128::from(g), i, n);
        }
        found
    }

    /// An operation on an element of a global, and the number that it found.
    fn operate_shared(
        &mut self,
        globals: &mut Arrays,
        g: u32,
        i: u128,
        operation: Operation,
        may_wait: bool,
    ) -> u128
        requires globals { shapes_of globals.old ≡ global_shapes self.old.program.source }
        requires cell { IsCell (global_shapes self.old.program.source) g i }
        requires room { HasRoom self.old }
        ensures done { Did (object_done self.old.program (Shared g) i (operation_of operation) may_wait (state_of self.old) (cells_of globals.old)) result self.new globals.new }
        ensures went { Went self.old self.new }
        ensures shapes { shapes_of globals.new ≡ shapes_of globals.old }
    {
        let native = self.is_native(g, i);
        match operation {
            Operation::Writes(n) if native && may_wait => {
                self.store(globals, g, i, n);
                0
            }
            Operation::Reads if native => { self.newest(g, i, globals.number(u128::from(g), i)) }
            _ => self.act_on(globals, g, i, operation),
        }
    }

    /// An operation on an element of an alloca, and the number that it found.
    fn operate_private(&mut self, r: u128, i: u128, operation: Operation) -> u128
        requires { IsCell (alloca_shapes self.old.program.source self.old.function) r i }
        ensures found { result ≡ (state_of self.old).allocas r i }
        ensures state { state_of self.new ≡ record (state_of self.old) { allocas = set_if (stored_by (operation_of operation) (type_bits (elements_of self.old.program.source self.old.function (Private r)).elem) ((state_of self.old).allocas r i)) r i (state_of self.old).allocas } }
        ensures kept { Kept self.old self.new }
    {
        let bits = self.bits_of(Object::Private(r));
        let found = self.content(r, i);
        if let Some(n) = operation.stored(bits, found) {
            self.set_content(r, i, n);
        }
        found
    }

    /// An operation on an element, which there is, and the number that it found.
    fn operate(
        &mut self,
        globals: &mut Arrays,
        p: Pointer,
        operation: Operation,
        may_wait: bool,
    ) -> u128
        requires globals { shapes_of globals.old ≡ global_shapes self.old.program.source }
        requires element { IsTrue (is_element self.old.program.source self.old.function (pointer_of p)) }
        requires room { HasRoom self.old }
        ensures done { Did (object_done self.old.program (pointer_of p).object p.index (operation_of operation) may_wait (state_of self.old) (cells_of globals.old)) result self.new globals.new }
        ensures went { Went self.old self.new }
        ensures shapes { shapes_of globals.new ≡ shapes_of globals.old }
    {
        match p.object {
            Object::Shared(g) => self.operate_shared(globals, g, p.index, operation, may_wait),
            Object::Private(r) => self.operate_private(r, p.index, operation),
        }
    }

    /// Writes a number into an element of an alloca. A global's is left.
    fn write_into(&mut self, p: Pointer, number: u128)
        requires { IsTrue (is_element self.old.program.source self.old.function (pointer_of p)) }
        ensures state { state_of self.new ≡ written_into (pointer_of p).object p.index number (state_of self.old) }
        ensures kept { Kept self.old self.new }
    {
        match p.object {
            Object::Private(r) => self.set_content(r, p.index, number),
            Object::Shared(_) => {}
        }
    }

    /// Goes on behind instruction `k`, whose operation found a number.
    fn answer(&mut self, reply: Reply, k: usize, equal: bool, found: u128)
        requires stands { Stands self.old k }
        requires arguments { IsAnswerable self.old (reply_of reply) }
        ensures state { state_of self.new ≡ replied (reply_of reply) k equal found (state_of self.old) }
        ensures kept { Kept self.old self.new }
    {
        match reply {
            Reply::Silent => self.go_on(k),
            Reply::Found => self.get(k, Value::Number(found)),
            Reply::FoundEqual => self.get(k, Value::Pair(found, equal)),
            Reply::Into(p) => {
                self.write_into(p, found);
                self.go_on(k);
            }
            Reply::EqualOrInto(_) if equal => self.get(k, Value::Number(1)),
            Reply::EqualOrInto(p) => {
                self.write_into(p, found);
                self.get(k, Value::Number(0));
            }
        }
    }

    /// The operation of instruction `k`, and what becomes of what it found.
    pub(crate) fn perform(&mut self, globals: &mut Arrays, access: Access, k: usize)
        requires globals { shapes_of globals.old ≡ global_shapes self.old.program.source }
        requires stands { Stands self.old k }
        requires room { HasRoom self.old }
        requires elements { IsPerformable self.old (access_in access) }
        ensures deed { Does (accessed self.old.program (access_in access) k (state_of self.old) (cells_of globals.old)) self.new globals.new None }
        ensures went { Went self.old self.new }
        ensures shapes { shapes_of globals.new ≡ shapes_of globals.old }
    {
        let found = self.operate(globals, access.pointer, access.operation, access.may_wait);
        let equal = access.operation.is_expected(found);
        self.answer(access.reply, k, equal, found);
    }
}
