//! Looks and misses of weak compare-exchanges.

ghost use Rattle.std.specs.Prelude.{◌≡◌, IsTrue};
ghost use Rattle.ax_source_run.specs.SourceEvent.{expected_by, next_inst, number_at, seen_by};
ghost use Rattle.ax_source_run.specs.SourcePointers.{is_element};
ghost use Rattle.ax_source.specs.MachineSteps.{look_of, miss_of};
ghost use Rattle.ax_source.specs.ProcessorState.{Kept, state_of};
ghost use Rattle.ax_source.specs.Runnable.{is_narrow_inst};
ghost use Rattle.ax_cells.specs.Shapes.{cells_of};
ghost use Rattle.ax_cells.specs.Values.{pointer_of};

use crate::processor::Processor;
use ax_cells::{Arrays, Object, Pointer, Value};
use ax_module::Inst;

impl<'a> Processor<'a> {
    /// The number of an element that is native.
    fn native_number(&self, globals: &Arrays, p: Pointer) -> Option<u128>
        requires { IsTrue (is_element self.now.program.source self.now.function (pointer_of p)) }
        ensures { result ≡ number_at self.now.program (pointer_of p) (cells_of globals.now) }
    {
        match p.object {
            Object::Shared(g) => {
                if self.is_native(g, p.index) {
                    Some(globals.number(u128::from(g), p.index))
                } else {
                    None
                }
            }
            Object::Private(_) => None,
        }
    }

    /// What a weak compare-exchange of a native object sees.
    #[tactic(auto, unfolding(ax_source_run::specs::SourceEvent::seen_by, crate::specs::Runnable::is_narrow_inst))]
    fn seen_by(&self, globals: &Arrays, inst: &Inst) -> Option<u128>
        requires { IsTrue (is_narrow_inst inst.now) }
        ensures { result ≡ seen_by self.now.program inst.now (state_of self.now) (cells_of globals.now) }
    {
        match inst {
            Inst::Cmpxchg(true, addr, _, _, _, _, _, _, _) => {
                if self.is_inside(*addr) {
                    self.native_number(globals, self.pointer(*addr))
                } else {
                    None
                }
            }
            _ => None,
        }
    }

    /// The number that a weak compare-exchange expects.
    #[tactic(auto, unfolding(ax_source_run::specs::SourceEvent::expected_by, crate::specs::Runnable::is_narrow_inst))]
    fn expected_by(&self, inst: &Inst) -> Option<u128>
        requires { IsTrue (is_narrow_inst inst.now) }
        ensures { result ≡ expected_by self.now.program inst.now (state_of self.now) }
    {
        match inst {
            Inst::Cmpxchg(true, _, ty, expected, _, _, _, _, _) => {
                Some(self.operand(*ty, *expected))
            }
            _ => None,
        }
    }

    /// Remembers what a weak compare-exchange sees.
    pub(crate) fn look(&mut self, globals: &Arrays)
        ensures state { state_of self.new ≡ look_of self.old.program (state_of self.old) (next_inst self.old.program (state_of self.old)) (cells_of globals.now) }
        ensures kept { Kept self.old self.new }
    {
        if let Some(inst) = self.next() {
            if let Some(number) = self.seen_by(globals, inst) {
                self.see(number);
            }
        }
    }

    /// A weak compare-exchange that saw the expected number fails.
    pub(crate) fn miss(&mut self)
        ensures state { state_of self.new ≡ miss_of self.old.program (state_of self.old) (next_inst self.old.program (state_of self.old)) }
        ensures kept { Kept self.old self.new }
    {
        if let Some(inst) = self.next() {
            if let (Some(expected), Some(seen)) = (self.expected_by(inst), self.seen()) {
                if expected == seen {
                    let k = self.number();
                    self.get(k, Value::Pair(expected, false));
                }
            }
        }
    }
}
