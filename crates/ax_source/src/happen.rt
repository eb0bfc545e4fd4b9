//! What an event does to the processor that it names and to the globals.

ghost use Rattle.std.specs.Prelude.{◌≡◌};
ghost use Rattle.ax_source.specs.Accesses.{Does, HasRoom, Went};
ghost use Rattle.ax_source.specs.MachineSteps.{event_deed};
ghost use Rattle.ax_source.specs.ProcessorState.{state_of};
ghost use Rattle.ax_cells.specs.Shapes.{cells_of, global_shapes, shapes_of};

use crate::processor::Processor;
use ax_cells::Arrays;
use ax_words::SourceEvent;

impl<'a> Processor<'a> {
    /// An event that names this processor. The answer is the number that it writes out, if it does.
    pub(crate) fn happen(&mut self, globals: &mut Arrays, e: SourceEvent) -> Option<u128>
        requires globals { shapes_of globals.old ≡ global_shapes self.old.program.source }
        requires room { HasRoom self.old }
        ensures deed { Does (event_deed self.old.program e (state_of self.old) (cells_of globals.old)) self.new globals.new result }
        ensures went { Went self.old self.new }
        ensures shapes { shapes_of globals.new ≡ shapes_of globals.old }
    {
        match e {
            SourceEvent::Act(_) => self.act(globals),
            SourceEvent::Look(_) => {
                self.look(globals);
                None
            }
            SourceEvent::Miss(_) => {
                self.miss();
                None
            }
            SourceEvent::Drain(_) => {
                self.drain(globals);
                None
            }
        }
    }
}
