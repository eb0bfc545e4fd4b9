//! What an event of a processor does to it and to the globals.

ghost use Rattle.std.specs.Prelude.{◌≡◌, IsTrue, None, false, nat_eq, if◌then◌else◌};
ghost use Rattle.ax_source_run.specs.SourceInstructions.{access_of, deed, deed_of, done_by, fenced, is_out, out_number, result_in, traps, written};
ghost use Rattle.ax_source_run.specs.SourceEvent.{next_inst};
ghost use Rattle.ax_source_run.specs.SourceValues.{operand_of};
ghost use Rattle.ax_module.specs.declared.types.Ty.TheVariants.{I1};
ghost use Rattle.ax_source.specs.Accesses.{Does, HasRoom, Went, act_deed};
ghost use Rattle.ax_source.specs.ProcessorState.{Kept, Stands, state_of};
ghost use Rattle.ax_source.specs.Runnable.{is_narrow_arg, is_narrow_inst};
ghost use Rattle.std.specs.List.{list_all};
ghost use Rattle.ax_cells.specs.Shapes.{cells_of, global_shapes, shapes_of};

use crate::instructions::is_seq_cst;
use crate::processor::Processor;
use ax_cells::Arrays;
use ax_module::{Arg, Inst, Name, Operand, Ty};

/// Whether a call is one of `@out`.
fn is_out(name: &Name) -> bool
    ensures { result ≡ is_out name.now }
{
    name.as_bytes() == b"out".as_slice()
}

impl<'a> Processor<'a> {
    /// The number that a call of `@out` writes out.
    fn out_number(&self, args: &[Arg]) -> u128
        requires { IsTrue (list_all is_narrow_arg args.now) }
        ensures { result ≡ out_number self.now.program (state_of self.now) args.now }
    {
        match args.first() {
            Some(Arg::Value(ty, v)) => self.operand(*ty, *v),
            Some(Arg::Pointer(_)) | None => 0,
        }
    }

    /// Instruction `k`, which is an operation on an object or computes a result, and doesn't trap.
    fn work(&mut self, globals: &mut Arrays, k: usize, inst: &Inst)
        requires globals { shapes_of globals.old ≡ global_shapes self.old.program.source }
        requires stands { Stands self.old k }
        requires room { HasRoom self.old }
        requires narrow { IsTrue (is_narrow_inst inst.now) }
        requires inside { traps self.old.program (state_of self.old) inst.now ≡ false }
        ensures deed { Does (done_by self.old.program (state_of self.old) (access_of self.old.program (state_of self.old) inst.now) (result_in self.old.program (state_of self.old) k inst.now) k (cells_of globals.old)) self.new globals.new None }
        ensures went { Went self.old self.new }
        ensures shapes { shapes_of globals.new ≡ shapes_of globals.old }
    {
        match self.access(inst) {
            Some(access) => self.perform(globals, access, k),
            None => match self.result(k, inst) {
                Some(value) => self.get(k, value),
                None => self.go_on(k),
            },
        }
    }

    /// A fence, which lets the stores that wait reach their elements or does nothing.
    fn fence(&mut self, globals: &mut Arrays, k: usize, acts: bool)
        requires globals { shapes_of globals.old ≡ global_shapes self.old.program.source }
        requires stands { Stands self.old k }
        ensures deed { Does (fenced self.old.program (state_of self.old) acts (cells_of globals.old)) self.new globals.new None }
        ensures kept { Kept self.old self.new }
        ensures shapes { shapes_of globals.new ≡ shapes_of globals.old }
    {
        if acts {
            self.write_out(globals);
        }
        self.go_on(k);
    }

    /// Where a branch goes.
    fn branch(&self, condition: Operand, a: u32, b: u32) -> u32
        ensures { result ≡ (if nat_eq (operand_of I1 condition (state_of self.now).values) 0 then b else a) }
    {
        if self.operand(Ty::I1, condition) == 0 {
            b
        } else {
            a
        }
    }

    /// A call of `@out` writes a number out; a call of a routine is an operation on an object.
    fn call_function(
        &mut self,
        globals: &mut Arrays,
        k: usize,
        inst: &Inst,
        name: &Name,
        args: &[Arg],
    ) -> Option<u128>
        requires globals { shapes_of globals.old ≡ global_shapes self.old.program.source }
        requires stands { Stands self.old k }
        requires room { HasRoom self.old }
        requires narrow { IsTrue (is_narrow_inst inst.now) }
        requires inside { traps self.old.program (state_of self.old) inst.now ≡ false }
        requires arguments { IsTrue (list_all is_narrow_arg args.now) }
        ensures deed { Does (if is_out name.now then written self.old.program (state_of self.old) args.now (cells_of globals.old) else done_by self.old.program (state_of self.old) (access_of self.old.program (state_of self.old) inst.now) (result_in self.old.program (state_of self.old) k inst.now) k (cells_of globals.old)) self.new globals.new result }
        ensures went { Went self.old self.new }
        ensures shapes { shapes_of globals.new ≡ shapes_of globals.old }
    {
        if is_out(name) {
            let number = self.out_number(args);
            self.go_on(k);
            Some(number)
        } else {
            self.work(globals, k, inst);
            None
        }
    }

    /// Instruction `k`, which doesn't trap, and the number that it writes out.
    #[tactic(auto, unfolding(ax_source_run::specs::SourceInstructions::deed_of, crate::specs::Runnable::is_narrow_inst))]
    fn deed_of(&mut self, globals: &mut Arrays, k: usize, inst: &Inst) -> Option<u128>
        requires globals { shapes_of globals.old ≡ global_shapes self.old.program.source }
        requires stands { Stands self.old k }
        requires room { HasRoom self.old }
        requires narrow { IsTrue (is_narrow_inst inst.now) }
        requires inside { traps self.old.program (state_of self.old) inst.now ≡ false }
        ensures deed { Does (deed_of self.old.program (state_of self.old) k (cells_of globals.old) inst.now) self.new globals.new result }
        ensures went { Went self.old self.new }
        ensures shapes { shapes_of globals.new ≡ shapes_of globals.old }
    {
        match inst {
            Inst::Jump(b) => self.enter(*b),
            Inst::Branch(condition, a, b) => {
                let to = self.branch(*condition, *a, *b);
                self.enter(to);
            }
            Inst::RetVoid => self.end(),
            Inst::Fence(single, order) => {
                self.fence(globals, k, !*single && is_seq_cst(*order));
            }
            Inst::Call(_, name, args) => {
                return self.call_function(globals, k, inst, name, args.as_slice());
            }
            _ => self.work(globals, k, inst),
        }
        None
    }

    /// Instruction `k`, and the number that it writes out.
    fn deed(&mut self, globals: &mut Arrays, k: usize, inst: &Inst) -> Option<u128>
        requires globals { shapes_of globals.old ≡ global_shapes self.old.program.source }
        requires stands { Stands self.old k }
        requires room { HasRoom self.old }
        requires narrow { IsTrue (is_narrow_inst inst.now) }
        ensures deed { Does (deed self.old.program (state_of self.old) k (cells_of globals.old) inst.now) self.new globals.new result }
        ensures went { Went self.old self.new }
        ensures shapes { shapes_of globals.new ≡ shapes_of globals.old }
    {
        if self.traps(inst) {
            self.trap();
            None
        } else {
            self.deed_of(globals, k, inst)
        }
    }

    /// The instruction that comes next, and the number that it writes out.
    pub(crate) fn act(&mut self, globals: &mut Arrays) -> Option<u128>
        requires globals { shapes_of globals.old ≡ global_shapes self.old.program.source }
        requires room { HasRoom self.old }
        ensures deed { Does (act_deed self.old.program (state_of self.old) (next_inst self.old.program (state_of self.old)) (cells_of globals.old)) self.new globals.new result }
        ensures went { Went self.old self.new }
        ensures shapes { shapes_of globals.new ≡ shapes_of globals.old }
    {
        match self.next() {
            Some(inst) => {
                let k = self.number();
                self.deed(globals, k, inst)
            }
            None => None,
        }
    }
}
