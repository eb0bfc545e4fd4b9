//! The phis at the head of a block, which are set together.

ghost use Rattle.std.specs.Prelude.{◌≡◌, ◌≤◌, IsTrue};
ghost use Rattle.std.specs.List.{list_all};
ghost use Rattle.ax_source_run.specs.SourceInstructions.{entered, incoming, phi_count};
ghost use Rattle.ax_source_run.specs.SourcePointers.{blocks_of};
ghost use Rattle.ax_source.specs.Phis.{phi_number_of, phi_numbers};
ghost use Rattle.ax_source.specs.ProcessorState.{Kept, state_of};
ghost use Rattle.ax_source.specs.Runnable.{is_narrow_inst};
ghost use Rattle.ax_cells.specs.Narrow.{is_narrow};

use crate::processor::{Processor, insts_of_block};
use arrayvec::ArrayVec;
use ax_module::{Inst, Operand, Ty};

impl<'a> Processor<'a> {
    /// The number that comes from the block in which it is: the first entry for it.
    fn incoming(&self, ty: Ty, entries: &[(Operand, u32)]) -> u128
        requires { IsTrue (is_narrow ty) }
        ensures { result ≡ incoming ty self.now.block entries.now (state_of self.now).values }
    {
        let from = self.block();
        for entry in entries {
            if entry.1 == from {
                return self.operand(ty, entry.0);
            }
        }
        0
    }

    /// The number that comes to a phi.
    #[tactic(auto, unfolding(ax_source_run::specs::SourceInstructions::is_phi, ax_source_run::specs::SourceInstructions::phi_number, crate::specs::Runnable::is_narrow_inst))]
    fn phi_number(&self, inst: &Inst) -> Option<u128>
        requires { IsTrue (is_narrow_inst inst.now) }
        ensures { result ≡ phi_number_of self.now.block (state_of self.now).values inst.now }
    {
        match inst {
            Inst::Phi(ty, entries) => Some(self.incoming(*ty, entries.as_slice())),
            _ => None,
        }
    }

    /// The numbers that come to the phis at the head of a block.
    #[tactic(auto, using(crate::proofs::SetTogether::numbers, crate::proofs::SetTogether::narrow))]
    fn phi_numbers(&self, insts: &[Inst]) -> ArrayVec<u128, 64>
        requires narrow { IsTrue (list_all is_narrow_inst insts.now) }
        requires few { phi_count insts.now ≤ 64 }
        ensures { result.items ≡ phi_numbers self.now.block (state_of self.now).values insts.now }
    {
        let mut numbers = ArrayVec::new();
        for inst in insts {
            let Some(number) = self.phi_number(inst) else {
                return numbers;
            };
            numbers.push(number);
        }
        numbers
    }

    /// Goes to a block, whose phis take the numbers that come to them from the block in which it is.
    pub(crate) fn enter(&mut self, b: u32)
        ensures state { state_of self.new ≡ entered (blocks_of self.old.program.source self.old.function) b (state_of self.old) }
        ensures kept { Kept self.old self.new }
    {
        let numbers = self.phi_numbers(insts_of_block(self.blocks(), b));
        self.move_to(b, numbers.as_slice());
    }
}
