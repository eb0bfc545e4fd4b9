//! A processor of the source machine.

ghost use Rattle.std.specs.Prelude.{◌≡◌, ◌<◌, ◌-◌, ◌++◌, ◌∷◌, [], drop, take, option_copied, slice_get, slice_index_or, Some, IsSome, IfSome, IfOk};
ghost use Rattle.ax_words.specs.declared.source.SourceStatus.TheVariants.{Ended, Trapped};
ghost use Rattle.ax_source_run.specs.SourceAccess.{element_set, gets, goes_on, newest, written_out};
ghost use Rattle.ax_source_run.specs.SourceEvent.{inst_at, next_inst, number_of_next};
ghost use Rattle.ax_source_run.specs.SourceInstructions.{entered, insts_of_block};
ghost use Rattle.ax_source_run.specs.SourcePointers.{blocks_of};
ghost use Rattle.ax_source.specs.Beginnings.{begun};
ghost use Rattle.ax_source.specs.Runnable.{IsRunnable};
ghost use Rattle.ax_cells.specs.Values.{value_of};
ghost use Rattle.ax_cells.specs.Shapes.{IsCell, alloca_shapes, cells_of, global_shapes, shape_in, shapes_of};
ghost use Rattle.ax_source.specs.Phis.{phi_numbers};
ghost use Rattle.ax_source.specs.ProcessorState.{IsSound, Kept, Stands, IsFound, insts_in, state_of};
ghost use Rattle.ax_cells.specs.Memories.{starts_from};

use ax_cells::{Arrays, Pending, Results, Value, Waiting, alloca_arrays, block_starts};
use ax_check::Accepted;
use ax_module::{Block, Inst, Module, Ty};
use ax_words::SourceStatus;
use std::alloc::{AllocError, Global};
use std::marker::Model;

/// A processor: the place of its next instruction, the results of its instructions, the contents of
/// its allocas, its status, what a look saw, and the stores that wait.
///
/// `starts` has the numbers of the blocks' first instructions.
#[derive(Drop)]
pub(crate) struct Processor<'a> {
    program: &'a Accepted,
    function: u32,
    starts: Vec<usize>,
    block: u32,
    index: usize,
    results: Results,
    allocas: Arrays,
    status: SourceStatus,
    seen: Option<u128>,
    pending: Pending,
}

impl<'a> Model for Processor<'a> {
    ghost use Rattle.std.specs.Prelude.{◌≡◌};
    ghost use Rattle.ax_source_run.specs.SourcePointers.{blocks_of};
    ghost use Rattle.ax_source.specs.ProcessorState.{ProcessorState, IsSound};
    ghost use Rattle.ax_cells.specs.Memories.{starts_from};

    ghost Value = { ProcessorState };

    ghost view = { λ c. record { program = c.program.now; function = c.function; block = c.block; index = c.index; results = c.results; arrays = c.allocas; status = c.status; seen = c.seen; waiting = c.pending } };

    ghost invariant = { λ c. (c.starts.items ≡ starts_from 0 (blocks_of c.program.now.source c.function))
        × IsSound (record { program = c.program.now; function = c.function; block = c.block; index = c.index; results = c.results; arrays = c.allocas; status = c.status; seen = c.seen; waiting = c.pending }) };
}

/// The blocks of a function; where there is no function, none.
fn blocks_of<'a>(source: &'a Module, function: u32) -> &'a [Block]
    ensures { result.now ≡ blocks_of source.entry.now function }
{
    match source.functions.as_slice().get(function as usize) {
        Some(function) => function.blocks.as_slice(),
        None => &[],
    }
}

fn insts_in<'a>(blocks: &'a [Block], b: u32) -> &'a [Inst]
    ensures { result.now ≡ insts_in (slice_get blocks.entry.now b) }
{
    match blocks.get(b as usize) {
        Some(block) => block.insts.as_slice(),
        None => &[],
    }
}

/// The instructions of a block; where there is no block, none.
#[tactic(auto, using(crate::proofs::Places::block_is))]
pub(crate) fn insts_of_block<'a>(blocks: &'a [Block], b: u32) -> &'a [Inst]
    ensures { result.now ≡ insts_of_block blocks.entry.now b }
{
    insts_in(blocks, b)
}

impl<'a> Processor<'a> {
    /// A processor at the first instruction of a function, with memory for its results, its allocas
    /// and so many stores that wait.
    pub(crate) fn begin(
        alloc: Global,
        program: &'a Accepted,
        function: u32,
        room: u64,
    ) -> Result<Processor<'a>, AllocError>
        requires { IsRunnable program.now }
        ensures { IfOk result (λ c. c ≡ begun program.entry.now room function) }
    {
        let source = program.module();
        let blocks = blocks_of(source, function);
        let starts = block_starts(alloc, blocks)?;
        let arrays = alloca_arrays(alloc, blocks)?;
        let results = Results::zeros(alloc, arrays.len())?;
        let pending = Pending::with_room(alloc, room, source.globals.as_slice())?;
        Ok(Processor {
            program,
            function,
            starts,
            block: 0,
            index: 0,
            results,
            allocas: Arrays::of(arrays),
            status: SourceStatus::Running,
            seen: None,
            pending,
        })
    }

    pub(crate) fn program(&self) -> &'a Accepted
        ensures program { result.now ≡ self.now.program }
        ensures sound { IsSound self.now }
    {
        self.program
    }

    pub(crate) fn status(&self) -> SourceStatus
        ensures { result ≡ self.now.status }
    {
        self.status
    }

    pub(crate) fn block(&self) -> u32
        ensures { result ≡ self.now.block }
    {
        self.block
    }

    pub(crate) fn seen(&self) -> Option<u128>
        ensures { result ≡ self.now.seen }
    {
        self.seen
    }

    /// The blocks of its function.
    pub(crate) fn blocks(&self) -> &'a [Block]
        ensures blocks { result.now ≡ blocks_of self.now.program.source self.now.function }
        ensures sound { IsSound self.now }
    {
        blocks_of(self.program.module(), self.function)
    }

    /// The instruction at its place.
    fn here(&self) -> Option<&'a Inst>
        ensures { option_copied result ≡ inst_at self.now.program (state_of self.now) }
    {
        insts_of_block(self.blocks(), self.block).get(self.index)
    }

    /// The instruction that comes next, of a running processor alone.
    pub(crate) fn next(&self) -> Option<&'a Inst>
        ensures inst { option_copied result ≡ next_inst self.now.program (state_of self.now) }
        ensures found { IfSome result (λ inst. IsFound self.now inst.now) }
    {
        match self.status {
            SourceStatus::Running => self.here(),
            SourceStatus::Ended | SourceStatus::Trapped => None,
        }
    }

    /// The number of the instruction at its place, where there is one.
    pub(crate) fn number(&self) -> usize
        requires { IsSome (inst_at self.now.program (state_of self.now)) }
        ensures value { result ≡ number_of_next self.now.program (state_of self.now) }
        ensures stands { Stands self.now result }
    {
        self.starts[self.block as usize] + self.index
    }

    /// The result of an instruction.
    pub(crate) fn value(&self, k: usize) -> Value
        ensures { value_of result ≡ (state_of self.now).values k }
    {
        self.results.value(k)
    }

    /// The type of an alloca's elements.
    pub(crate) fn elem(&self, r: u128) -> Ty
        ensures { result ≡ (shape_in (alloca_shapes self.now.program.source self.now.function) r).elem }
    {
        self.allocas.elem(r)
    }

    /// How many elements an alloca has.
    pub(crate) fn count(&self, r: u128) -> u128
        ensures { result ≡ (shape_in (alloca_shapes self.now.program.source self.now.function) r).count }
    {
        self.allocas.count(r)
    }

    /// The number of an element of an alloca.
    pub(crate) fn content(&self, r: u128, i: u128) -> u128
        ensures { result ≡ (state_of self.now).allocas r i }
    {
        self.allocas.number(r, i)
    }

    pub(crate) fn set_content(&mut self, r: u128, i: u128, number: u128)
        requires { IsCell (alloca_shapes self.old.program.source self.old.function) r i }
        ensures state { state_of self.new ≡ record (state_of self.old) { allocas = element_set r i number (state_of self.old).allocas } }
        ensures kept { Kept self.old self.new }
    {
        self.allocas.set(r, i, number);
    }

    /// Goes on to the next instruction.
    pub(crate) fn go_on(&mut self, k: usize)
        requires { Stands self.old k }
        ensures state { state_of self.new ≡ goes_on (state_of self.old) }
        ensures kept { Kept self.old self.new }
    {
        self.index += 1;
        self.seen = None;
    }

    /// The number of a block's first instruction; where there is no block, any number.
    fn start(&self, b: u32) -> usize
        ensures { result ≡ slice_index_or (starts_from 0 (blocks_of self.now.program.source self.now.function)) b 0 }
    {
        self.starts.get(b as usize).copied().unwrap_or(0)
    }

    /// Goes on behind the phis of a block, which take these numbers.
    #[tactic(auto, using(crate::proofs::Blocks::moves))]
    pub(crate) fn move_to(&mut self, b: u32, numbers: &[u128])
        requires { numbers.now ≡ phi_numbers self.old.block (state_of self.old).values (insts_of_block (blocks_of self.old.program.source self.old.function) b) }
        ensures state { state_of self.new ≡ entered (blocks_of self.old.program.source self.old.function) b (state_of self.old) }
        ensures kept { Kept self.old self.new }
    {
        let start = self.start(b);
        self.results.set_all(start, numbers);
        self.block = b;
        self.index = numbers.len();
        self.seen = None;
    }

    /// Takes the result of instruction `k`, at which it stands, and goes on.
    pub(crate) fn get(&mut self, k: usize, value: Value)
        requires { Stands self.old k }
        ensures state { state_of self.new ≡ gets k (value_of value) (state_of self.old) }
        ensures kept { Kept self.old self.new }
    {
        self.results.set(k, value);
        self.go_on(k);
    }

    /// Stops at a trap.
    pub(crate) fn trap(&mut self)
        ensures state { state_of self.new ≡ record (state_of self.old) { status = Trapped } }
        ensures kept { Kept self.old self.new }
    {
        self.status = SourceStatus::Trapped;
    }

    /// Returns from its function.
    pub(crate) fn end(&mut self)
        ensures state { state_of self.new ≡ record (state_of self.old) { status = Ended; seen = None } }
        ensures kept { Kept self.old self.new }
    {
        self.status = SourceStatus::Ended;
        self.seen = None;
    }

    /// Remembers the number of the object of a weak compare-exchange.
    pub(crate) fn see(&mut self, number: u128)
        ensures state { state_of self.new ≡ record (state_of self.old) { seen = Some number } }
        ensures kept { Kept self.old self.new }
    {
        self.seen = Some(number);
    }

    /// A store that waits.
    pub(crate) fn wait(&mut self, store: Waiting)
        requires room { 0 < self.old.waiting.room }
        requires cell { IsCell (global_shapes self.old.program.source) store.global store.element }
        ensures state { state_of self.new ≡ record (state_of self.old) { pending = self.old.waiting.stores ++ store ∷ [] } }
        ensures program { self.new.program ≡ self.old.program }
        ensures room { self.new.waiting.room ≡ self.old.waiting.room - 1 }
    {
        self.pending.push(store);
    }

    /// The newest number that waits for an element, else `number`.
    pub(crate) fn newest(&self, global: u32, element: u128, number: u128) -> u128
        ensures { result ≡ newest global element (state_of self.now).pending number }
    {
        self.pending.newest(global, element, number)
    }

    /// Lets all stores that wait reach their elements, in order.
    pub(crate) fn write_out(&mut self, globals: &mut Arrays)
        requires { shapes_of globals.old ≡ global_shapes self.old.program.source }
        ensures state { state_of self.new ≡ record (state_of self.old) { pending = [] } }
        ensures kept { Kept self.old self.new }
        ensures numbers { cells_of globals.new ≡ written_out (state_of self.old).pending (cells_of globals.old) }
        ensures shapes { shapes_of globals.new ≡ shapes_of globals.old }
    {
        self.pending.write_out(globals);
    }

    /// Lets the oldest store that waits reach its element.
    pub(crate) fn drain(&mut self, globals: &mut Arrays)
        requires { shapes_of globals.old ≡ global_shapes self.old.program.source }
        ensures state { state_of self.new ≡ record (state_of self.old) { pending = drop 1 (state_of self.old).pending } }
        ensures kept { Kept self.old self.new }
        ensures numbers { cells_of globals.new ≡ written_out (take 1 (state_of self.old).pending) (cells_of globals.old) }
        ensures shapes { shapes_of globals.new ≡ shapes_of globals.old }
    {
        self.pending.drain(globals);
    }
}
