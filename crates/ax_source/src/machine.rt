//! The source machine: one source event at a time, without taking memory.

ghost use Rattle.std.specs.Prelude.{◌≡◌, ◌+◌, ◌++◌, ◌<◌, ◌≤◌, ◌^◌, length, map, vec_len, IfOk, IfSome};
ghost use Rattle.ax_source_run.specs.SourceEvent.{outputs_of, source_event};
ghost use Rattle.ax_source_run.specs.SourceRun.{source_start};
ghost use Rattle.ax_source.specs.MachineSteps.{HasElement, Stays, named_by, state_of};
ghost use Rattle.std.specs.Vec.{vec_capacity};
ghost use Rattle.ax_source.specs.Beginnings.{begun, room_for};
ghost use Rattle.ax_source.specs.Runnable.{IsRunnable};

use crate::laws::accepted_modules_are_runnable;
use crate::processor::Processor;
use ax_cells::{Arrays, initial_arrays};
use ax_check::Accepted;
use ax_target::buffered;
use ax_typed::numbers_are_typed;
use ax_words::{SourceEvent, SourceStatus};
use std::alloc::{AllocError, Global};
use std::marker::Model;

/// A run of a program: the numbers of its globals, its outputs, and its processors.
///
/// Contracts see it as its lists; `state_of` is the source state that it stands for. All memory is
/// taken at the start, for as many events as are asked for.
#[derive(Drop)]
pub struct Machine<'a> {
    program: &'a Accepted,
    room: u64,
    globals: Arrays,
    outputs: Vec<(u8, u64)>,
    processors: Vec<Processor<'a>>,
}

impl<'a> Model for Machine<'a> {
    ghost use Rattle.std.specs.Prelude.{◌+◌, ◌≤◌};
    ghost use Rattle.std.specs.Vec.{vec_len, vec_capacity};
    ghost use Rattle.ax_source.specs.MachineState.{MachineState, IsWhole, state_of};
    ghost use Rattle.ax_typed.specs.Typed.{IsTyped};

    ghost Value = { MachineState };

    ghost view = { λ m. record { program = m.program.now; room = m.room; globals = m.globals; outputs = m.outputs.items; processors = m.processors.items } };

    ghost invariant = { λ m. (vec_len m.outputs + m.room ≤ vec_capacity m.outputs)
        × IsWhole (record { program = m.program.now; room = m.room; globals = m.globals; outputs = m.outputs.items; processors = m.processors.items })
        × IsTyped m.program.now.source (state_of (record { program = m.program.now; room = m.room; globals = m.globals; outputs = m.outputs.items; processors = m.processors.items })) };
}

/// A processor for each entry, with memory for so many events.
fn processors<'a>(
    alloc: Global,
    program: &'a Accepted,
    entries: &[u32],
    events: u64,
) -> Result<Vec<Processor<'a>>, AllocError>
    requires { IsRunnable program.now }
    ensures { IfOk result (λ v. v.items ≡ map (begun program.entry.now (room_for program.entry.now events)) entries.now) }
{
    let room = if buffered(program.target()) {
        events
    } else {
        0
    };
    let mut processors = Vec::with_capacity(alloc, entries.len())?;
    for entry in entries {
        processors.push(Processor::begin(alloc, program, *entry, room)?)?;
    }
    Ok(processors)
}

/// The processor that an event names.
fn named_by(e: SourceEvent) -> u8
    ensures { result ≡ named_by e }
{
    match e {
        SourceEvent::Act(p) | SourceEvent::Look(p) | SourceEvent::Miss(p) | SourceEvent::Drain(p) =>
            p,
    }
}

/// Writes a number of 64 bits out, if there is one.
fn write_out(outputs: &mut Vec<(u8, u64)>, p: u8, number: Option<u128>)
    requires word { IfSome number (λ n. n < 2 ^ 64) }
    requires room { vec_len outputs.old < vec_capacity outputs.old }
    ensures items { outputs.new.items ≡ outputs.old.items ++ outputs_of p number }
    ensures len { vec_len outputs.new ≤ vec_len outputs.old + 1 }
    ensures capacity { vec_capacity outputs.new ≡ vec_capacity outputs.old }
{
    if let Some(number) = number {
        outputs.push_reserved((p, number as u64));
    }
}

impl<'a> Machine<'a> {
    /// A machine before its first event, with one processor for each entry, which is the position
    /// of the function that it begins. It takes the memory for so many events, and fails only where
    /// there is none.
    pub fn start(
        alloc: Global,
        program: &'a Accepted,
        entries: &[u32],
        events: u64,
    ) -> Result<Machine<'a>, AllocError>
        ensures state { IfOk result (λ m. state_of m ≡ source_start program.entry.now.source entries.now) }
        ensures room { IfOk result (λ m. m.room ≡ events) }
        ensures program { IfOk result (λ m. m.program ≡ program.entry.now) }
        ensures processors { IfOk result (λ m. length m.processors ≡ length entries.now) }
    {
        program.is_without_faults();
        accepted_modules_are_runnable();
        numbers_are_typed();
        let globals = initial_arrays(alloc, program.module().globals.as_slice())?;
        let outputs = Vec::with_capacity(alloc, events as usize)?;
        let processors = processors(alloc, program, entries, events)?;
        Ok(Machine {
            program,
            room: events,
            globals: Arrays::of(globals),
            outputs,
            processors,
        })
    }

    /// How many events still fit.
    pub fn room(&self) -> u64
        ensures { result ≡ self.now.room }
    {
        self.room
    }

    /// The numbers that processors wrote out, each with its processor, in order.
    pub fn outputs(&self) -> &[(u8, u64)]
        ensures { result.now ≡ (state_of self.now).outputs }
    {
        self.outputs.as_slice()
    }

    /// The number of an element of a global, which there is.
    pub fn object(&self, g: u32, i: u64) -> u128
        requires { HasElement self.now.program g i }
        ensures { result ≡ (state_of self.now).numbers g i }
    {
        self.globals.number(u128::from(g), u128::from(i))
    }

    /// Whether a processor still runs, by its position in the entries.
    pub fn status(&self, p: u8) -> SourceStatus
        requires { p < length self.now.processors }
        ensures { result ≡ ((state_of self.now).processors p).status }
    {
        self.processors[p as usize].status()
    }

    /// One event of a processor, which uses up the room of one. It takes no memory.
    pub fn step(&mut self, e: SourceEvent)
        requires room { 1 ≤ self.old.room }
        requires processor { named_by e < length self.old.processors }
        ensures state { state_of self.new ≡ source_event self.old.program e (state_of self.old) }
        ensures room { self.new.room + 1 ≡ self.old.room }
        ensures stays { Stays self.old self.new }
    {
        self.program.is_without_faults();
        numbers_are_typed();
        let p = named_by(e);
        let processor = &mut self.processors[p as usize];
        let output = processor.happen(&mut self.globals, e);
        write_out(&mut self.outputs, p, output);
        self.room -= 1;
    }
}
