//! Runs of lowered programs.

ghost use Rattle.std.specs.Prelude.{◌≡◌, ◌<◌, ◌≤◌, IfOk, false, length, true};
ghost use Rattle.std.specs.List.{sum_by};
ghost use Rattle.ax_map.specs.Map.{lock_word};
ghost use Rattle.ax_layout.specs.Layout.{HasElement};
ghost use Rattle.ax_store.specs.Bytes.{number_at};
ghost use Rattle.ax_sched.specs.Plan.{IsPlan, times_of};
ghost use Rattle.ax_agree.specs.Agree.{native_entries};
ghost use Rattle.ax_agree.specs.Sound.{IsSound};
ghost use Rattle.ax_lowered.specs.Code.{IsInstrOf, image_of, kind_of};
ghost use Rattle.ax_run.specs.Objects.{object_in};
ghost use Rattle.ax_run.specs.Run.{HasRun, IsOf, Reads};

use crate::machine::Machine;
use crate::memory::lock_word;
use crate::objects::object_in;
use crate::start::start;
use ax_check::Accepted;
use ax_isa::Status;
use ax_lowered::{Code, Lowered};
use ax_sched::{Item, Plan};
use ax_words::{Event, SourceEvent};
use std::alloc::{AllocError, Global};
use std::marker::Model;

/// A run of a lowered program over the events of a plan: the processors and the storage of its
/// machine, its outputs, and the source events that the tags of its image give.
#[derive(Drop)]
pub struct Run<'a> {
    code: &'a Code,
    plan: &'a Plan,
    machine: Machine<'a>,
    ended: bool,
}

impl<'a> Model for Run<'a> {
    ghost use Rattle.ax_run.specs.RunState.{RunState};

    ghost Value = { RunState };

    ghost use Rattle.ax_run.specs.Run.{IsSoundRun};

    ghost view = { λ r. record { code = r.code.now; program = r.machine.program; plan = r.plan.now; machine = r.machine; ended = r.ended } };

    ghost invariant = { λ r. IsSoundRun (record { code = r.code.now; program = r.machine.program; plan = r.plan.now; machine = r.machine; ended = r.ended }) };
}

/// How many events directives make.
fn total(items: &[Item]) -> u64
    requires { sum_by times_of items.now ≤ 1000000 }
    ensures { result ≡ sum_by times_of items.now }
{
    items.iter().map(|item| item.times()).sum()
}

/// A run of the image of an accepted module before its first event. It takes all memory of the run,
/// and fails only where there is none.
///
/// The image is sound and has the module's functions, and the plan is one of the module.
pub fn prepare<'a>(
    alloc: Global,
    l: &'a Lowered,
    program: &'a Accepted,
    plan: &'a Plan,
) -> Result<Run<'a>, AllocError>
    requires sound { IsSound (kind_of l.now.code) (IsInstrOf l.now.code) l.now.names (image_of l.now.code) }
    requires functions { length l.now.names ≡ length program.now.source.functions }
    requires plan { IsPlan (length program.now.source.functions) plan.now }
    ensures of { IfOk result (IsOf l.entry.now.code program.entry.now plan.entry.now) }
    ensures begins { IfOk result (λ r. r.ended ≡ false) }
{
    let events = total(plan.items.as_slice());
    let machine = start(alloc, &l.code, program, plan.entries.as_slice(), events)?;
    Ok(Run {
        code: &l.code,
        plan,
        machine,
        ended: false,
    })
}

impl<'a> Run<'a> {
    /// Runs the plan to its end. It takes no memory, and a second time changes nothing.
    pub fn go(&mut self)
        ensures ran { HasRun self.new }
        ensures ended { self.new.ended ≡ true }
        ensures again { self.old.ended ≡ true → self.new ≡ self.old }
        ensures kept { IsOf self.old.code self.old.program self.old.plan self.new }
    {
        if self.ended {
            return;
        }
        let target = self.machine.target();
        self.machine
            .perform(self.code, self.plan.items.as_slice(), target);
        self.ended = true;
    }

    /// The numbers that processors put out, each with its processor, in order.
    pub fn outputs(&self) -> &[(u8, u64)]
        ensures { Reads self.now (λ m. m.outputs) result.now }
    {
        self.machine.outputs.as_slice()
    }

    /// The number of element i of global g, which there is, in memory. None exactly where the
    /// element is locked and its lock word in memory is not 0.
    pub fn object(&self, g: u32, i: u64) -> Option<u128>
        requires { HasElement self.now.program.layout g i }
        ensures { Reads self.now (λ m. object_in self.now.program m.noted.storage.mem g i) result }
    {
        object_in(self.machine.program, &self.machine.store, g, i)
    }

    /// What a processor is doing.
    pub fn status(&self, p: u8) -> Status
        requires { p < length self.now.machine.processors }
        ensures { Reads self.now (λ m. (m.processors p).status) result }
    {
        self.machine.cpus[p as usize].status
    }

    /// The place of a processor's next instruction, counted from 1; 0 for one that has ended.
    pub fn place(&self, p: u8) -> u32
        requires { p < length self.now.machine.processors }
        ensures { Reads self.now (λ m. (m.processors p).place) result }
    {
        self.machine.cpus[p as usize].place
    }

    /// How many Steps a processor made while it was running.
    pub fn retired(&self, p: u8) -> u64
        requires { p < length self.now.machine.processors }
        ensures { Reads self.now (λ m. m.retired p) result }
    {
        self.machine.retired(p)
    }

    /// How many processors there are.
    pub fn processors(&self) -> u8
        ensures number { result ≡ length self.now.plan.entries }
        ensures all { result ≡ length self.now.machine.processors }
    {
        self.machine.cpus.len() as u8
    }

    /// How many stores of a processor to native objects wait.
    pub fn pending(&self, p: u8) -> u64
        requires { p < length self.now.machine.processors }
        ensures { Reads self.now (λ m. length (native_entries self.now.program (m.noted.storage.waiting p))) result }
    {
        self.machine.pending(p)
    }

    /// The word of lock i, of 256.
    pub fn lock_word(&self, i: u32) -> u32
        requires { i < 256 }
        ensures { Reads self.now (λ m. number_at m.noted.storage.mem (lock_word i) 4) result }
    {
        lock_word(&self.machine.store, i)
    }

    /// The source events that explain the run.
    pub fn source_schedule(&self) -> &[SourceEvent]
        ensures { result.now ≡ self.now.machine.sources }
    {
        self.machine.sources.as_slice()
    }

    /// The events of the run.
    pub fn machine_schedule(&self) -> &[Event]
        ensures { result.now ≡ self.now.machine.events }
    {
        self.machine.events.as_slice()
    }
}
