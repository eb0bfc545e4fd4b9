//! The machine of a run: processors, storage, and what is written down of its events.

ghost use Rattle.std.specs.Prelude.{◌≡◌, ℕ, ◌<◌, ◌≤◌, ◌+◌, ◌++◌, ◌∷◌, [], All, false, is_some, length, option_to_list, slice_index_or};
ghost use Rattle.std.specs.List.{sum_by};
ghost use Rattle.std.specs.Vec.{vec_capacity, vec_len};
ghost use Rattle.ax_store.specs.Storage.{dropped};
ghost use Rattle.ax_store.specs.Store.{storage_of};
ghost use Rattle.ax_words.specs.declared.event.Event.TheVariants.{Step as Steps, Drain as Drains, Drop as Drops};
ghost use Rattle.ax_target.specs.declared.target.Target.{Target as Targets};
ghost use Rattle.ax_isa.specs.Past.{Past};
ghost use Rattle.ax_isa.specs.Run.{Machine as Run, flushing, outputs_of};
ghost use Rattle.ax_agree.specs.Agree.{native_entries};
ghost use Rattle.ax_agree.specs.Library.{image_setting};
ghost use Rattle.ax_lowered.specs.Code.{IsInstrOf, image_of, kind_of};
ghost use Rattle.ax_sched.specs.Events.{event_processor, item_events, next_event};
ghost use Rattle.ax_sched.specs.Plan.{IsWithin, times_of};
ghost use Rattle.ax_run.specs.Machine.{Advanced, GoesOn, Kept, MayRun, Performed, Readied, SentAll, SentFirst, Shows, Tells, cpu_in, noted_in, passed, processor_in, retired_in, run_of, seen_in, sent_at, stored};
ghost use Rattle.ax_run.specs.Plans.{glance_of, is_running};

use crate::objects::is_native_byte;
use crate::waiting::grown_by;
use ax_arm::Arm;
use ax_check::Accepted;
use ax_isa::{Cpu, Image, Isa, Status, flushes, step};
use ax_lowered::Code;
use ax_rv::Rv64;
use ax_sched::{Glance, Item};
use ax_store::Store;
use ax_target::Target;
use ax_words::{Event, SourceEvent};
use ax_x86::X86;
use std::marker::Model;

/// Processors and storage of a run of a program. All memory is taken at the start, for as many
/// events as there is room for.
#[derive(Drop)]
pub(crate) struct Machine<'a> {
    pub(crate) program: &'a Accepted,
    pub(crate) cpus: Vec<Cpu>,
    pub(crate) retired: [u64; 8],
    pub(crate) store: Store,
    pub(crate) natives: [u64; 8],
    pub(crate) outputs: Vec<(u8, u64)>,
    pub(crate) sources: Vec<SourceEvent>,
    pub(crate) events: Vec<Event>,
    pub(crate) room: u64,
}

impl<'a> Model for Machine<'a> {
    ghost use Rattle.std.specs.Prelude.{◌+◌, ◌*◌, ◌≤◌};
    ghost use Rattle.std.specs.List.{sum};
    ghost use Rattle.std.specs.Vec.{vec_len, vec_capacity};
    ghost use Rattle.ax_run.specs.MachineState.{MachineState, IsReady};

    ghost Value = { MachineState };

    ghost view = { λ m. record { program = m.program.now; processors = m.cpus.items; retired = m.retired; store = m.store; natives = m.natives; outputs = m.outputs.items; sources = m.sources.items; events = m.events.items; room = m.room } };

    ghost invariant = { λ m. (vec_len m.outputs + m.room ≤ vec_capacity m.outputs)
        × (vec_len m.sources + sum m.natives + 2 * m.room ≤ vec_capacity m.sources)
        × (vec_len m.events + m.room ≤ vec_capacity m.events)
        × IsReady (record { program = m.program.now; processors = m.cpus.items; retired = m.retired; store = m.store; natives = m.natives; outputs = m.outputs.items; sources = m.sources.items; events = m.events.items; room = m.room }) };
}

/// Writes down the number that processor p put out, if any.
fn push_output(outputs: &mut Vec<(u8, u64)>, p: u8, output: Option<u64>)
    requires { vec_len outputs.old < vec_capacity outputs.old }
    ensures items { outputs.new.items ≡ outputs.old.items ++ outputs_of p output }
    ensures length { vec_len outputs.new ≤ vec_len outputs.old + 1 }
    ensures capacity { vec_capacity outputs.new ≡ vec_capacity outputs.old }
{
    if let Some(number) = output {
        outputs.push_reserved((p, number));
    }
}

/// Writes down a source event, if any.
fn push_source(sources: &mut Vec<SourceEvent>, event: Option<SourceEvent>)
    requires { vec_len sources.old < vec_capacity sources.old }
    ensures items { sources.new.items ≡ sources.old.items ++ option_to_list event }
    ensures length { vec_len sources.new ≤ vec_len sources.old + 1 }
    ensures capacity { vec_capacity sources.new ≡ vec_capacity sources.old }
{
    if let Some(event) = event {
        sources.push_reserved(event);
    }
}

impl<'a> Machine<'a> {
    /// The target of the program.
    pub(crate) fn target(&self) -> Target
        ensures { result ≡ self.now.program.target }
    {
        self.program.target()
    }

    /// How many Steps a processor made while it was running.
    pub(crate) fn retired(&self, p: u8) -> u64
        requires { p < length self.now.processors }
        ensures { result ≡ retired_in self.now p }
    {
        self.retired[p as usize]
    }

    /// How many stores of a processor to native objects wait.
    pub(crate) fn pending(&self, p: u8) -> u64
        requires { p < length self.now.processors }
        ensures { result ≡ length (native_entries self.now.program ((storage_of self.now.store).waiting p)) }
    {
        self.natives[p as usize]
    }

    /// How many processors there are, 1 to 8.
    fn processors(&self) -> u8
        ensures count { result ≡ length self.now.processors }
        ensures some { 1 ≤ result }
        ensures few { result ≤ 8 }
    {
        self.cpus.len() as u8
    }

    fn is_running(&self, p: u8) -> bool
        requires { p < length self.now.processors }
        ensures { result ≡ is_running (cpu_in self.now p).status }
    {
        matches!(self.cpus[p as usize].status, Status::Running)
    }

    /// How many stores of a processor wait.
    fn waiting(&self, p: u8) -> usize
        requires { p < length self.now.processors }
        ensures { result ≡ length ((storage_of self.now.store).waiting p) }
    {
        self.store.pending(p)
    }

    /// Whether the next step of a processor first sends its stores that wait to memory.
    fn flushes<I: Isa>(&self, image: &Image<I::Instr>, p: u8) -> bool
        requires runs { MayRun I.kind I.valid image.now self.now }
        requires processor { p < length self.now.processors }
        ensures { (past : Past) → result ≡ flushing (image_setting I.kind image.now) p (processor_in self.now p) (noted_in self.now past) }
    {
        flushes::<I>(
            image.code.as_slice(),
            p,
            &self.cpus[p as usize],
            &self.store,
        )
    }

    /// The oldest store of processor p that waits, if any, goes to memory, and is written down where
    /// it is one to a native object.
    fn send_first(&mut self, p: u8)
        requires { p < length self.old.processors }
        ensures { SentFirst p self.old self.new }
    {
        let Some(entry) = self.store.drain(p) else {
            return;
        };
        if is_native_byte(self.program, entry.address) {
            self.natives[p as usize] -= 1;
            self.sources.push_reserved(SourceEvent::Drain(p));
        }
    }

    /// All stores of processor p that wait go to memory.
    fn send_all(&mut self, p: u8)
        requires { p < length self.old.processors }
        ensures { SentAll p self.old self.new }
    {
        while self.waiting(p) > 0 {
            self.send_first(p);
        }
    }

    /// Sends the stores of processor p that wait to memory where its next step does so first.
    fn make_ready<I: Isa>(&mut self, image: &Image<I::Instr>, p: u8)
        requires runs { MayRun I.kind I.valid image.now self.old }
        requires processor { p < length self.old.processors }
        ensures { Readied I.kind image.now p self.old self.new }
    {
        if self.waiting(p) == 0 {
            return;
        }
        if self.flushes::<I>(image, p) {
            self.send_all(p);
        }
    }

    /// A step of processor p, which runs and has nothing to send first, and of the storage, written
    /// down.
    fn advance<I: Isa>(&mut self, image: &Image<I::Instr>, p: u8)
        requires runs { MayRun I.kind I.valid image.now self.old }
        requires room { 1 ≤ self.old.room }
        requires processor { p < length self.old.processors }
        requires none { (past : Past) → sent_at I.kind image.now p self.old past ≡ [] }
        ensures { Advanced I.kind image.now p self.old self.new }
    {
        let (code, tags) = (image.code.as_slice(), image.tags.as_slice());
        let waited = self.store.pending(p);
        let c = &mut self.cpus[p as usize];
        let before = *c;
        let shown = step::<I>(code, tags, p, c, &mut self.store);
        let waits = self.store.pending(p);
        self.natives[p as usize] += grown_by::<I>(self.program, code, &before, waited, waits);
        self.retired[p as usize] += 1;
        push_output(&mut self.outputs, p, shown.outcome.output);
        push_source(&mut self.sources, shown.gives);
        self.events.push_reserved(Event::Step(p));
        self.room -= 1;
    }

    /// Writes down an event that changed no processor.
    fn pass(&mut self, e: Event)
        requires { 1 ≤ self.old.room }
        ensures { self.new ≡ passed e self.old }
    {
        self.events.push_reserved(e);
        self.room -= 1;
    }

    /// A Drop of the storage.
    fn drop_reservation(&mut self, p: u8)
        requires { p < length self.old.processors }
        ensures buffered { self.new.store.buffered ≡ self.old.store.buffered }
        ensures storage { storage_of self.new.store ≡ dropped p (storage_of self.old.store) }
        ensures rest { self.new ≡ stored self.new.store self.old }
    {
        self.store.drop_reservation(p);
    }

    /// One event: a Step of processor p, without taking memory.
    fn step<I: Isa>(&mut self, image: &Image<I::Instr>, p: u8)
        requires runs { MayRun I.kind I.valid image.now self.old }
        requires room { 1 ≤ self.old.room }
        requires processor { p < length self.old.processors }
        ensures tells { GoesOn I.kind image.now self.old self.new }
        ensures events { self.new.events ≡ self.old.events ++ Steps p ∷ [] }
        ensures room { self.new.room + 1 ≡ self.old.room }
        ensures kept { Kept self.old self.new }
    {
        if self.is_running(p) {
            self.make_ready::<I>(image, p);
            self.advance::<I>(image, p);
        } else {
            self.pass(Event::Step(p));
        }
    }

    /// One event: a Drain of processor p, without taking memory.
    fn drain<I: Isa>(&mut self, image: &Image<I::Instr>, p: u8)
        requires room { 1 ≤ self.old.room }
        requires processor { p < length self.old.processors }
        ensures tells { GoesOn I.kind image.now self.old self.new }
        ensures events { self.new.events ≡ self.old.events ++ Drains p ∷ [] }
        ensures room { self.new.room + 1 ≡ self.old.room }
        ensures kept { Kept self.old self.new }
    {
        self.send_first(p);
        self.pass(Event::Drain(p));
    }

    /// One event: a Drop of processor p, without taking memory.
    fn drop_link<I: Isa>(&mut self, image: &Image<I::Instr>, p: u8)
        requires room { 1 ≤ self.old.room }
        requires processor { p < length self.old.processors }
        ensures tells { GoesOn I.kind image.now self.old self.new }
        ensures events { self.new.events ≡ self.old.events ++ Drops p ∷ [] }
        ensures room { self.new.room + 1 ≡ self.old.room }
        ensures kept { Kept self.old self.new }
    {
        self.drop_reservation(p);
        self.pass(Event::Drop(p));
    }

    fn happen<I: Isa>(&mut self, image: &Image<I::Instr>, e: Event)
        requires runs { MayRun I.kind I.valid image.now self.old }
        requires room { 1 ≤ self.old.room }
        requires processor { event_processor e < length self.old.processors }
        ensures tells { GoesOn I.kind image.now self.old self.new }
        ensures events { self.new.events ≡ self.old.events ++ e ∷ [] }
        ensures room { self.new.room + 1 ≡ self.old.room }
        ensures kept { Kept self.old self.new }
    {
        match e {
            Event::Step(p) => self.step::<I>(image, p),
            Event::Drain(p) => self.drain::<I>(image, p),
            Event::Drop(p) => self.drop_link::<I>(image, p),
        }
    }
    /// Of each processor whether it is running.
    fn running(&self) -> [bool; 8]
        ensures { (p : ℕ) → p < length self.now.processors → slice_index_or result p false ≡ is_running (cpu_in self.now p).status }
    {
        let mut running = [false; 8];
        for p in 0..self.processors() {
            running[p as usize] = self.is_running(p);
        }
        running
    }

    fn is_linked(&self, p: u8) -> bool
        requires { p < length self.now.processors }
        ensures { result ≡ is_some ((storage_of self.now.store).linked p) }
    {
        self.store.linked(p)
    }

    /// Of each processor whether it has a reservation.
    fn linked(&self) -> [bool; 8]
        ensures { (p : ℕ) → p < length self.now.processors → slice_index_or result p false ≡ is_some ((storage_of self.now.store).linked p) }
    {
        let mut linked = [false; 8];
        for p in 0..self.processors() {
            linked[p as usize] = self.is_linked(p);
        }
        linked
    }

    /// What a directive sees before its event of this number. Where it waits for nothing it sees no
    /// more than the number.
    fn glance(&self, item: Item, number: u64) -> Glance
        requires { IsWithin (length self.now.processors) item }
        ensures processors { result.processors ≡ length self.now.processors }
        ensures some { 1 ≤ result.processors }
        ensures sees { (target : Targets) (m : Run) → Shows self.now m → next_event target item result ≡ next_event target item (glance_of (length self.now.processors) m number) }
    {
        let processors = self.processors();
        if !item.waits() {
            return Glance::unseen(number, processors);
        }
        Glance {
            number,
            processors,
            running: self.running(),
            linked: self.linked(),
            holding: [false; 8],
        }
    }

    /// The events of a directive on a target.
    fn repeat<I: Isa>(&mut self, image: &Image<I::Instr>, item: Item, target: Target)
        requires runs { MayRun I.kind I.valid image.now self.old }
        requires room { times_of item ≤ self.old.room }
        requires processor { IsWithin (length self.old.processors) item }
        ensures tells { GoesOn I.kind image.now self.old self.new }
        ensures events { (start : Run) → Tells I.kind image.now start self.old → self.new.events ≡ self.old.events ++ item_events (seen_in I.kind image.now self.old) target item (times_of item) 0 (run_of I.kind image.now self.old start) }
        ensures room { self.old.room ≤ self.new.room + times_of item }
        ensures kept { Kept self.old self.new }
    {
        for number in 0..item.times() {
            let Some(e) = item.next_event(&self.glance(item, number), target) else {
                return;
            };
            self.happen::<I>(image, e);
        }
    }

    /// The events of directives on a target.
    fn perform_image<I: Isa>(&mut self, image: &Image<I::Instr>, items: &[Item], target: Target)
        requires runs { MayRun I.kind I.valid image.now self.old }
        requires room { sum_by times_of items.now ≤ self.old.room }
        requires processors { All (IsWithin (length self.old.processors)) items.now }
        ensures { Performed I.kind image.now items.now target self.old self.new }
    {
        for item in items {
            self.repeat::<I>(image, *item, target);
        }
    }

    /// The events of directives on a target, by a code.
    pub(crate) fn perform(&mut self, code: &Code, items: &[Item], target: Target)
        requires runs { MayRun (kind_of code.now) (IsInstrOf code.now) (image_of code.now) self.old }
        requires room { sum_by times_of items.now ≤ self.old.room }
        requires processors { All (IsWithin (length self.old.processors)) items.now }
        ensures { Performed (kind_of code.now) (image_of code.now) items.now target self.old self.new }
    {
        match code {
            Code::X86(image) => self.perform_image::<X86>(image, items, target),
            Code::Arm(image) => self.perform_image::<Arm>(image, items, target),
            Code::Rv(image) => self.perform_image::<Rv64>(image, items, target),
        }
    }
}
