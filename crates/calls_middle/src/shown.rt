//! What the two machines show of a row.

ghost use Rattle.std.specs.Prelude.{◌≡◌, length};
ghost use Rattle.ax_source.specs.MachineSteps.{Stays};

use crate::events::events;
use crate::halt::Halt;
use crate::middle::Middle;
use crate::objects::Objects;
use crate::processor::Setting;
use ax_check::{Accepted, CheckFault, check};
use ax_module::Module;
use ax_read::{ReadFault, read};
use ax_rows::Fault;
use ax_select::select;
use ax_source::Machine;
use ax_target::named;
use ax_words::{SourceEvent, SourceStatus};
use std::alloc::Global;

/// What a machine shows: outputs with their processors, the numbers of each global, and how each
/// processor stands.
#[derive(Drop)]
struct State {
    outputs: Vec<(u8, u64)>,
    numbers: Vec<Vec<u128>>,
    statuses: Vec<SourceStatus>,
}

/// The module of a text, which has no faults on the target.
fn accepted(alloc: Global, name: &str, text: &[u8]) -> Result<Accepted, Fault> {
    if text.len() > 4_194_304 {
        return Err(Fault::Row);
    }
    let target = named(name).ok_or(Fault::Row)?;
    let module = match read(alloc, text) {
        Ok(module) => module,
        Err(ReadFault::Memory) => return Err(Fault::Memory),
        Err(_) => return Err(Fault::Row),
    };
    match check(alloc, module, target) {
        Ok(accepted) => Ok(accepted),
        Err(CheckFault::Memory) => Err(Fault::Memory),
        Err(CheckFault::Refused(_)) => Err(Fault::Row),
    }
}

/// One event, of a machine with room and with the processor.
fn step(machine: &mut Machine, processors: usize, event: SourceEvent) -> Result<(), Fault>
    requires { processors ≡ length machine.old.processors }
    ensures { Stays machine.old machine.new }
{
    let (SourceEvent::Act(p)
    | SourceEvent::Look(p)
    | SourceEvent::Miss(p)
    | SourceEvent::Drain(p)) = event;
    if p as usize >= processors || machine.room() == 0 {
        return Err(Fault::Row);
    }
    machine.step(event);
    Ok(())
}

fn play(machine: &mut Machine, processors: usize, events: &[SourceEvent]) -> Result<(), Fault>
    requires { processors ≡ length machine.old.processors }
    ensures { Stays machine.old machine.new }
{
    for event in events {
        step(machine, processors, *event)?;
    }
    Ok(())
}

/// The numbers of a global's elements.
fn numbers_of(
    alloc: Global,
    machine: &Machine,
    accepted: &Accepted,
    g: usize,
) -> Result<Vec<u128>, Fault>
    requires { machine.now.program ≡ accepted.now }
{
    let globals = accepted.module().globals.as_slice();
    let global = globals.get(g).ok_or(Fault::Row)?;
    let (g, count) = (u32::try_from(g)?, global.count);
    let mut numbers = Vec::new(alloc);
    for i in 0..count {
        numbers.push(machine.object(g, i))?;
    }
    Ok(numbers)
}

/// The numbers of all elements.
fn objects_of(
    alloc: Global,
    machine: &Machine,
    accepted: &Accepted,
) -> Result<Vec<Vec<u128>>, Fault>
    requires { machine.now.program ≡ accepted.now }
{
    let mut objects = Vec::new(alloc);
    for g in 0..accepted.module().globals.as_slice().len() {
        objects.push(numbers_of(alloc, machine, accepted, g)?)?;
    }
    Ok(objects)
}

fn source_state(
    alloc: Global,
    machine: &Machine,
    accepted: &Accepted,
    processors: usize,
) -> Result<State, Fault>
    requires program { machine.now.program ≡ accepted.now }
    requires processors { processors ≡ length machine.now.processors }
{
    let mut statuses = Vec::new(alloc);
    for p in 0..processors.min(8) {
        statuses.push(machine.status(p as u8))?;
    }
    Ok(State {
        outputs: Vec::from_slice(alloc, machine.outputs())?,
        numbers: objects_of(alloc, machine, accepted)?,
        statuses,
    })
}

fn status_word(status: SourceStatus) -> &'static str {
    match status {
        SourceStatus::Running => "running",
        SourceStatus::Ended => "ended",
        SourceStatus::Trapped => "trapped",
    }
}

/// A state as a row writes it.
fn spelled(alloc: Global, module: &Module, state: &State) -> Result<String, Fault> {
    let mut out = String::from_str(alloc, "outputs")?;
    for (p, number) in &state.outputs {
        write!(out, " {p}:{number}")?;
    }
    let globals = module.globals.as_slice();
    for (global, numbers) in globals.iter().zip(state.numbers.as_slice().iter()) {
        let name = str::from_utf8(global.name.as_bytes()).map_err(|_| Fault::Row)?;
        write!(out, ", {name}")?;
        for number in numbers.as_slice() {
            write!(out, " {number}")?;
        }
    }
    out.push_str(",")?;
    for status in &state.statuses {
        let word = status_word(*status);
        write!(out, " {word}")?;
    }
    Ok(out)
}

/// The state of the middle machine after the events.
fn middle_state(
    setting: Setting,
    objects: Objects,
    entries: &[u32],
    events: &[SourceEvent],
) -> Result<State, Halt> {
    let mut machine = Middle::start(setting, objects, entries)?;
    for event in events {
        machine.step(*event)?;
    }
    let mut statuses = Vec::new(setting.alloc);
    for processor in &machine.processors {
        statuses.push(processor.status)?;
    }
    let Middle {
        outputs,
        objects,
        ..
    } = machine;
    Ok(State {
        outputs,
        numbers: objects.numbers,
        statuses,
    })
}

/// What both machines show, if it is the same.
fn compared(
    alloc: Global,
    module: &Module,
    source: &State,
    middle: Result<State, Halt>,
) -> Result<String, Fault> {
    let source = spelled(alloc, module, source)?;
    let middle = match middle {
        Ok(state) => spelled(alloc, module, &state)?,
        Err(Halt::Stuck) => String::from_str(alloc, "stuck")?,
        Err(Halt::Memory) => return Err(Fault::Memory),
    };
    if source.as_str() == middle.as_str() {
        Ok(middle)
    } else {
        let (source, middle) = (source.as_str(), middle.as_str());
        Ok(format!(in alloc; "middle code: {middle}; source: {source}")?)
    }
}

/// The source machine of the first text's module on a target, with these entries, and the middle
/// machine of the code that is selected for it, after the events of the second text.
pub(crate) fn played(
    alloc: Global,
    name: &str,
    entries: &[&str],
    texts: &[Vec<u8>],
) -> Result<String, Fault> {
    let [text, schedule] = texts else {
        return Err(Fault::Row);
    };
    let accepted = accepted(alloc, name, text.as_slice())?;
    let events = events(alloc, schedule.as_slice())?;
    let mut functions = Vec::new(alloc);
    for entry in entries {
        functions.push(entry.parse::<u32>()?)?;
    }
    let (entries, events) = (functions.as_slice(), events.as_slice());
    let room = events.len() as u64;
    let mut machine = Machine::start(alloc, &accepted, entries, room)?;
    let objects = Objects {
        numbers: objects_of(alloc, &machine, &accepted)?,
    };
    play(&mut machine, entries.len(), events)?;
    let source = source_state(alloc, &machine, &accepted, entries.len())?;
    let code = select(alloc, &accepted)?;
    let setting = Setting {
        alloc,
        target: accepted.target(),
        code: &code,
    };
    let middle = middle_state(setting, objects, entries, events);
    compared(alloc, accepted.module(), &source, middle)
}
