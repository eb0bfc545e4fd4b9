//! The source machine under source schedules.

ghost use Rattle.std.specs.Prelude.{◌≡◌, length};
ghost use Rattle.ax_source.specs.MachineSteps.{Stays};

use crate::checks::accepted;
use ax_check::Accepted;
use ax_rows::{Fault, token};
use ax_source::Machine;
use ax_words::{SourceEvent, SourceStatus};
use std::alloc::Global;

/// The event of a letter and a processor.
fn event(letter: u8, p: u8) -> Result<SourceEvent, Fault> {
    match letter {
        b'A' => Ok(SourceEvent::Act(p)),
        b'L' => Ok(SourceEvent::Look(p)),
        b'M' => Ok(SourceEvent::Miss(p)),
        b'D' => Ok(SourceEvent::Drain(p)),
        _ => Err(Fault::Row),
    }
}

/// The events of a schedule as a report writes it.
fn events(alloc: Global, schedule: &[u8]) -> Result<Vec<SourceEvent>, Fault> {
    let schedule = str::from_utf8(schedule).map_err(|_| Fault::Row)?;
    let mut events = Vec::new(alloc);
    for word in schedule.split_whitespace() {
        let (letter, p, times) = token(word)?;
        for _ in 0..times {
            events.push(event(letter, p)?)?;
        }
    }
    Ok(events)
}

/// One event, of a machine with room and with the processor.
fn step(machine: &mut Machine, processors: usize, event: SourceEvent) -> Result<(), Fault>
    requires { processors ≡ length machine.old.processors }
    ensures { Stays machine.old machine.new }
{
    let (SourceEvent::Act(p)
    | SourceEvent::Look(p)
    | SourceEvent::Miss(p)
    | SourceEvent::Drain(p)) = event;
    if p as usize >= processors || machine.room() == 0 {
        return Err(Fault::Row);
    }
    machine.step(event);
    Ok(())
}

fn play(machine: &mut Machine, processors: usize, events: &[SourceEvent]) -> Result<(), Fault>
    requires { processors ≡ length machine.old.processors }
    ensures { Stays machine.old machine.new }
{
    for event in events {
        step(machine, processors, *event)?;
    }
    Ok(())
}

/// Appends a global's name and the numbers of its elements.
fn push_numbers(
    out: &mut String,
    machine: &Machine,
    accepted: &Accepted,
    g: usize,
) -> Result<(), Fault>
    requires { machine.now.program ≡ accepted.now }
{
    let globals = accepted.module().globals.as_slice();
    let global = globals.get(g).ok_or(Fault::Row)?;
    let name = str::from_utf8(global.name.as_bytes()).map_err(|_| Fault::Row)?;
    write!(out, ", {name}")?;
    let (g, count) = (u32::try_from(g)?, global.count);
    for i in 0..count {
        let number = machine.object(g, i);
        write!(out, " {number}")?;
    }
    Ok(())
}

fn status_word(status: SourceStatus) -> &'static str {
    match status {
        SourceStatus::Running => "running",
        SourceStatus::Ended => "ended",
        SourceStatus::Trapped => "trapped",
    }
}

/// What a machine shows: outputs as processor and number, objects, and how each processor stands.
fn shown(
    alloc: Global,
    machine: &Machine,
    accepted: &Accepted,
    processors: usize,
) -> Result<String, Fault>
    requires program { machine.now.program ≡ accepted.now }
    requires processors { processors ≡ length machine.now.processors }
{
    let mut out = String::from_str(alloc, "outputs")?;
    for (p, number) in machine.outputs() {
        write!(out, " {p}:{number}")?;
    }
    for g in 0..accepted.module().globals.as_slice().len() {
        push_numbers(&mut out, machine, accepted, g)?;
    }
    out.push_str(",")?;
    for p in 0..processors.min(8) {
        let status = status_word(machine.status(p as u8));
        write!(out, " {status}")?;
    }
    write!(out, ", room {}", machine.room())?;
    Ok(out)
}

/// The machine of the first text's module on a target, with these entries, after the events of the
/// second text and with room for no more.
pub(crate) fn played(
    alloc: Global,
    name: &str,
    entries: &[&str],
    texts: &[Vec<u8>],
) -> Result<String, Fault> {
    let [text, schedule] = texts else {
        return Err(Fault::Row);
    };
    let accepted = accepted(alloc, name, text.as_slice())?;
    let events = events(alloc, schedule.as_slice())?;
    let mut numbers = Vec::new(alloc);
    for entry in entries {
        numbers.push(entry.parse::<u32>()?)?;
    }
    let processors = numbers.len();
    let room = events.len() as u64;
    let mut machine = Machine::start(alloc, &accepted, numbers.as_slice(), room)?;
    play(&mut machine, processors, events.as_slice())?;
    shown(alloc, &machine, &accepted, processors)
}
