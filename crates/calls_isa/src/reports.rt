//! Lines of reports.

use ax_isa::Status;
use ax_module::Name;
use ax_print::{
    push_end, push_head, push_lock, push_machine, push_object, push_outputs, push_processor,
    push_source,
};
use ax_rows::{Fault, token};
use ax_target::named;
use ax_words::{Event, SourceEvent};
use std::alloc::{AllocError, Global};

fn source_events(alloc: Global, words: &[&str]) -> Result<Vec<SourceEvent>, Fault> {
    let mut events = Vec::new(alloc);
    for word in words {
        let (letter, p, times) = token(word)?;
        if letter != b'A' {
            return Err(Fault::Row);
        }
        for _ in 0..times {
            events.push(SourceEvent::Act(p))?;
        }
    }
    Ok(events)
}

fn machine_event(letter: u8, p: u8) -> Result<Event, Fault> {
    match letter {
        b'S' => Ok(Event::Step(p)),
        b'D' => Ok(Event::Drain(p)),
        b'X' => Ok(Event::Drop(p)),
        _ => Err(Fault::Row),
    }
}

fn machine_events(alloc: Global, words: &[&str]) -> Result<Vec<Event>, Fault> {
    let mut events = Vec::new(alloc);
    for word in words {
        let (letter, p, times) = token(word)?;
        for _ in 0..times {
            events.push(machine_event(letter, p)?)?;
        }
    }
    Ok(events)
}

fn outputs(alloc: Global, words: &[&str]) -> Result<Vec<(u8, u64)>, Fault> {
    let mut outputs = Vec::new(alloc);
    for word in words {
        let (p, number) = word.split_once(':').ok_or(Fault::Row)?;
        outputs.push((p.parse::<u8>()?, number.parse::<u64>()?))?;
    }
    Ok(outputs)
}

/// The lines of a text, parted by ` / `.
fn on_one_line(alloc: Global, text: &str) -> Result<String, AllocError> {
    let mut out = String::new(alloc);
    for line in text.lines() {
        if !out.is_empty() {
            out.push_str(" / ")?;
        }
        out.push_str(line)?;
    }
    if out.is_empty() {
        out.push_str("nothing")?;
    }
    Ok(out)
}

/// The lines of a report that the words ask for. An object is one of `@x`, and a processor has ended.
pub(crate) fn answer(alloc: Global, words: &[&str]) -> Result<String, Fault> {
    let mut out = String::new(alloc);
    match words {
        ["head", target, processors, events] => {
            let target = named(target).ok_or(Fault::Row)?;
            let (processors, events) = (processors.parse::<u8>()?, events.parse::<u64>()?);
            push_head(&mut out, target, processors, events)?;
        }
        ["outputs", words @ ..] => push_outputs(&mut out, outputs(alloc, words)?.as_slice())?,
        ["object", i, number] => {
            let name = Name::of(Vec::from_slice(alloc, b"x")?);
            push_object(&mut out, &name, i.parse::<u64>()?, number.parse::<u128>()?)?;
        }
        ["processor", p, place, retired, pending] => push_processor(
            &mut out,
            p.parse::<u8>()?,
            Status::Ended,
            place.parse::<u32>()?,
            retired.parse::<u64>()?,
            pending.parse::<u64>()?,
        )?,
        ["lock", i, word] => push_lock(&mut out, i.parse::<u32>()?, word.parse::<u32>()?)?,
        ["source", words @ ..] => push_source(&mut out, source_events(alloc, words)?.as_slice())?,
        ["machine", words @ ..] => {
            push_machine(&mut out, machine_events(alloc, words)?.as_slice())?;
        }
        ["end"] => push_end(&mut out)?,
        _ => return Err(Fault::Row),
    }
    Ok(on_one_line(alloc, out.as_str())?)
}
