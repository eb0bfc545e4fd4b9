//! Source schedules as reports write them.

use ax_rows::{Fault, token};
use ax_words::SourceEvent;
use std::alloc::Global;

/// The event of a letter and a processor.
fn event(letter: u8, p: u8) -> Result<SourceEvent, Fault> {
    match letter {
        b'A' => Ok(SourceEvent::Act(p)),
        b'L' => Ok(SourceEvent::Look(p)),
        b'M' => Ok(SourceEvent::Miss(p)),
        b'D' => Ok(SourceEvent::Drain(p)),
        _ => Err(Fault::Row),
    }
}

/// The events of a schedule as a report writes it.
pub(crate) fn events(alloc: Global, schedule: &[u8]) -> Result<Vec<SourceEvent>, Fault> {
    let schedule = str::from_utf8(schedule).map_err(|_| Fault::Row)?;
    let mut events = Vec::new(alloc);
    for word in schedule.split_whitespace() {
        let (letter, p, times) = token(word)?;
        for _ in 0..times {
            events.push(event(letter, p)?)?;
        }
    }
    Ok(events)
}
