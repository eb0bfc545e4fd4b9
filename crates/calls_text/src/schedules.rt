//! Schedules and their events.

use crate::modules::module_in;
use ax_rows::Fault;
use ax_sched::{Cause, Glance, Item, SchedFault, mix, read_schedule};
use ax_target::named;
use ax_words::Event;
use std::alloc::{AllocError, Global};

fn cause_word(cause: Cause) -> &'static str {
    match cause {
        Cause::Syntax => "syntax",
        Cause::ProcessorRange => "range",
        Cause::UnknownEntry => "entry",
        Cause::UnknownObject => "object",
        Cause::TooMany => "many",
    }
}

fn push_item(out: &mut String, item: Item) -> Result<(), AllocError> {
    match item {
        Item::Step { p, n } => write!(out, ", step {p} {n}"),
        Item::Drain { p, n } => write!(out, ", drain {p} {n}"),
        Item::Drop { p, n } => write!(out, ", drop {p} {n}"),
        Item::Link { p, n } => write!(out, ", link {p} {n}"),
        Item::Round { n } => write!(out, ", round {n}"),
        Item::Random { seed, n } => write!(out, ", random {seed} {n}"),
    }
}

/// The plan that the second text states for the module of the first, or its first bad line.
pub(crate) fn plan_of(alloc: Global, texts: &[Vec<u8>]) -> Result<String, Fault> {
    let [module, text] = texts else {
        return Err(Fault::Row);
    };
    let module = module_in(alloc, module.as_slice())?;
    if module.functions.as_slice().len() > 64 || text.len() > 1_000_000 {
        return Err(Fault::Row);
    }
    let plan = match read_schedule(alloc, text.as_slice(), &module) {
        Ok(plan) => plan,
        Err(SchedFault::Bad { line, cause }) => {
            let cause = cause_word(cause);
            return Ok(format!(in alloc; "{line} {cause}")?);
        }
        Err(SchedFault::Memory) => return Err(Fault::Memory),
    };
    let mut out = String::from_str(alloc, "entries")?;
    for entry in plan.entries.as_slice() {
        write!(out, " {entry}")?;
    }
    for item in plan.items.as_slice() {
        push_item(&mut out, *item)?;
    }
    Ok(out)
}

fn event_words(alloc: Global, event: Event) -> Result<String, AllocError> {
    match event {
        Event::Step(p) => format!(in alloc; "step {p}"),
        Event::Drain(p) => format!(in alloc; "drain {p}"),
        Event::Drop(p) => format!(in alloc; "drop {p}"),
    }
}

/// The directive of these words, a round or a random one.
fn item_in(words: &[&str]) -> Result<Item, Fault> {
    match words {
        ["round", n] => Ok(Item::Round {
            n: n.parse::<u64>()?,
        }),
        ["random", seed, n] => Ok(Item::Random {
            seed: seed.parse::<u64>()?,
            n: n.parse::<u64>()?,
        }),
        _ => Err(Fault::Row),
    }
}

/// Event K of a directive: `TARGET PROCESSORS K` and the directive's words.
pub(crate) fn event(alloc: Global, words: &[&str]) -> Result<String, Fault> {
    let [target, processors, k, directive @ ..] = words else {
        return Err(Fault::Row);
    };
    let target = named(target).ok_or(Fault::Row)?;
    let (processors, k) = (processors.parse::<u8>()?, k.parse::<u64>()?);
    let item = item_in(directive)?;
    if processors == 0 {
        return Err(Fault::Row);
    }
    let event = item
        .next_event(&Glance::unseen(k, processors), target)
        .ok_or(Fault::Row)?;
    Ok(event_words(alloc, event)?)
}

/// A number of the generator.
pub(crate) fn number(alloc: Global, seed: &str, n: &str) -> Result<String, Fault> {
    let number = mix(seed.parse::<u64>()?, n.parse::<u64>()?);
    Ok(format!(in alloc; "{number}")?)
}
