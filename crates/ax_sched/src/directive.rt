//! The lines behind the first: directives.

ghost use Rattle.std.specs.Prelude.{◌≡◌, ◌+◌, ◌≤◌, ◌<◌, map, IfOk};
ghost use Rattle.ax_sched.specs.Plan.{times_of};
ghost use Rattle.ax_sched.specs.Reading.{verb_of, round_from, random_from, named_from, directive_from, item_of, item_from};

use crate::fault::Cause;
use crate::number::number;
use crate::plan::Item;

pub const MOST_EVENTS: u64 = 1_000_000;

#[derive(Clone, Copy)]
pub enum Verb {
    Step,
    Drain,
    Drop,
    Link,
    Round,
    Random { seed: u64 },
}

/// What a line says, before the processor is known to be there. A `Round` and a `Random`, which name
/// none, have processor 0.
#[derive(Clone, Copy)]
pub struct Directive {
    pub verb: Verb,
    pub p: u64,
    pub n: u64,
}

fn verb_of(word: &[u8]) -> Option<Verb>
    ensures { result ≡ verb_of word.now }
{
    match word {
        b"step" => Some(Verb::Step),
        b"drain" => Some(Verb::Drain),
        b"drop" => Some(Verb::Drop),
        b"link" => Some(Verb::Link),
        _ => None,
    }
}

fn round(word: &[u8], n: &[u8]) -> Option<Directive>
    ensures { result ≡ round_from word.now n.now }
{
    if word != b"round".as_slice() {
        return None;
    }
    Some(Directive {
        verb: Verb::Round,
        p: 0,
        n: number(n)?,
    })
}

fn random(seed: &[u8], n: &[u8]) -> Option<Directive>
    ensures { result ≡ random_from seed.now n.now }
{
    let seed = number(seed)?;
    let n = number(n)?;
    Some(Directive {
        verb: Verb::Random { seed },
        p: 0,
        n,
    })
}

fn named(word: &[u8], p: &[u8], n: &[u8]) -> Option<Directive>
    ensures { result ≡ named_from word.now p.now n.now }
{
    let verb = verb_of(word)?;
    let p = number(p)?;
    let n = number(n)?;
    Some(Directive { verb, p, n })
}

fn stated(words: &[&[u8]]) -> Option<Directive>
    ensures { result ≡ directive_from (map (λ w. w.now) words.now) }
{
    match words {
        [word, n] => round(word, n),
        [word, seed, n] if *word == b"random".as_slice() => random(seed, n),
        [word, p, n] => named(word, p, n),
        _ => None,
    }
}

fn item_of(directive: Directive) -> Item
    requires { directive.p < 8 }
    ensures is { result ≡ item_of directive }
    ensures times { times_of result ≡ directive.n }
{
    let p = directive.p as u8;
    let n = directive.n;
    match directive.verb {
        Verb::Step => Item::Step { p, n },
        Verb::Drain => Item::Drain { p, n },
        Verb::Drop => Item::Drop { p, n },
        Verb::Link => Item::Link { p, n },
        Verb::Round => Item::Round { n },
        Verb::Random { seed } => Item::Random { seed, n },
    }
}

/// The directive that a line's words state, where there are so many processors, and so many
/// events before it.
pub fn item_from(words: &[&[u8]], processors: usize, events: u64) -> Result<Item, Cause>
    requires processors { processors ≤ 8 }
    requires events { events ≤ 1000000 }
    ensures is { result ≡ item_from processors events (map (λ w. w.now) words.now) }
    ensures few { IfOk result (λ i. events + times_of i ≤ 1000000) }
{
    let directive = stated(words).ok_or(Cause::Syntax)?;
    if directive.p >= processors as u64 {
        return Err(Cause::ProcessorRange);
    }
    if directive.n > MOST_EVENTS - events {
        return Err(Cause::TooMany);
    }
    Ok(item_of(directive))
}
