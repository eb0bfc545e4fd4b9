//! The policies of directives that choose among all processors.

ghost use Rattle.std.specs.Prelude.{◌≡◌, ◌<◌, ◌≤◌, IsTrue};
ghost use Rattle.ax_target.specs.Targets.{is_buffered};
ghost use Rattle.ax_sched.specs.Mix.{mix};
ghost use Rattle.ax_sched.specs.Events.{event_processor, cycle_event, random_event};
ghost use Rattle.ax_sched.specs.Policy.{has_event};

use crate::generator::mix;
use crate::glance::Glance;
use ax_target::{Target, buffered, pairs};
use ax_words::Event;

/// The policy of `round`: each processor's Step in turn, and with buffers two Drains behind it.
pub fn round_event(g: &Glance, target: Target) -> Event
    requires { 1 ≤ g.now.processors }
    ensures is { result ≡ cycle_event (is_buffered target) g.now.processors g.now.number }
    ensures processor { event_processor result < g.now.processors }
    ensures event { IsTrue (has_event target result) }
{
    let processors = g.processors as u64;
    if !buffered(target) {
        return Event::Step((g.number % processors) as u8);
    }
    let turn = g.number % (3 * processors);
    let p = (turn / 3) as u8;
    if turn % 3 == 0 {
        Event::Step(p)
    } else {
        Event::Drain(p)
    }
}

/// The policy of `random`: what the generator draws. With buffers 4 of 16 events are Drains, with pairs
/// 1 of 16 is a Drop; the others are Steps.
pub fn random_event(g: &Glance, target: Target, seed: u64) -> Event
    requires { 1 ≤ g.now.processors }
    ensures is { result ≡ random_event target g.now.processors (mix seed g.now.number) }
    ensures processor { event_processor result < g.now.processors }
    ensures event { IsTrue (has_event target result) }
{
    let r = mix(seed, g.number);
    let p = (r % g.processors as u64) as u8;
    let k = (r >> 32) % 16;
    if buffered(target) && k < 4 {
        Event::Drain(p)
    } else if pairs(target) && k == 0 {
        Event::Drop(p)
    } else {
        Event::Step(p)
    }
}
