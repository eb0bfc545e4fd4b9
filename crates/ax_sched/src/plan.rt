//! What a schedule says.

ghost use Rattle.std.specs.Prelude.{◌≡◌, ◌≤◌, ◌<◌, false, MatchOption};
ghost use Rattle.ax_sched.specs.Events.{chosen, event_processor, is_met, next_event};
ghost use Rattle.ax_sched.specs.declared.glance.Glance.{Glance as Seen};
ghost use Rattle.ax_sched.specs.Plan.{IsWithin, times_of};

use crate::events::{random_event, round_event};
use crate::glance::Glance;
use crate::policy::Policy;
use ax_target::Target;
use ax_words::{Event, Items};

/// One directive, which makes `n` events: Steps, Drains or Drops of processor `p`, one after the
/// other; Steps of `p` until after one its reservation stands, `n` at most; Steps of all processors in
/// turn, from processor 0 on; or events that are drawn from the generator SplitMix64. On a machine
/// with buffers each Step of a `Round` is followed by two Drains of its processor, and these count.
#[derive(Clone, Copy)]
pub enum Item {
    Step { p: u8, n: u64 },
    Drain { p: u8, n: u64 },
    Drop { p: u8, n: u64 },
    Link { p: u8, n: u64 },
    Round { n: u64 },
    Random { seed: u64, n: u64 },
}

impl Item {
    /// How many events it makes at most.
    pub fn times(self) -> u64
        ensures { result ≡ times_of self }
    {
        match self {
            Item::Step { n, .. } | Item::Drain { n, .. } | Item::Drop { n, .. } => n,
            Item::Link { n, .. } | Item::Round { n } | Item::Random { n, .. } => n,
        }
    }

    /// Whether it waits for something that a Glance tells; all others choose by the event's number and
    /// the number of processors alone.
    pub fn waits(self) -> bool
        ensures never { result ≡ false → (g : Seen) → is_met self g ≡ false }
    {
        match self {
            Item::Link { .. } => true,
            _ => false,
        }
    }

    fn is_met(self, g: &Glance) -> bool
        ensures { result ≡ is_met self g.now }
    {
        match self {
            Item::Link { p, .. } => g.linked.get(p as usize).copied().unwrap_or(false),
            _ => false,
        }
    }

    fn chosen(self, g: &Glance, target: Target) -> Event
        requires { 1 ≤ g.now.processors }
        ensures is { result ≡ chosen target self g.now }
        ensures processor { IsWithin g.now.processors self → event_processor result < g.now.processors }
    {
        let processors = g.processors;
        match self {
            Item::Step { p, .. } | Item::Link { p, .. } => Event::Step(p),
            Item::Drain { p, .. } => Event::Drain(p),
            Item::Drop { p, .. } => Event::Drop(p),
            Item::Round { .. } => Policy::new(|g| round_event(g, target), processors, target).next(
                g,
            ),
            Item::Random { seed, .. } => {
                Policy::new(|g| random_event(g, target, seed), processors, target).next(g)
            }
        }
    }

    /// The event that it makes next on a target, by what it sees of the run: none where all its
    /// events are made, or where after one of them that is there for which it waits. Those of a
    /// `Round` and of a `Random` are the answers of their policies.
    pub fn next_event(self, g: &Glance, target: Target) -> Option<Event>
        requires { 1 ≤ g.now.processors }
        ensures is { result ≡ next_event target self g.now }
        ensures processor { IsWithin g.now.processors self → MatchOption result (Unit {0}) (λ e. event_processor e < g.now.processors) }
    {
        if g.number >= self.times() || g.number > 0 && self.is_met(g) {
            return None;
        }
        Some(self.chosen(g, target))
    }
}

/// The functions with which the processors begin, by position, and the directives in order.
///
/// There are 1 to 8 entries, one for each processor, and at most 1,000,000 events.
#[derive(Drop)]
pub struct Plan {
    pub entries: Items<u32>,
    pub items: Items<Item>,
}
