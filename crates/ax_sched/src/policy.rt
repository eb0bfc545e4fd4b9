//! Policies: closures that choose the next event.

ghost use Rattle.std.specs.Prelude.{◌≡◌, ◌<◌, IsTrue};
ghost use Rattle.ax_sched.specs.Events.{event_processor};
ghost use Rattle.ax_sched.specs.Policy.{Chooses, has_event};

use crate::glance::Glance;
use ax_target::Target;
use ax_words::Event;

/// Chooses the events of so many processors on a target, one by one, by what it sees of the run.
#[derive(Drop)]
pub struct Policy<F: Fn(&Glance) -> Event> {
    f: F,
    processors: u8,
    target: Target,
}

impl<F: Fn(&Glance) -> Event> Policy<F> {
    /// The policy of a closure, which accepts every Glance with this number of processors and answers
    /// one of them with an event that the target has.
    pub fn new(f: F, processors: u8, target: Target) -> Policy<F>
        requires { Chooses F.pre F.post f processors target }
        ensures kept { Chooses F.pre F.post result.f result.processors result.target }
        ensures is { result ≡ record { f = f; processors = processors; target = target } }
    {
        Policy {
            f,
            processors,
            target,
        }
    }

    /// The closure's answer on a Glance with the policy's number of processors.
    pub fn next(&self, g: &Glance) -> Event
        requires kept { Chooses F.pre F.post self.now.f self.now.processors self.now.target }
        requires processors { g.now.processors ≡ self.now.processors }
        ensures answer { F.post self.now.f g.entry result }
        ensures processor { event_processor result < self.now.processors }
        ensures event { IsTrue (has_event self.now.target result) }
    {
        (self.f)(g)
    }
}
