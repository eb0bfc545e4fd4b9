//! Rows of calls of the machine's instructions: effects, instructions of three sets by their spellings,
//! report lines, and images as texts.
#![tactic(auto)]

mod arm;
mod effects;
mod machine;
mod printed;
mod reports;
mod rv;
mod sets;
mod spelled;
mod steps;
mod x86;

ghost use Rattle.std.specs.Prelude.{◌<◌, IfOk};

use crate::machine::Machine;
use crate::sets::{is_buffered, set_of, spellings};
use ax_rows::{Calls, Fault, one, run};
use std::alloc::Global;
use std::io;

/// What lasts from one row to the next: the machine that the last row `new` made.
#[derive(Drop)]
struct Instructions {
    machine: Option<Machine>,
}

/// One of two processors.
fn processor_in(word: &str) -> Result<u8, Fault>
    ensures { IfOk result (λ p. p < 2) }
{
    match word {
        "0" => Ok(0),
        "1" => Ok(1),
        _ => Err(Fault::Row),
    }
}

/// A row's text of characters.
fn spelling_in(texts: &[Vec<u8>]) -> Result<&str, Fault> {
    str::from_utf8(one(texts)?).map_err(|_| Fault::Row)
}

impl Instructions {
    /// `new SET WORD..`: an instruction by processor 0 of a machine of that set, which is made for it.
    fn begun(
        &mut self,
        alloc: Global,
        set: &str,
        words: &[&str],
        spelling: &str,
    ) -> Result<String, Fault> {
        let set = set_of(set)?;
        let mut machine = Machine::new(alloc, is_buffered(set))?;
        let told = machine.step(alloc, set, 0, words, spelling)?;
        self.machine = Some(machine);
        Ok(told)
    }

    /// `then SET P WORD..`: an instruction by processor P of the machine that was made last.
    fn gone_on(
        &mut self,
        alloc: Global,
        set: &str,
        p: &str,
        words: &[&str],
        spelling: &str,
    ) -> Result<String, Fault> {
        let (set, p) = (set_of(set)?, processor_in(p)?);
        match &mut self.machine {
            Some(machine) => machine.step(alloc, set, p, words, spelling),
            None => Err(Fault::Row),
        }
    }

    /// `event drain P` and `event drop P`, on the machine that was made last.
    fn happened(&mut self, alloc: Global, event: &str, p: &str) -> Result<String, Fault> {
        let p = processor_in(p)?;
        match &mut self.machine {
            Some(machine) => machine.happens(alloc, event, p),
            None => Err(Fault::Row),
        }
    }
}

impl Calls for Instructions {
    fn answer(
        &mut self,
        alloc: Global,
        words: &[&str],
        texts: &[Vec<u8>],
    ) -> Result<String, Fault> {
        match words {
            ["new", set, words @ ..] => self.begun(alloc, set, words, spelling_in(texts)?),
            ["then", set, p, words @ ..] => {
                self.gone_on(alloc, set, p, words, spelling_in(texts)?)
            }
            ["event", event, p] => self.happened(alloc, event, p),
            ["spellings", set] => Ok(spellings(alloc, set_of(set)?)?),
            ["step", place, effect @ ..] => steps::stepped(alloc, place, effect),
            ["printed", set] => printed::printed(alloc, set_of(set)?, texts),
            _ => reports::answer(alloc, words),
        }
    }
}

fn main(rt: HostRuntime) -> io::Result<()> {
    run(&rt, &mut Instructions { machine: None })
}
