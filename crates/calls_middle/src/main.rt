//! Rows of runs of modules: the middle code that is selected for a module, run by the one-step middle
//! machine, beside the source machine.
#![tactic(auto)]

mod events;
mod halt;
mod middle;
mod numbers;
mod objects;
mod operations;
mod processor;
mod shared;
mod shown;

use ax_rows::{Calls, Fault, run};
use std::alloc::Global;
use std::io;

/// Nothing lasts from one row to the next.
#[derive(Drop)]
struct Runs;

impl Calls for Runs {
    fn answer(
        &mut self,
        alloc: Global,
        words: &[&str],
        texts: &[Vec<u8>],
    ) -> Result<String, Fault> {
        match words {
            ["run", name, entries @ ..] => shown::played(alloc, name, entries, texts),
            _ => Err(Fault::Row),
        }
    }
}

fn main(rt: HostRuntime) -> io::Result<()> {
    run(&rt, &mut Runs)
}
