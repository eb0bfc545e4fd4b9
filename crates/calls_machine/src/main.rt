//! Rows of calls of machines and of what leads to them: targets and the mapping table, layouts,
//! checks, storage, numbers, the source machine, files and sinks.
#![tactic(auto)]

mod checks;
mod copies;
mod mapping;
mod numbers;
mod source;
mod spelling;
mod storage;
mod targets;

use crate::storage::Storage;
use ax_rows::{Calls, Fault, one, run};
use std::alloc::Global;
use std::io;

/// What lasts from one row to the next: the storage that the last row `store.new` made.
#[derive(Drop)]
struct Machines {
    storage: Option<Storage>,
}

impl Calls for Machines {
    fn answer(
        &mut self,
        alloc: Global,
        words: &[&str],
        texts: &[Vec<u8>],
    ) -> Result<String, Fault> {
        match words {
            ["target"] => targets::facts(alloc, one(texts)?),
            ["constants", name] => targets::constants_of(alloc, name),
            ["map", name, call @ ..] => mapping::aligned(alloc, name, call),
            ["unaligned", name, op] => mapping::unaligned(alloc, name, op),
            ["lock_index" | "class", ..] => checks::of_address(alloc, words),
            ["layout", name] => checks::layout_of(alloc, name, one(texts)?),
            ["check", name] => checks::checked(alloc, name, one(texts)?),
            ["source", name, entries @ ..] => source::played(alloc, name, entries, texts),
            ["copies", parts @ ..] => copies::copied(alloc, parts),
            ["store.new", parts @ ..] => {
                self.storage = Some(Storage::of(alloc, parts)?);
                Ok(String::from_str(alloc, "made")?)
            }
            [call, passed @ ..] => match (call.strip_prefix("store."), &mut self.storage) {
                (Some(call), Some(storage)) => storage.answer(alloc, call, passed),
                _ => numbers::answer(alloc, words),
            },
            [] => Err(Fault::Row),
        }
    }
}

fn main(rt: HostRuntime) -> io::Result<()> {
    run(&rt, &mut Machines { storage: None })
}
