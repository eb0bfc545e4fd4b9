//! Rows of calls that read texts and give texts: operations, tokens, lines, modules, schedules.
#![tactic(auto)]

mod bits;
mod modules;
mod orders;
mod schedules;
mod tokens;

use ax_rows::{Calls, Fault, one, run};
use std::alloc::Global;
use std::io;

#[derive(Drop)]
struct Texts;

impl Calls for Texts {
    fn answer(
        &mut self,
        alloc: Global,
        words: &[&str],
        texts: &[Vec<u8>],
    ) -> Result<String, Fault> {
        match words {
            ["bits" | "from_bytes" | "apply", ..] => bits::answer(alloc, words, texts),
            ["tokens"] => tokens::tokens_of(alloc, one(texts)?),
            ["texts"] => tokens::texts_of(alloc, one(texts)?),
            ["copies", times] => tokens::copies(alloc, times.parse::<u32>()?, one(texts)?),
            ["line"] => tokens::line(alloc, one(texts)?),
            ["lines"] => tokens::lines(alloc, one(texts)?),
            ["names"] => modules::shape_of(alloc, one(texts)?),
            ["read"] => modules::shape_of(alloc, one(texts)?),
            ["spell"] => modules::spelled(alloc, texts),
            ["type", word] => modules::type_of(alloc, word),
            ["schedule"] => schedules::plan_of(alloc, texts),
            ["event", words @ ..] => schedules::event(alloc, words),
            ["mix", seed, n] => schedules::number(alloc, seed, n),
            _ => orders::answer(alloc, words),
        }
    }
}

fn main(rt: HostRuntime) -> io::Result<()> {
    run(&rt, &mut Texts)
}
