//! The first line of a schedule: `processors` and the names of their functions.

ghost use Rattle.std.specs.Prelude.{◌≡◌, ◌==◌, ◌^◌, ◌<◌, ◌≤◌, ◌&&◌, [], length, map, nat_eq, codes, IfOk, IfSome, position};
ghost use Rattle.std.specs.List.{list_all};
ghost use Rattle.std.specs.Cmp.Lexicographic.{pointwise};
ghost use Rattle.ax_lex.specs.declared.token.TokenKind.TheVariants.{Global as Globals};
ghost use Rattle.ax_lex.specs.Names.{name_in};
ghost use Rattle.ax_lex.specs.Tokens.{is_token};
ghost use Rattle.ax_sched.specs.Reading.{ReadsAs, entry_of, entries_from, is_first_line, first_of, counted_entries};

use crate::fault::{Cause, ScheduleStop};
use ax_lex::global_name;
use ax_module::Function;
use std::alloc::Global;

const MOST_PROCESSORS: usize = 8;

fn is_global(word: &[u8]) -> bool
    ensures { result ≡ is_token Globals word.now }
{
    global_name(word).is_some()
}

fn are_globals(words: &[&[u8]]) -> bool
    ensures { result ≡ list_all (is_token Globals) (map (λ w. w.now) words.now) }
{
    words.iter().all(|word| is_global(word))
}

/// Whether the line is `processors` and names.
fn is_first_line(words: &[&[u8]]) -> bool
    ensures { result ≡ is_first_line (map (λ w. w.now) words.now) }
{
    match words {
        [] => false,
        [first, names @ ..] => *first == b"processors".as_slice() && are_globals(names),
    }
}

fn place_of(name: &[u8], functions: &[Function]) -> Option<usize>
    ensures is { result ≡ position (λ f. pointwise nat_eq f name.now) (map (λ f. f.name) functions.now) }
    ensures within { IfSome result (λ i. i < length functions.now) }
{
    functions.iter().position(|f| f.name.as_bytes() == name)
}

/// The function that a name's token names.
fn entry_of(word: &[u8], functions: &[Function]) -> Option<u32>
    requires { length functions.now < 2 ^ 32 }
    ensures { result ≡ entry_of (map (λ f. f.name) functions.now) word.now }
{
    let name = global_name(word)?;
    let place = place_of(name, functions)?;
    Some(place as u32)
}

fn entries(alloc: Global, names: &[&[u8]], functions: &[Function]) -> Result<Vec<u32>, ScheduleStop>
    requires { length functions.now < 2 ^ 32 }
    ensures read { ReadsAs (λ v. v.items) result (entries_from (map (λ f. f.name) functions.now) [] (map (λ w. w.now) names.now)) }
    ensures count { IfOk result (λ v. length v.items ≡ length names.now) }
{
    let mut entries = Vec::new(alloc);
    for name in names {
        let Some(entry) = entry_of(name, functions) else {
            return Err(ScheduleStop::Bad(Cause::UnknownEntry));
        };
        entries.push(entry)?;
    }
    Ok(entries)
}

fn counted_entries(
    alloc: Global,
    names: &[&[u8]],
    functions: &[Function],
) -> Result<Vec<u32>, ScheduleStop>
    requires { length functions.now < 2 ^ 32 }
    ensures read { ReadsAs (λ v. v.items) result (counted_entries (map (λ f. f.name) functions.now) (map (λ w. w.now) names.now)) }
    ensures few { IfOk result (λ v. (1 ≤ length v.items) × (length v.items ≤ 8)) }
{
    if names.is_empty() || names.len() > MOST_PROCESSORS {
        return Err(ScheduleStop::Bad(Cause::ProcessorRange));
    }
    entries(alloc, names, functions)
}

/// The functions that the first line names, by position.
pub fn first_of(
    alloc: Global,
    words: &[&[u8]],
    functions: &[Function],
) -> Result<Vec<u32>, ScheduleStop>
    requires { length functions.now < 2 ^ 32 }
    ensures read { ReadsAs (λ v. v.items) result (first_of (map (λ f. f.name) functions.now) (map (λ w. w.now) words.now)) }
    ensures few { IfOk result (λ v. (1 ≤ length v.items) × (length v.items ≤ 8)) }
{
    match words {
        [_, names @ ..] if is_first_line(words) => counted_entries(alloc, names, functions),
        _ => Err(ScheduleStop::Bad(Cause::Syntax)),
    }
}
