//! Files of rows, row by row.

use crate::fault::Fault;
use crate::group::Group;
use crate::texts::bytes_of;
use std::alloc::Global;
use std::rt::{Env, Files};
use std::{env, fs, io};

/// The calls that rows name.
pub trait Calls {
    /// What the call answers to these words, of which the first is its name, and texts.
    fn answer(&mut self, alloc: Global, words: &[&str], texts: &[Vec<u8>]) -> Result<String, Fault>;
}

/// A row in its parts.
#[derive(Drop)]
struct Row<'a> {
    call: &'a str,
    text: Option<&'a str>,
    answer: &'a str,
}

fn row_of(line: &str) -> Option<Row<'_>> {
    let (front, answer) = line.split_once(" => ")?;
    let (call, text) = match front.split_once(" |") {
        Some((call, text)) => (call, Some(text.strip_prefix(" ").unwrap_or(text))),
        None => (front, None),
    };
    Some(Row { call, text, answer })
}

/// What the row's call answers.
fn answer_of<C: Calls, R: Files + AllocGlobal>(
    rt: &R,
    calls: &mut C,
    row: &Row,
) -> io::Result<Result<String, Fault>> {
    let alloc = rt.alloc();
    let mut words = Vec::new(alloc);
    let mut texts = Vec::new(alloc);
    for word in row.call.split_whitespace() {
        match word.strip_prefix("<") {
            Some(name) => texts.push(fs::read(rt, name)?)?,
            None => words.push(word)?,
        }
    }
    if let Some(text) = row.text {
        let Some(bytes) = bytes_of(alloc, text)? else {
            return Ok(Err(Fault::Row));
        };
        texts.push(bytes)?;
    }
    Ok(calls.answer(alloc, words.as_slice(), texts.as_slice()))
}

/// Tries the row of a line.
fn try_row<C: Calls, R: Files + Print + AllocGlobal>(
    rt: &R,
    calls: &mut C,
    group: &mut Group,
    line: &str,
) -> io::Result<()> {
    let Some(row) = row_of(line) else {
        return group.count(rt, line, Some("no row"));
    };
    match answer_of(rt, calls, &row)? {
        Ok(got) if got.as_str() == row.answer => group.count(rt, line, None),
        Ok(got) => group.count(rt, line, Some(got.as_str())),
        Err(Fault::Row) => group.count(rt, line, Some("no call")),
        Err(Fault::Memory) => group.count(rt, line, Some("want of memory")),
    }
}

/// Tries the rows of a file.
fn run_file<C: Calls, R: Files + Print + AllocGlobal>(
    rt: &R,
    calls: &mut C,
    name: &str,
) -> io::Result<()> {
    let text = fs::read_to_string(rt, name)?;
    let mut group = Group::begin(name);
    for line in text.as_str().lines() {
        if let Some(name) = line.strip_prefix("group ") {
            group.end(rt)?;
            group = Group::begin(name);
        } else if !line.is_empty() && !line.starts_with('#') {
            try_row(rt, calls, &mut group, line)?;
        }
    }
    group.end(rt)
}

/// Tries the rows of the files that the program's words name, and writes a line for each group of
/// rows that agree, and for each row that does not.
///
/// # Errors
///
/// Of the first file that could not be read, of writing, and want of memory.
pub fn run<C: Calls, R: Env + Files + Print + AllocGlobal>(
    rt: &R,
    calls: &mut C,
) -> io::Result<()> {
    for name in env::args(rt)?.skip(1) {
        run_file(rt, calls, name.as_str())?;
    }
    Ok(())
}
