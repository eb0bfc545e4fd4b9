//! What is written, beside what a row says.

use crate::row::Row;
use std::alloc::{AllocError, Global};
use std::str;

/// Whether a line is like a row's line, in which `_` stands for any word.
fn is_like(line: &str, pattern: &str) -> bool {
    let mut words = line.split(' ');
    for wanted in pattern.split(' ') {
        match words.next() {
            Some(word) if wanted == "_" || wanted == word => {}
            _ => return false,
        }
    }
    words.next().is_none()
}

/// The next line; behind `..`, the next that is like a row's line.
fn next_line<'a>(lines: &mut str::Lines<'a>, pattern: &str, is_behind: bool) -> Option<&'a str> {
    for line in lines {
        if !is_behind || is_like(line, pattern) {
            return Some(line);
        }
    }
    None
}

/// The first line that is written in place of a row's line, and that line.
fn first_odd<'a>(written: &'a str, patterns: &'a str) -> Option<(&'a str, &'a str)> {
    let mut lines = written.lines();
    let mut is_behind = false;
    for pattern in patterns.lines() {
        if pattern == ".." {
            is_behind = true;
            continue;
        }
        match next_line(&mut lines, pattern, is_behind) {
            Some(line) if is_like(line, pattern) => is_behind = false,
            line => return Some((line.unwrap_or("nothing"), pattern)),
        }
    }
    match lines.next() {
        Some(line) if !is_behind => Some((line, "nothing")),
        _ => None,
    }
}

/// How a status and what is written first differ from a row's.
pub fn difference(
    alloc: Global,
    row: &Row<'_>,
    status: u8,
    written: &[u8],
) -> Result<Option<String>, AllocError> {
    let Ok(written) = str::from_utf8(written) else {
        return Ok(Some(String::from_str(alloc, "no text")?));
    };
    if status != row.status {
        let line = written.lines().next().unwrap_or("nothing");
        return Ok(Some(format!(in alloc; "status {status}, {line}")?));
    }
    if row.kept.is_none() && !written.ends_with('\n') {
        return Ok(Some(String::from_str(alloc, "no line feed at the end")?));
    }
    match first_odd(written, row.lines) {
        Some((line, pattern)) => Ok(Some(format!(in alloc; "{line}, not {pattern}")?)),
        None => Ok(None),
    }
}
