//! A row's call of `serve`.

use crate::difference::difference;
use crate::row::Row;
use ax_app::serve;
use ax_io::{HostFiles, MemFiles, MemSink};
use std::alloc::{AllocError, Global};
use std::rt::Files;
use std::{fs, io, str};

/// The count and the lines of a piece `N * LINES`.
fn counted(piece: &str) -> Option<(usize, &str)> {
    let (count, lines) = piece.split_once(" * ")?;
    Some((count.parse().ok()?, lines))
}

/// The lines so many times, with the numbers from 0 on for `{}`.
fn repeated(alloc: Global, lines: &str, count: usize) -> Result<String, AllocError> {
    if !lines.contains("{}") {
        return lines.repeat(alloc, count);
    }
    let mut all = String::new(alloc);
    for number in 0..count {
        let number = number.to_string(alloc)?;
        let lines = lines.replace(alloc, "{}", number.as_str())?;
        all.push_str(lines.as_str())?;
    }
    Ok(all)
}

/// The lines that a row's text stands for. They are parted by ` | `; where there are pieces, parted
/// by ` || `, a piece `N * LINES` is N times its lines.
fn lines_of(alloc: Global, text: &str) -> Result<String, AllocError> {
    let mut all = String::new(alloc);
    for piece in text.split(" || ") {
        let (count, lines) = counted(piece).unwrap_or((1, piece));
        let mut lines = lines.replace(alloc, " | ", "\n")?;
        lines.push('\n')?;
        all.push_str(repeated(alloc, lines.as_str(), count)?.as_str())?;
    }
    Ok(all)
}

/// The files that the words name behind the target, with the text in its places.
fn files_with<R: Files + AllocGlobal>(
    rt: &R,
    words: &[String],
    text: &str,
) -> io::Result<MemFiles> {
    let alloc = rt.alloc();
    let text = lines_of(alloc, text)?;
    let mut files = Vec::new(alloc);
    for name in words.iter().skip(2) {
        let content = match name.as_str() {
            ".." => text.clone()?,
            name => {
                let content = fs::read_to_string(rt, name)?;
                content.as_str().replace(alloc, "; ..\n", text.as_str())?
            }
        };
        files.push((name.clone()?, content.into_bytes()))?;
    }
    Ok(MemFiles::new(alloc, files, Vec::new(alloc)))
}

fn words_of(alloc: Global, text: &str) -> Result<Vec<String>, AllocError> {
    let mut words = Vec::new(alloc);
    for word in text.split_whitespace() {
        words.push(String::from_str(alloc, word)?)?;
    }
    Ok(words)
}

/// The lines of a row. A first line `= WORDS` stands for what these words write.
fn lines_said<R: Files + AllocGlobal>(rt: &R, lines: &str) -> io::Result<String> {
    let alloc = rt.alloc();
    let Some(behind) = lines.strip_prefix("= ") else {
        return Ok(String::from_str(alloc, lines)?);
    };
    let (words, rest) = behind.split_once('\n').unwrap_or((behind, ""));
    let words = words_of(alloc, words)?;
    let mut sink = MemSink::new(alloc, Vec::new(alloc));
    let _ = serve(
        alloc,
        words.as_slice(),
        &mut HostFiles::new(alloc, rt),
        &mut sink,
    );
    let mut said = String::from_str(alloc, str::from_utf8(sink.bytes()).unwrap_or("no text\n"))?;
    said.push_str(rest)?;
    Ok(said)
}

/// How what `serve` answers and writes first differs from what the row says.
pub fn difference_of<R: Files + AllocGlobal>(rt: &R, row: &Row<'_>) -> io::Result<Option<String>> {
    let alloc = rt.alloc();
    let words = words_of(alloc, row.words)?;
    let words = words.as_slice();
    let mut failing = Vec::new(alloc);
    if let Some(kept) = row.kept {
        failing.push((0, kept))?;
    }
    let mut sink = MemSink::new(alloc, failing);
    let done = match row.text {
        Some(text) => serve(alloc, words, &mut files_with(rt, words, text)?, &mut sink),
        None => serve(alloc, words, &mut HostFiles::new(alloc, rt), &mut sink),
    };
    let lines = lines_said(rt, row.lines)?;
    let row = Row {
        lines: lines.as_str(),
        ..*row
    };
    Ok(difference(alloc, &row, done.code(), sink.bytes())?)
}
