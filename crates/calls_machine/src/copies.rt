//! Files and sinks in memory.

use ax_io::{FileFault, Files, MemFiles, MemSink, Sink, SinkFault};
use ax_rows::Fault;
use std::alloc::Global;

/// The files of `NAME=CONTENT`, of which the reads of `!N` fail.
fn files_of(alloc: Global, parts: &[&str]) -> Result<MemFiles, Fault> {
    let mut files = Vec::new(alloc);
    let mut failing = Vec::new(alloc);
    for part in parts {
        if let Some((name, content)) = part.split_once('=') {
            let content = Vec::from_slice(alloc, content.as_bytes())?;
            files.push((String::from_str(alloc, name)?, content))?;
        } else if let Some(number) = part.strip_prefix("reads!") {
            failing.push(number.parse::<u64>()?)?;
        }
    }
    Ok(MemFiles::new(alloc, files, failing))
}

/// The sink of which the puts `puts!N:K` fail and keep K bytes.
fn sink_of(alloc: Global, parts: &[&str]) -> Result<MemSink, Fault> {
    let mut failing = Vec::new(alloc);
    for part in parts {
        if let Some(put) = part.strip_prefix("puts!") {
            let (number, kept) = put.split_once(':').ok_or(Fault::Row)?;
            failing.push((number.parse::<u64>()?, kept.parse::<usize>()?))?;
        }
    }
    Ok(MemSink::new(alloc, failing))
}

/// Copies a file of at most so many bytes to the sink, and how it went.
fn copy<F: Files, S: Sink>(
    alloc: Global,
    files: &mut F,
    sink: &mut S,
    name: &str,
    limit: usize,
) -> Result<&'static str, Fault> {
    let bytes = match files.read(alloc, name, limit) {
        Ok(bytes) => bytes,
        Err(FileFault::Failed) => return Ok(" read"),
        Err(FileFault::TooLong) => return Ok(" long"),
        Err(FileFault::Memory) => return Err(Fault::Memory),
    };
    match sink.put(bytes.as_slice()) {
        Ok(()) => Ok(" ok"),
        Err(SinkFault::Failed) => Ok(" write"),
        Err(SinkFault::Memory) => Err(Fault::Memory),
    }
}

/// Makes files and a sink, and copies by each `NAME/LIMIT` in turn: what was put, and how each copy
/// went, which is `ok`, or `long` where the file is longer than its limit, or the part that failed.
pub(crate) fn copied(alloc: Global, parts: &[&str]) -> Result<String, Fault> {
    let mut files = files_of(alloc, parts)?;
    let mut sink = sink_of(alloc, parts)?;
    let mut out = String::new(alloc);
    for part in parts {
        if let Some((name, limit)) = part.split_once('/') {
            let limit = limit.parse::<usize>()?;
            out.push_str(copy(alloc, &mut files, &mut sink, name, limit)?)?;
        }
    }
    let bytes = str::from_utf8(sink.bytes()).map_err(|_| Fault::Row)?;
    Ok(format!(in alloc; "{bytes}:{out}")?)
}
