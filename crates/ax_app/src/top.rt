//! The call that does all that the program does.

ghost use Rattle.std.specs.Prelude.{◌≡◌, map, codes, decimal, ◌++◌, ◌∷◌, [], IfOk};
ghost use Rattle.std.specs.String.{string_bytes};
ghost use Rattle.ax_app.specs.Writing.{writing, Writes, written_of, answer_of, part_word, cause_word};
ghost use Rattle.ax_app.specs.Serve.{reading, IsServed};

use crate::done::Done;
use crate::judge::judge;
use crate::verdict::{Part, Verdict};
use ax_io::{Files, Sink, SinkFault};
use ax_sched::Cause;
use std::alloc::{AllocError, Global};

fn part_word(part: Part) -> &'static str
    ensures { result.now ≡ part_word part }
{
    match part {
        Part::Module => "module",
        Part::Schedule => "schedule",
    }
}

fn cause_word(cause: Cause) -> &'static str
    ensures { result.now ≡ cause_word cause }
{
    match cause {
        Cause::Syntax => "syntax",
        Cause::ProcessorRange => "range",
        Cause::UnknownEntry => "entry",
        Cause::UnknownObject => "object",
        Cause::TooMany => "many",
    }
}

fn refused_line(alloc: Global, number: u8, place: &str) -> Result<String, AllocError>
    ensures { IfOk result (λ text. string_bytes text ≡ codes "refused N" ++ decimal number ++ 32 ∷ place.now ++ 10 ∷ []) }
{
    let mut line = String::new(alloc);
    write!(line, "refused N{number} ")?;
    line.push_str(place)?;
    line.push_str("\n")?;
    Ok(line)
}

fn schedule_line(alloc: Global, line: u32, cause: &str) -> Result<String, AllocError>
    ensures { IfOk result (λ text. string_bytes text ≡ codes "schedule " ++ decimal line ++ 32 ∷ cause.now ++ 10 ∷ []) }
{
    let mut text = String::new(alloc);
    write!(text, "schedule {line} ")?;
    text.push_str(cause)?;
    text.push_str("\n")?;
    Ok(text)
}

/// What a verdict writes.
fn text_of(alloc: Global, verdict: Verdict) -> Result<String, AllocError>
    ensures { IfOk result (λ text. string_bytes text ≡ written_of verdict) }
{
    match verdict {
        Verdict::Text(text) => Ok(text),
        Verdict::Usage => format!(in alloc; "usage\n"),
        Verdict::ReadFault(part) => {
            let part = part_word(part);
            format!(in alloc; "read fault {part}\n")
        }
        Verdict::TooLong(part) => {
            let part = part_word(part);
            format!(in alloc; "too long {part}\n")
        }
        Verdict::Syntax { line } => format!(in alloc; "syntax {line}\n"),
        Verdict::Opcode { line } => format!(in alloc; "opcode {line}\n"),
        Verdict::Name { line } => format!(in alloc; "name {line}\n"),
        Verdict::Refused { number, place } => refused_line(alloc, number, place.as_str()),
        Verdict::Unbuilt => format!(in alloc; "unbuilt module\n"),
        Verdict::Schedule { line, cause } => schedule_line(alloc, line, cause_word(cause)),
        Verdict::Memory => Ok(String::new(alloc)),
    }
}

fn answer_of(verdict: &Verdict) -> Done
    ensures { result ≡ answer_of verdict.now }
{
    match verdict {
        Verdict::Text(_) => Done::Ok,
        Verdict::Usage => Done::Usage,
        Verdict::ReadFault(_) => Done::ReadFault,
        Verdict::TooLong(_) => Done::TooLong,
        Verdict::Syntax { .. } | Verdict::Opcode { .. } | Verdict::Name { .. } => Done::Syntax,
        Verdict::Refused { .. } => Done::Refused,
        Verdict::Unbuilt => Done::Unbuilt,
        Verdict::Schedule { .. } => Done::Schedule,
        Verdict::Memory => Done::Memory,
    }
}

/// Writes the bytes, and gives the answer.
fn told<S: Sink>(sink: &mut S, bytes: &[u8], answer: Done) -> Done
    ensures { Writes (writing (S.written sink.old) (S.written sink.new) (S.faults sink.old) (S.faults sink.new)) bytes.now answer result }
{
    match sink.put(bytes) {
        Ok(()) => answer,
        Err(SinkFault::Failed) => Done::WriteFault,
        Err(SinkFault::Memory) => Done::Memory,
    }
}

/// Writes what a verdict says, and gives its answer.
fn write<S: Sink>(alloc: Global, sink: &mut S, verdict: Verdict) -> Done
    ensures { Writes (writing (S.written sink.old) (S.written sink.new) (S.faults sink.old) (S.faults sink.new)) (written_of verdict) (answer_of verdict) result }
{
    let answer = answer_of(&verdict);
    match text_of(alloc, verdict) {
        Ok(text) => told(sink, text.as_bytes(), answer),
        Err(_) => Done::Memory,
    }
}

/// Does what the words say, with these files, and writes to the sink: `lower TARGET MODULE` writes the
/// assembly of an image of the module on a target, `run TARGET MODULE SCHEDULE` the same and then the
/// report of the image's run under the schedule, and `map TARGET` the mapping table. A refusal writes
/// its line alone.
pub fn serve<F: Files, S: Sink>(
    alloc: Global,
    words: &[String],
    files: &mut F,
    sink: &mut S,
) -> Done
    ensures { IsServed (map string_bytes words.now) (reading (F.held files.old) (F.asked files.old) (F.asked files.new) (F.faults files.old) (F.faults files.new) (F.taken files.new)) (writing (S.written sink.old) (S.written sink.new) (S.faults sink.old) (S.faults sink.new)) result }
{
    let verdict = judge(alloc, words, files);
    write(alloc, sink, verdict)
}
