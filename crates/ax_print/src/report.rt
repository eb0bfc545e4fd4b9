//! The lines of a report.

ghost use Rattle.std.specs.Prelude.{◌≡◌, ◌<◌, ◌++◌, flat_map, All, OnOk, string_bytes};
ghost use Rattle.ax_print.specs.Report.{head_lines, output_line, object_line, held_line, status_word, processor_line, lock_line, source_lines, machine_lines, end_line};

use crate::lines::push_events;
use ax_isa::Status;
use ax_module::Name;
use ax_target::Target;
use ax_words::{Event, SourceEvent};
use std::alloc::AllocError;

/// Appends the first lines: the target, how many processors ran, and how many events there were.
pub fn push_head(
    out: &mut String,
    target: Target,
    processors: u8,
    events: u64,
) -> Result<(), AllocError>
    ensures { OnOk result (string_bytes out.new ≡ string_bytes out.old ++ head_lines target processors events) }
{
    let name = target.name();
    writeln!(
        out,
        "report\ntarget {name}\nprocessors {processors}\nevents {events}"
    )
}

/// Appends the line of a number that processor `p` put out.
pub fn push_output(out: &mut String, p: u8, v: u64) -> Result<(), AllocError>
    ensures { OnOk result (string_bytes out.new ≡ string_bytes out.old ++ output_line (p, v)) }
{
    writeln!(out, "output {p} {v}")
}

/// Appends a line for each number that was put out, with its processor.
pub fn push_outputs(out: &mut String, outputs: &[(u8, u64)]) -> Result<(), AllocError>
    ensures { OnOk result (string_bytes out.new ≡ string_bytes out.old ++ flat_map output_line outputs.now) }
{
    for (p, v) in outputs {
        push_output(out, *p, *v)?;
    }
    Ok(())
}

/// Appends the line of element `i` of a global, or nothing where its number `v` is 0.
pub fn push_object(out: &mut String, name: &Name, i: u64, v: u128) -> Result<(), AllocError>
    requires { All (λ b. b < 128) name.now }
    ensures { OnOk result (string_bytes out.new ≡ string_bytes out.old ++ object_line name.now i v) }
{
    if v == 0 {
        return Ok(());
    }
    write!(out, "object ")?;
    name.push_to(out)?;
    writeln!(out, " {i} {v}")
}

/// Appends the line of element `i` of a global, which a lock holds.
pub fn push_held(out: &mut String, name: &Name, i: u64) -> Result<(), AllocError>
    requires { All (λ b. b < 128) name.now }
    ensures { OnOk result (string_bytes out.new ≡ string_bytes out.old ++ held_line name.now i) }
{
    write!(out, "object ")?;
    name.push_to(out)?;
    writeln!(out, " {i} held")
}

/// Appends the line of processor `p`: its status, the place of its next instruction, the steps
/// that it made while it ran, and its stores that wait.
pub fn push_processor(
    out: &mut String,
    p: u8,
    status: Status,
    place: u32,
    retired: u64,
    pending: u64,
) -> Result<(), AllocError>
    ensures { OnOk result (string_bytes out.new ≡ string_bytes out.old ++ processor_line p status place retired pending) }
{
    let word = status_word(status);
    write!(out, "processor {p} {word} {place}")?;
    writeln!(out, " retired {retired} pending {pending}")
}

fn status_word(status: Status) -> &'static str
    ensures { result.now ≡ status_word status }
{
    match status {
        Status::Running => "running",
        Status::Ended => "ended",
        Status::Trapped => "trapped",
        Status::Stuck => "stuck",
    }
}

/// Appends the line of lock `i`, or nothing where its word `w` is 0.
pub fn push_lock(out: &mut String, i: u32, w: u32) -> Result<(), AllocError>
    ensures { OnOk result (string_bytes out.new ≡ string_bytes out.old ++ lock_line i w) }
{
    if w == 0 {
        return Ok(());
    }
    writeln!(out, "lock {i} {w}")
}

/// Appends the lines of the source machine's events: A, L, M or D for `Act`, `Look`, `Miss` or
/// `Drain`.
pub fn push_source(out: &mut String, events: &[SourceEvent]) -> Result<(), AllocError>
    ensures { OnOk result (string_bytes out.new ≡ string_bytes out.old ++ source_lines events.now) }
{
    push_events(out, "source", events)
}

/// Appends the lines of the machine's events: S, D or X for `Step`, `Drain` or `Drop`.
pub fn push_machine(out: &mut String, events: &[Event]) -> Result<(), AllocError>
    ensures { OnOk result (string_bytes out.new ≡ string_bytes out.old ++ machine_lines events.now) }
{
    push_events(out, "machine", events)
}

/// Appends the last line.
pub fn push_end(out: &mut String) -> Result<(), AllocError>
    ensures { OnOk result (string_bytes out.new ≡ string_bytes out.old ++ end_line) }
{
    writeln!(out, "end")
}
