//! Stores that begin to wait at a step.

ghost use Rattle.std.specs.Prelude.{◌≡◌, ◌≤◌};
ghost use Rattle.ax_isa.specs.Processor.{processor_of};
ghost use Rattle.ax_run.specs.Waiting.{entering, entering_at, grown_by, is_native_at, saved_at};

use crate::objects::is_native_byte;
use ax_check::Accepted;
use ax_isa::{Cpu, Effect, Isa, Saved, at_place};

fn saved_at(saved: Saved) -> Option<u64>
    ensures { result ≡ saved_at saved }
{
    match saved {
        Saved::Register(_) => None,
        Saved::Stack { address, .. } => Some(address),
    }
}

fn entering(e: &Effect) -> Option<u64>
    ensures { result ≡ entering e.now }
{
    match *e {
        Effect::Store { address, .. } => Some(address),
        Effect::CallTo { saved, .. } => saved_at(saved),
        _ => None,
    }
}

/// Where the next step of a processor stores what may wait in its buffer.
fn entering_at<I: Isa>(code: &[I::Instr], c: &Cpu) -> Option<u64>
    ensures { result ≡ entering_at I.kind code.now (processor_of c.now) }
{
    match at_place(code, c.place) {
        Some(i) => entering(&I::effect(i, c)),
        None => None,
    }
}

fn is_native_at(program: &Accepted, address: Option<u64>) -> bool
    ensures { result ≡ is_native_at program.now address }
{
    match address {
        Some(a) => is_native_byte(program, a),
        None => false,
    }
}

/// How many more stores to native objects wait behind a step of a processor, before which so many
/// stores waited, and behind which so many do.
pub(crate) fn grown_by<I: Isa>(
    program: &Accepted,
    code: &[I::Instr],
    c: &Cpu,
    before: usize,
    after: usize,
) -> u64
    ensures exact { result ≡ grown_by program.now before after (entering_at I.kind code.now (processor_of c.now)) }
    ensures few { result ≤ 1 }
{
    if before < after && is_native_at(program, entering_at::<I>(code, c)) {
        1
    } else {
        0
    }
}
