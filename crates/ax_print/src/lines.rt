//! The lines of a list of events: runs of equal tokens, 16 on a line.

ghost use Rattle.std.specs.Prelude.{◌≡◌, ◌<◌, ◌^◌, ◌+◌, ◌++◌, length, map, OnOk, string_bytes};
ghost use Rattle.ax_print.specs.Lines.{is_same, times_text, line_start, line_end, last_end, run_text, lines_of};

use crate::tokens::{Token, Traced};
use std::alloc::AllocError;

/// Appends the events' lines, each of which begins with the word and has up to 16 tokens. A token
/// stands once for equal events one after the other, with their number where they are several.
pub(crate) fn push_events<E: Traced>(
    out: &mut String,
    word: &str,
    events: &[E],
) -> Result<(), AllocError>
    requires { length events.now < 2 ^ 63 }
    ensures { OnOk result (string_bytes out.new ≡ string_bytes out.old ++ lines_of word.now (map E.token_of events.now)) }
{
    let Some((first, rest)) = events.split_first() else {
        return Ok(());
    };
    let mut token = first.token();
    let mut count: u64 = 1;
    let mut written: u64 = 0;
    for event in rest {
        let next = event.token();
        if is_same(token, next) {
            count += 1;
        } else {
            push_run(out, word, written, token, count)?;
            written += 1;
            token = next;
            count = 1;
        }
    }
    push_run(out, word, written, token, count)?;
    push_last_end(out, written + 1)
}

fn is_same(token: Token, other: Token) -> bool
    ensures { result ≡ is_same token other }
{
    token == other
}

/// Appends run number `k`, counted from 0.
fn push_run(
    out: &mut String,
    word: &str,
    k: u64,
    token: Token,
    count: u64,
) -> Result<(), AllocError>
    ensures { OnOk result (string_bytes out.new ≡ string_bytes out.old ++ run_text word.now k token count) }
{
    push_line_start(out, word, k)?;
    let letter = token.letter;
    let processor = token.processor;
    write!(out, " {letter}{processor}")?;
    push_times(out, count)?;
    push_line_end(out, k)
}

fn push_line_start(out: &mut String, word: &str, k: u64) -> Result<(), AllocError>
    ensures { OnOk result (string_bytes out.new ≡ string_bytes out.old ++ line_start word.now k) }
{
    if k % 16 == 0 {
        write!(out, "{word}")?;
    }
    Ok(())
}

fn push_times(out: &mut String, count: u64) -> Result<(), AllocError>
    ensures { OnOk result (string_bytes out.new ≡ string_bytes out.old ++ times_text count) }
{
    if count > 1 {
        write!(out, "*{count}")?;
    }
    Ok(())
}

fn push_line_end(out: &mut String, k: u64) -> Result<(), AllocError>
    ensures { OnOk result (string_bytes out.new ≡ string_bytes out.old ++ line_end k) }
{
    if k % 16 == 15 {
        writeln!(out)?;
    }
    Ok(())
}

/// Ends the last line, behind `k` runs in all.
fn push_last_end(out: &mut String, k: u64) -> Result<(), AllocError>
    ensures { OnOk result (string_bytes out.new ≡ string_bytes out.old ++ last_end k) }
{
    if k % 16 != 0 {
        writeln!(out)?;
    }
    Ok(())
}
