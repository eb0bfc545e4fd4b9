//! Lines of a text and their words.

ghost use Rattle.std.specs.Prelude.{◌≡◌, ◌+◌, ◌++◌, ◌≤◌, ◌<◌, ◌^◌, ◌&&◌, not, [], length, map, drop, IfOk, OnOk};
ghost use Rattle.std.specs.List.{prefix_len};
ghost use Rattle.ax_lex.specs.Bytes.{is_blank};
ghost use Rattle.ax_sched.specs.Lines.{lines_of, words_of, turned, is_passed_over, kept_from};
ghost use Rattle.ax_sched.specs.Reading.{ended, begins_no_word};

use ax_lex::is_blank;
use std::alloc::{AllocError, Global};

/// The lines of a text, which line feeds part.
pub fn lines_of(alloc: Global, text: &[u8]) -> Result<Vec<&[u8]>, AllocError>
    ensures lines { IfOk result (λ v. map (λ x. x.now) v.items ≡ lines_of text.now) }
    ensures few { IfOk result (λ v. length v.items ≤ length text.now + 1) }
{
    text.split(|b| *b == b'\n').collect(alloc)
}

/// How many blanks stand at the front of a line.
fn blank_run(line: &[u8]) -> usize
    ensures is { result ≡ prefix_len is_blank line.now }
    ensures within { result ≤ length line.now }
{
    line.iter().take_while(|b| is_blank(**b)).count()
}

/// What stands behind the blanks at the front of a line.
fn behind_blanks(line: &[u8]) -> &[u8]
    ensures { result.now ≡ drop (prefix_len is_blank line.now) line.now }
{
    let (_, rest) = line.split_at(blank_run(line));
    rest
}

fn begins_no_word(rest: &[u8]) -> bool
    ensures { result ≡ begins_no_word rest.now }
{
    match rest {
        [] | [b'#', ..] => true,
        _ => false,
    }
}

/// Whether a line has no words, or a comment for its first.
#[tactic(auto, using(crate::proofs::WordLemmas::passed_over))]
fn is_passed_over(line: &[u8]) -> bool
    ensures { result ≡ is_passed_over line.now }
{
    begins_no_word(behind_blanks(line))
}

/// The lines that are neither comments nor without words, each with its number.
pub fn kept_lines<'a>(alloc: Global, lines: &[&'a [u8]]) -> Result<Vec<(u32, &'a [u8])>, AllocError>
    requires { length lines.now < 2 ^ 32 }
    ensures { IfOk result (λ v. map (λ x. (x.0, x.1.now)) v.items ≡ kept_from 1 (map (λ x. x.now) lines.now)) }
{
    let mut kept = Vec::new(alloc);
    for (i, line) in lines.iter().enumerate() {
        if !is_passed_over(line) {
            kept.push((i as u32 + 1, *line))?;
        }
    }
    Ok(kept)
}

/// Appends a word, where it has a byte.
fn push_word<'a>(words: &mut Vec<&'a [u8]>, word: &'a [u8]) -> Result<(), AllocError>
    ensures { OnOk result (map (λ x. x.now) words.new.items ≡ map (λ x. x.now) words.old.items ++ ended word.now []) }
{
    if !word.is_empty() {
        words.push(word)?;
    }
    Ok(())
}

fn parts_words(b: u8, quoted: bool) -> bool
    ensures { result ≡ (is_blank b && not quoted) }
{
    is_blank(b) && !quoted
}

fn turned(b: u8, quoted: bool) -> bool
    ensures { result ≡ turned b quoted }
{
    if b == b'"' { !quoted } else { quoted }
}

/// The words of a line, which blanks part; a blank between double quotes parts nothing.
pub fn words_of(alloc: Global, line: &[u8]) -> Result<Vec<&[u8]>, AllocError>
    ensures { IfOk result (λ v. map (λ x. x.now) v.items ≡ words_of line.now) }
{
    let mut words = Vec::new(alloc);
    let mut quoted = false;
    let mut start = 0;
    for (i, b) in line.iter().enumerate() {
        if parts_words(*b, quoted) {
            push_word(&mut words, &line[start..i])?;
            start = i + 1;
        }
        quoted = turned(*b, quoted);
    }
    push_word(&mut words, &line[start..])?;
    Ok(words)
}
