//! Tokens and lines of texts.

use ax_lex::{LexFault, Token, TokenKind, text_of, tokens};
use ax_lines::{LineFault, read_lines};
use ax_rows::Fault;
use std::alloc::Global;

fn kind_word(kind: TokenKind) -> &'static str {
    match kind {
        TokenKind::Word => "word",
        TokenKind::Local => "local",
        TokenKind::Global => "global",
        TokenKind::Meta => "meta",
        TokenKind::Group => "group",
        TokenKind::Literal => "literal",
        TokenKind::Text => "text",
        TokenKind::Mark => "mark",
        TokenKind::Newline => "newline",
    }
}

/// The tokens of a text that has them.
pub(crate) fn found(alloc: Global, text: &[u8]) -> Result<Vec<Token>, Fault> {
    match tokens(alloc, text) {
        Ok(tokens) => Ok(tokens),
        Err(LexFault::Byte { .. }) => Err(Fault::Row),
        Err(LexFault::Memory) => Err(Fault::Memory),
    }
}

/// The kinds and places of a text's tokens, or the first place at which none starts.
pub(crate) fn tokens_of(alloc: Global, text: &[u8]) -> Result<String, Fault> {
    let found = match tokens(alloc, text) {
        Ok(tokens) => tokens,
        Err(LexFault::Byte { at }) => return Ok(format!(in alloc; "byte {at}")?),
        Err(LexFault::Memory) => return Err(Fault::Memory),
    };
    let mut out = String::new(alloc);
    for token in found.as_slice() {
        if !out.is_empty() {
            out.push_str(", ")?;
        }
        let (kind, start, end) = (kind_word(token.kind), token.start, token.end);
        write!(out, "{kind} {start} {end}")?;
    }
    if out.is_empty() {
        out.push_str("none")?;
    }
    Ok(out)
}

/// The texts of a text's tokens.
pub(crate) fn texts_of(alloc: Global, text: &[u8]) -> Result<String, Fault> {
    let mut out = String::new(alloc);
    for token in found(alloc, text)?.as_slice() {
        if !out.is_empty() {
            out.push_str(" ")?;
        }
        let bytes = text_of(text, *token);
        out.push_str(str::from_utf8(bytes).map_err(|_| Fault::Row)?)?;
    }
    Ok(out)
}

/// How many tokens so many copies of a text have.
pub(crate) fn copies(alloc: Global, times: u32, text: &[u8]) -> Result<String, Fault> {
    let mut whole = Vec::new(alloc);
    for _ in 0..times {
        whole.extend_from_slice(text)?;
    }
    let tokens = found(alloc, whole.as_slice())?.len();
    let bytes = whole.len();
    Ok(format!(in alloc; "{tokens} tokens in {bytes} bytes")?)
}

/// How many lines a text has, or the first that is none and its fault.
pub(crate) fn lines(alloc: Global, text: &[u8]) -> Result<String, Fault> {
    let found = found(alloc, text)?;
    match read_lines(alloc, text, &found) {
        Ok(lines) => Ok(format!(in alloc; "{} lines", lines.len())?),
        Err(LineFault::Syntax { line }) => Ok(format!(in alloc; "syntax {line}")?),
        Err(LineFault::Opcode { line }) => Ok(format!(in alloc; "opcode {line}")?),
        Err(LineFault::Memory) => Err(Fault::Memory),
    }
}

/// The same of a function whose first line is this one, behind its head.
pub(crate) fn line(alloc: Global, line: &[u8]) -> Result<String, Fault> {
    let mut text = Vec::new(alloc);
    text.extend_from_slice(b"define void @f(i64 %a, ptr %p) {\n")?;
    text.extend_from_slice(line)?;
    text.extend_from_slice(b"\n  ret void\n}\n")?;
    lines(alloc, text.as_slice())
}
