//! Rows, as files of rows have them.

/// A call of `serve` and what comes of it.
#[derive(Clone, Copy)]
pub struct Row<'a> {
    pub name: &'a str,
    /// The words of the call, parted by blanks.
    pub words: &'a str,
    /// What stands for `..` in the words and for `; ..` in the files.
    pub text: Option<&'a str>,
    pub status: u8,
    /// How many bytes are kept of what is written, where writing fails.
    pub kept: Option<usize>,
    /// The lines that are written.
    pub lines: &'a str,
}

/// The row of a paragraph: `NAME: WORDS`, maybe `with TEXT`, then `status N` or
/// `status N after K bytes`, and the lines that are written.
pub fn row_of(paragraph: &str) -> Option<Row<'_>> {
    let (head, rest) = paragraph.split_once('\n')?;
    let (name, words) = head.split_once(':')?;
    let (text, rest) = match rest.strip_prefix("with ") {
        Some(rest) => {
            let (text, rest) = rest.split_once('\n')?;
            (Some(text), rest)
        }
        None => (None, rest),
    };
    let (end, lines) = rest.strip_prefix("status ")?.split_once('\n')?;
    let (status, kept) = match end.split_once(" after ") {
        Some((status, kept)) => (status, Some(kept.strip_suffix(" bytes")?.parse().ok()?)),
        None => (end, None),
    };
    Some(Row {
        name,
        words,
        text,
        status: status.parse().ok()?,
        kept,
        lines,
    })
}

/// The short row of a line `LINE: TEXT`, which is its name, for these words.
pub fn short_row_of<'a>(words: &'a str, row: &'a str) -> Option<Row<'a>> {
    let (line, text) = row.split_once(": ")?;
    Some(Row {
        name: row,
        words,
        text: Some(text),
        status: status_of(line),
        kept: None,
        lines: line,
    })
}

/// The status with which a line is the one that is written; 0 for `..`.
fn status_of(line: &str) -> u8 {
    match line.split_once(' ') {
        Some(("syntax" | "opcode" | "name", _)) => 3,
        Some(("refused", _)) => 4,
        Some(("schedule", _)) => 5,
        Some(("too", _)) => 6,
        Some(("unbuilt", _)) => 7,
        _ => 0,
    }
}
