//! Runs rows of examples, each a call of the program's top call. The words name files of rows, and a
//! line is printed for each row: `ok NAME`, or `differs NAME` with the first difference.
#![tactic(auto)]

mod difference;
mod row;
mod served;

use row::{Row, row_of, short_row_of};
use served::difference_of;
use std::rt::Files;
use std::{env, fs, io};

/// Prints whether `serve` answers and writes what a row says.
fn tell<R: Files + Print + AllocGlobal>(
    rt: &R,
    row: Option<Row<'_>>,
    text: &str,
) -> io::Result<()> {
    let Some(row) = row else {
        return println!(rt; "no row: {text}");
    };
    let name = row.name;
    match difference_of(rt, &row)? {
        None => println!(rt; "ok {name}"),
        Some(difference) => println!(rt; "differs {name}: {difference}"),
    }
}

/// Tells the rows of a paragraph.
fn tell_all<R: Files + Print + AllocGlobal>(rt: &R, paragraph: &str) -> io::Result<()> {
    if paragraph.starts_with('#') {
        return Ok(());
    }
    let Some(each) = paragraph.strip_prefix("each ") else {
        return tell(rt, row_of(paragraph), paragraph);
    };
    let Some((words, rows)) = each.split_once('\n') else {
        return tell(rt, None, paragraph);
    };
    for row in rows.lines() {
        tell(rt, short_row_of(words, row), row)?;
    }
    Ok(())
}

fn main(rt: HostRuntime) -> io::Result<()> {
    for name in env::args(&rt)?.skip(1) {
        let rows = fs::read_to_string(&rt, name.as_str())?;
        for paragraph in rows.as_str().split("\n\n") {
            tell_all(&rt, paragraph)?;
        }
    }
    Ok(())
}
