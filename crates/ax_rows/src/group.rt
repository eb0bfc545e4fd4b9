//! The rows of a group, counted.

use std::io;

/// A group of rows: its name, and how many of them agreed and differed so far.
#[derive(Drop)]
pub(crate) struct Group<'a> {
    pub name: &'a str,
    pub agreed: u64,
    pub differed: u64,
}

impl<'a> Group<'a> {
    pub fn begin(name: &'a str) -> Group<'a> {
        Group {
            name,
            agreed: 0,
            differed: 0,
        }
    }

    /// Counts a row, and writes how it differs.
    pub fn count<R: Print + AllocGlobal>(
        &mut self,
        rt: &R,
        row: &str,
        got: Option<&str>,
    ) -> io::Result<()> {
        match got {
            None => {
                self.agreed = self.agreed.saturating_add(1);
                Ok(())
            }
            Some(got) => {
                self.differed = self.differed.saturating_add(1);
                let name = self.name;
                println!(rt; "differs {name}: {row}: got {got}")
            }
        }
    }

    /// Writes the line of a group whose rows all agreed.
    pub fn end<R: Print + AllocGlobal>(&self, rt: &R) -> io::Result<()> {
        if self.agreed == 0 || self.differed > 0 {
            return Ok(());
        }
        let (name, rows) = (self.name, self.agreed);
        println!(rt; "ok {name}: {rows} rows")
    }
}
