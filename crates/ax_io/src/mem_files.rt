ghost use Rattle.std.specs.Prelude.{◌≡◌, ℕ, ◌+◌, ◌<◌, ◌≤◌, ◌++◌, ◌∷◌, [], List, Option, length, option_copied, IfOk, IsErrOf};
ghost use Rattle.ax_io.specs.Count.{Rose, RaisesOnly};
ghost use Rattle.ax_io.specs.Files.{Asks, Takes};
ghost use Rattle.ax_io.specs.MemFiles.{contents, first_of, found, Answers};

use crate::{FileFault, Files};
use std::alloc::Global;
use std::marker::Model;

/// Files that are held in memory, some calls of which fail by their numbers.
#[derive(Debug, Drop)]
pub struct MemFiles {
    files: Vec<(String, Vec<u8>)>,
    failing: Vec<u64>,
    asked: Vec<String>,
    faults: u64,
    taken: u64,
}

impl Model for MemFiles {
    ghost use Rattle.std.specs.Prelude.{map, string_bytes};
    ghost use Rattle.ax_io.specs.MemFiles.{MemFilesState, contents};

    ghost Value = { MemFilesState };

    ghost view = { λ m. record {
      files = contents m.files.items;
      failing = m.failing.items;
      asked = map string_bytes m.asked.items;
      faults = m.faults;
      taken = m.taken;
    } };
}

impl MemFiles {
    /// The files with these names and contents; with two entries of one name the first counts.
    ///
    /// A call's number is how many names were asked before it. A call whose number is in `failing`,
    /// or whose name isn't there, fails.
    pub fn new(alloc: Global, files: Vec<(String, Vec<u8>)>, failing: Vec<u64>) -> MemFiles
        ensures { result ≡ record {
          files = contents files.items;
          failing = failing.items;
          asked = [];
          faults = 0;
          taken = 0;
        } }
    {
        MemFiles {
            files,
            failing,
            asked: Vec::new(alloc),
            faults: 0,
            taken: 0,
        }
    }
}

impl Files for MemFiles {
    ghost held = { λ m name. first_of m.files name };

    ghost asked = { λ m. m.asked };

    ghost faults = { λ m. m.faults };

    ghost taken = { λ m. m.taken };

    fn read(&mut self, alloc: Global, name: &str, limit: usize) -> Result<Vec<u8>, FileFault>
        ensures answers { Answers self.old self.new name.now limit result }
        ensures raises { RaisesOnly self.old.faults self.new.faults (IsErrOf result FileFault.Failed) }
    {
        let number = self.asked.len() as u64;
        self.asked.push(String::from_str(alloc, name)?)?;
        self.taken = 0;
        let files = self.files.as_slice();
        let Some(content) = found_content(files, self.failing.as_slice(), number, name) else {
            self.faults = self.faults.saturating_add(1);
            return Err(FileFault::Failed);
        };
        if content.len() > limit {
            self.taken = limit as u64 + 1;
            return Err(FileFault::TooLong);
        }
        let bytes = Vec::from_slice(alloc, content)?;
        self.taken = bytes.len() as u64;
        Ok(bytes)
    }
}

/// The content that a call finds: none where its number is among the failing.
fn found_content<'a>(
    files: &'a [(String, Vec<u8>)],
    failing: &[u64],
    number: u64,
    name: &str,
) -> Option<&'a [u8]>
    ensures { option_copied result ≡ found (contents files.now) failing.now number name.now }
{
    if failing.contains(&number) {
        return None;
    }
    for file in files {
        if name == file.0.as_str() {
            return Some(file.1.as_slice());
        }
    }
    None
}
