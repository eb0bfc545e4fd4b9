ghost use Rattle.std.specs.Prelude.{◌≡◌, ℕ, List, [], Option, Some, IsErrOf, IsOk};
ghost use Rattle.ax_io.specs.Count.{Rose, RaisesOnly};
ghost use Rattle.ax_io.specs.Sink.{Adds};
ghost use Rattle.ax_io.specs.MemSink.{kept_at, Answers};

use crate::{Sink, SinkFault};
use std::alloc::Global;
use std::marker::Model;

/// A sink that keeps the bytes in memory, some calls of which fail by their numbers.
#[derive(Debug, Drop)]
pub struct MemSink {
    bytes: Vec<u8>,
    failing: Vec<(u64, usize)>,
    calls: u64,
    faults: u64,
}

impl Model for MemSink {
    ghost use Rattle.ax_io.specs.MemSink.{MemSinkState};

    ghost Value = { MemSinkState };

    ghost view = { λ m. record {
      written = m.bytes.items;
      failing = m.failing.items;
      calls = m.calls;
      faults = m.faults;
    } };
}

impl MemSink {
    /// An empty sink. Calls whose piece isn't empty are counted from 0. A call whose number is named
    /// in `failing` keeps the first bytes of its piece, as many as are stated there, and fails; with
    /// two entries of one number the first counts.
    pub fn new(alloc: Global, failing: Vec<(u64, usize)>) -> MemSink
        ensures { result ≡ record { written = []; failing = failing.items; calls = 0; faults = 0 } }
    {
        MemSink {
            bytes: Vec::new(alloc),
            failing,
            calls: 0,
            faults: 0,
        }
    }

    /// All bytes that were put so far.
    pub fn bytes(&self) -> &[u8]
        ensures { result.now ≡ self.now.written }
    {
        self.bytes.as_slice()
    }
}

impl Sink for MemSink {
    ghost written = { λ m. Some m.written };

    ghost faults = { λ m. m.faults };

    fn put(&mut self, bytes: &[u8]) -> Result<(), SinkFault>
        ensures answers { Answers self.old self.new bytes.now result }
        ensures raises { RaisesOnly self.old.faults self.new.faults (IsErrOf result SinkFault.Failed) }
    {
        if bytes.is_empty() {
            return Ok(());
        }
        let kept = kept_bytes(self.failing.as_slice(), self.calls);
        self.calls = self.calls.saturating_add(1);
        let Some(count) = kept else {
            self.bytes.extend_from_slice(bytes)?;
            return Ok(());
        };
        self.bytes
            .extend_from_slice(&bytes[..count.min(bytes.len())])?;
        self.faults = self.faults.saturating_add(1);
        Err(SinkFault::Failed)
    }
}

/// How many bytes the call with this number keeps, where it fails.
fn kept_bytes(failing: &[(u64, usize)], number: u64) -> Option<usize>
    ensures { result ≡ kept_at failing.now number }
{
    failing
        .iter()
        .find(|entry| entry.0 == number)
        .map(|entry| entry.1)
}
