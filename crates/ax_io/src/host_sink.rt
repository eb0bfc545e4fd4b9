ghost use Rattle.std.specs.Prelude.{◌≡◌, ℕ, ◌<◌, [], List, None, Option, length, take, IsErrOf, IsOk, OnOk, OnErr, Err, is_ok, if◌then◌else◌};
ghost use Rattle.std.specs.Io.KnownBytes.{Appends};
ghost use Rattle.ax_io.specs.Count.{raised, Rose, RaisesOnly};
ghost use Rattle.ax_io.specs.Sink.{Adds};

use crate::{Sink, SinkFault};
use std::io;
use std::io::{ErrorKind, Write};
use std::marker::Model;

/// Standard output, or another writer of the system. As a sink it tells nothing of what was written;
/// where it is known what the writer holds, as of one in memory, its own clauses say what a call adds.
#[derive(Drop)]
pub struct HostSink<W: Write> {
    to: W,
    faults: u64,
}

impl<W: Write> Model for HostSink<W> {
    ghost use Rattle.ax_io.specs.HostSink.{HostSinkState};

    ghost Value = { HostSinkState };

    ghost view = { λ h. record {
      known = W.contents h.to;
      faults = h.faults;
    } };
}

impl<W: Write> HostSink<W> {
    /// A sink over that writer.
    pub fn new(to: W) -> HostSink<W>
        ensures { result ≡ record { known = W.contents to; faults = 0 } }
    {
        HostSink { to, faults: 0 }
    }
}

impl<W: Write> Sink for HostSink<W> {
    ghost written = { λ _. None };

    ghost faults = { λ h. h.faults };

    fn put(&mut self, bytes: &[u8]) -> Result<(), SinkFault>
        ensures whole { OnOk result (Appends self.old.known self.new.known bytes.now) }
        ensures prefix { OnErr result ((n : ℕ) × Appends self.old.known self.new.known (take n bytes.now)) }
        ensures counts { self.new.faults ≡ (if is_ok result then self.old.faults else raised self.old.faults) }
        ensures failed { OnErr result ((result ≡ Err SinkFault.Failed) × (0 < length bytes.now)) }
        ensures raises { RaisesOnly self.old.faults self.new.faults (IsErrOf result SinkFault.Failed) }
    {
        if write_whole(&mut self.to, bytes).is_err() {
            self.faults = self.faults.saturating_add(1);
            return Err(SinkFault::Failed);
        }
        Ok(())
    }
}

/// Writes all bytes. A write that takes nothing is an error, as is each error of the writer.
fn write_whole<W: Write>(to: &mut W, bytes: &[u8]) -> io::Result<()>
    ensures whole { OnOk result (Appends (W.contents to.old) (W.contents to.new) bytes.now) }
    ensures prefix { OnErr result ((n : ℕ) × Appends (W.contents to.old) (W.contents to.new) (take n bytes.now)) }
    ensures failed { OnErr result (0 < length bytes.now) }
{
    let mut at = 0;
    while at < bytes.len() {
        match to.write(&bytes[at..])? {
            0 => return Err(io::Error::from(ErrorKind::WriteZero)),
            n => at += n,
        }
    }
    Ok(())
}
