ghost use Rattle.std.specs.Prelude.{◌≡◌, ℕ, ◌+◌, ◌-◌, ◌<◌, ◌≤◌, ◌++◌, ◌∷◌, [], List, None, Option, length, vec_len, IfOk, OnOk, OnErr, IfSome, IsErrOf};
ghost use Rattle.std.specs.Io.KnownBytes.{Consumes, IsAtEnd};
ghost use Rattle.ax_io.specs.Count.{Rose, RaisesOnly};
ghost use Rattle.ax_io.specs.Files.{Asks, Takes};

use crate::{FileFault, Files};
use std::alloc::Global;
use std::io::Read;
use std::marker::Model;
use std::{fs, rt};

/// How many bytes one turn takes at most.
const CHUNK: usize = 8192;

/// Files of the system, through the part `R` of the runtime that reaches them. Nothing is told of
/// what they hold.
#[derive(Drop)]
pub struct HostFiles<R> {
    rt: R,
    asked: Vec<String>,
    faults: u64,
    taken: u64,
}

impl<R> Model for HostFiles<R> {
    ghost use Rattle.std.specs.Prelude.{map, string_bytes};
    ghost use Rattle.ax_io.specs.HostFiles.{HostFilesState};

    ghost Value = { HostFilesState };

    ghost view = { λ h. record {
      asked = map string_bytes h.asked.items;
      faults = h.faults;
      taken = h.taken;
    } };
}

impl<R: rt::Files> HostFiles<R> {
    /// Files that are reached through `rt`, of which none was asked.
    pub fn new(alloc: Global, rt: R) -> HostFiles<R>
        ensures { result ≡ record { asked = []; faults = 0; taken = 0 } }
    {
        HostFiles {
            rt,
            asked: Vec::new(alloc),
            faults: 0,
            taken: 0,
        }
    }
}

impl<R: rt::Files> Files for HostFiles<R> {
    ghost held = { λ _ _. None };

    ghost asked = { λ h. h.asked };

    ghost faults = { λ h. h.faults };

    ghost taken = { λ h. h.taken };

    fn read(&mut self, alloc: Global, name: &str, limit: usize) -> Result<Vec<u8>, FileFault> {
        self.asked.push(String::from_str(alloc, name)?)?;
        let mut bytes = Vec::new(alloc);
        let outcome = match fs::open(&self.rt, name) {
            Ok(mut file) => take_within(&mut file, &mut bytes, limit),
            Err(_) => Err(FileFault::Failed),
        };
        self.taken = bytes.len() as u64;
        match outcome {
            Ok(()) => Ok(bytes),
            Err(FileFault::Failed) => {
                self.faults = self.faults.saturating_add(1);
                Err(FileFault::Failed)
            }
            Err(fault) => Err(fault),
        }
    }
}

/// Takes what the file has left, and stops one byte above the limit with `TooLong`. Each turn takes
/// at least one byte.
fn take_within<F: Read>(file: &mut F, bytes: &mut Vec<u8>, limit: usize) -> Result<(), FileFault>
    requires { bytes.old.items ≡ [] }
    ensures within { OnOk result (vec_len bytes.new ≤ limit) }
    ensures whole { OnOk result (IfSome (F.remaining file.old) (λ xs. bytes.new.items ≡ xs)) }
    ensures long { IsErrOf result FileFault.TooLong → vec_len bytes.new ≡ limit + 1 }
    ensures longer { IsErrOf result FileFault.TooLong → IfSome (F.remaining file.old) (λ xs. limit < length xs) }
    ensures failed { IsErrOf result FileFault.Failed → vec_len bytes.new ≤ limit }
{
    let mut chunk = [0u8; CHUNK];
    while bytes.len() <= limit {
        let room = (limit - bytes.len()).min(CHUNK - 1) + 1;
        match file.read(&mut chunk[..room]) {
            Ok(0) => return Ok(()),
            Ok(n) => bytes.extend_from_slice(&chunk[..n])?,
            Err(_) => return Err(FileFault::Failed),
        }
    }
    Err(FileFault::TooLong)
}
