//! Storage, one step after the other.

ghost use Rattle.std.specs.Prelude.{◌≡◌, ◌<◌, ◌↔◌, All, IfOk, IsTrue, false, length};
ghost use Rattle.ax_store.specs.Bytes.{IsWidth};
ghost use Rattle.ax_map.specs.Map.{IsFrameSize, IsGlobalsEnd};
ghost use Rattle.ax_store.specs.Store.{processors};

use ax_map::{FRAME_ROOM, GLOBALS_LIMIT, GLOBALS_START};
use ax_rows::{Fault, number};
use ax_store::{Entry, Store};
use std::alloc::{AllocError, Global};

/// A store, and what its calls ask of their arguments: how many processors it has, and whether
/// stores wait in buffers.
#[derive(Drop)]
pub(crate) struct Storage {
    store: Store,
    count: usize,
    is_buffered: bool,
    ghost counted: { processors store ≡ count },
    ghost kind: { store.buffered ≡ is_buffered },
}

fn end_of(word: &str) -> Result<u64, Fault>
    ensures { IfOk result IsGlobalsEnd }
{
    let end = u64::try_from(number(word)?)?;
    if (GLOBALS_START..=GLOBALS_LIMIT).contains(&end) && end % 16 == 0 {
        Ok(end)
    } else {
        Err(Fault::Row)
    }
}

fn frame_of(word: &str) -> Result<u64, Fault>
    ensures { IfOk result IsFrameSize }
{
    let size = word.parse::<u64>()?;
    if (8..=FRAME_ROOM).contains(&size) && size % 8 == 0 {
        Ok(size)
    } else {
        Err(Fault::Row)
    }
}

fn frames_of(alloc: Global, words: &[&str]) -> Result<Vec<u64>, Fault>
    ensures { IfOk result (λ v. All IsFrameSize v.items) }
{
    let mut frames = Vec::new(alloc);
    for word in words {
        frames.push(frame_of(word)?)?;
    }
    Ok(frames)
}

/// The bytes of an access.
fn bytes_in(n: u128) -> Result<u8, Fault>
    ensures { IfOk result IsWidth }
{
    match n {
        1 => Ok(1),
        2 => Ok(2),
        4 => Ok(4),
        8 => Ok(8),
        16 => Ok(16),
        _ => Err(Fault::Row),
    }
}

fn entry_text(alloc: Global, entry: Option<Entry>) -> Result<String, AllocError> {
    let Some(entry) = entry else {
        return String::from_str(alloc, "none");
    };
    let (address, bytes, value) = (entry.address, entry.bytes, entry.value);
    format!(in alloc; "{bytes} at {address:#x} of {value:#x}")
}

impl Storage {
    /// `END KIND SIZE..`: the end of the globals' region, `buffered` or `plain`, and the size of
    /// each processor's frame.
    pub fn of(alloc: Global, words: &[&str]) -> Result<Storage, Fault> {
        let [end, kind, sizes @ ..] = words else {
            return Err(Fault::Row);
        };
        let end = end_of(end)?;
        let frames = frames_of(alloc, sizes)?;
        let (count, is_buffered) = (frames.len(), *kind == "buffered");
        if count == 0 || count > 8 {
            return Err(Fault::Row);
        }
        Ok(Storage {
            store: Store::new(alloc, end, frames.as_slice(), is_buffered)?,
            count,
            is_buffered,
        })
    }

    /// What a call answers. The first number is a processor, but for calls that name none.
    pub fn answer(&mut self, alloc: Global, call: &str, words: &[&str]) -> Result<String, Fault> {
        let mut numbers = Vec::new(alloc);
        for word in words {
            numbers.push(number(word)?)?;
        }
        match (call, numbers.as_slice()) {
            ("set", [a, b]) => {
                self.store.set(u64::try_from(*a)?, u8::try_from(*b)?);
                Ok(String::from_str(alloc, "done")?)
            }
            ("byte", [a]) => Ok(self.store.byte(u64::try_from(*a)?).to_string(alloc)?),
            ("inside", [a, n]) => {
                let is_inside = self.store.inside(u64::try_from(*a)?, bytes_in(*n)?);
                Ok(is_inside.to_string(alloc)?)
            }
            (_, [p, numbers @ ..]) => {
                let p = u8::try_from(*p)?;
                if p as usize >= self.count {
                    return Err(Fault::Row);
                }
                match call {
                    "link" | "link_half" | "pair_store" | "linked" | "drop_reservation" => {
                        self.reserve_by(alloc, call, p, numbers)
                    }
                    _ => self.step_by(alloc, call, p, numbers),
                }
            }
            _ => Err(Fault::Row),
        }
    }

    /// What a call of a processor answers that has to do with stores that wait.
    fn step_by(
        &mut self,
        alloc: Global,
        call: &str,
        p: u8,
        numbers: &[u128],
    ) -> Result<String, Fault>
        requires { p < self.old.count }
    {
        match (call, numbers) {
            ("reserve", [n]) => self.store.reserve(p, u64::try_from(*n)?)?,
            ("spare", []) => return Ok(self.store.spare(p).to_string(alloc)?),
            ("pending", []) => return Ok(self.store.pending(p).to_string(alloc)?),
            ("load", [a, n]) => {
                let found = self.store.load(p, u64::try_from(*a)?, bytes_in(*n)?);
                return Ok(format!(in alloc; "{found:#x}")?);
            }
            ("store", [a, n, v]) => {
                let (a, n) = (u64::try_from(*a)?, bytes_in(*n)?);
                if self.store.spare(p) == 0 && self.is_buffered {
                    return Err(Fault::Row);
                }
                self.store.store(p, a, n, *v);
            }
            ("add", [a, n, v]) => {
                let (a, n, v) = (u64::try_from(*a)?, bytes_in(*n)?, *v);
                let found = self.store.locked(p, a, n, |old| old.checked_add(v));
                return Ok(format!(in alloc; "{found:#x}")?);
            }
            ("look", [a, n]) => {
                let (a, n) = (u64::try_from(*a)?, bytes_in(*n)?);
                let found = self.store.locked(p, a, n, |_| None);
                return Ok(format!(in alloc; "{found:#x}")?);
            }
            ("fence", []) => self.store.fence(p),
            ("drain", []) => return Ok(entry_text(alloc, self.store.drain(p))?),
            _ => return Err(Fault::Row),
        }
        Ok(String::from_str(alloc, "done")?)
    }

    /// What a call of a processor answers that has to do with its reservation.
    fn reserve_by(
        &mut self,
        alloc: Global,
        call: &str,
        p: u8,
        numbers: &[u128],
    ) -> Result<String, Fault>
        requires { p < self.old.count }
    {
        if self.is_buffered {
            return Err(Fault::Row);
        }
        match (call, numbers) {
            ("link", [a, n]) => {
                let found = self.store.link(p, u64::try_from(*a)?, bytes_in(*n)?);
                Ok(format!(in alloc; "{found:#x}")?)
            }
            ("link_half", [a]) => {
                let found = self.store.link_half(p, u64::try_from(*a)?);
                Ok(format!(in alloc; "{found:#x}")?)
            }
            ("pair_store", [a, n, v]) => {
                let (a, n) = (u64::try_from(*a)?, bytes_in(*n)?);
                Ok(self.store.pair_store(p, a, n, *v).to_string(alloc)?)
            }
            ("linked", []) => Ok(self.store.linked(p).to_string(alloc)?),
            ("drop_reservation", []) => {
                self.store.drop_reservation(p);
                Ok(String::from_str(alloc, "done")?)
            }
            _ => Err(Fault::Row),
        }
    }
}
