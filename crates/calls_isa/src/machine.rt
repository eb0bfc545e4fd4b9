//! A machine of two processors, one step after the other.

ghost use Rattle.std.specs.Prelude.{◌≡◌, ◌<◌, ◌^◌};
ghost use Rattle.ax_store.specs.Store.{processors};

use crate::effects::{is_effect, is_paired};
use crate::sets::{Set, effect_of};
use crate::spelled::PLACE;
use ax_isa::{Cpu, Outcome, Role, Status, step_effect};
use ax_map::{FRAME_ROOM, FRAMES_START, GLOBALS_START};
use ax_rows::{Fault, number};
use ax_store::Store;
use std::alloc::{AllocError, Global};

/// Two processors, and a storage of 128 bytes of globals and of two frames of 64 bytes.
#[derive(Drop)]
pub(crate) struct Machine {
    store: Store,
    cpus: [Cpu; 2],
    is_buffered: bool,
    ghost counted: { processors store ≡ 2 },
    ghost kind: { store.buffered ≡ is_buffered },
}

/// What a processor and memory held before a step.
#[derive(Clone, Copy)]
struct Before {
    cpu: Cpu,
    memory: [u64; 32],
}

/// A processor whose registers hold 0.
fn processor() -> Cpu {
    Cpu {
        regs: [0; 32],
        compared: (0, 0),
        half: false,
        place: PLACE,
        status: Status::Running,
        role: Role::None,
    }
}

fn number_in(word: &str) -> Result<u64, Fault> {
    Ok(u64::try_from(number(word)?)?)
}

/// The address of a word of 8 bytes: 16 of the globals, and 8 of each frame.
fn address_of(k: u64) -> u64
    requires { k < 32 }
    ensures { result < 2 ^ 32 }
{
    if k < 16 {
        GLOBALS_START + 8 * k
    } else if k < 24 {
        FRAMES_START + FRAME_ROOM - 64 + 8 * (k - 16)
    } else {
        FRAMES_START + 2 * FRAME_ROOM - 64 + 8 * (k - 24)
    }
}

/// The 8 bytes of memory at an address.
fn word_at(store: &Store, a: u64) -> u64
    requires { a < 2 ^ 32 }
{
    u64::from_le_bytes([
        store.byte(a),
        store.byte(a + 1),
        store.byte(a + 2),
        store.byte(a + 3),
        store.byte(a + 4),
        store.byte(a + 5),
        store.byte(a + 6),
        store.byte(a + 7),
    ])
}

/// All words of memory.
fn words_of(store: &Store) -> [u64; 32] {
    let mut words = [0; 32];
    for k in 0..32u64 {
        words[k as usize] = word_at(store, address_of(k));
    }
    words
}

fn status_word(status: Status) -> &'static str {
    match status {
        Status::Running => "at",
        Status::Ended => "ended at",
        Status::Trapped => "trapped at",
        Status::Stuck => "stuck at",
    }
}

fn push_outcome(out: &mut String, shown: Outcome) -> Result<(), AllocError> {
    if let Some(stored) = shown.stored {
        write!(out, ", stored {stored}")?;
    }
    if let Some(loaded) = shown.loaded {
        write!(out, ", loaded {loaded:#x}")?;
    }
    if let Some(output) = shown.output {
        write!(out, ", output {output:#x}")?;
    }
    Ok(())
}

/// Appends where a processor stands, and what of it has changed. Register 0 of RV64 has no number.
fn push_processor(
    out: &mut String,
    first: usize,
    before: &Cpu,
    after: &Cpu,
) -> Result<(), AllocError> {
    for r in first..32 {
        let number = after.regs[r];
        if before.regs[r] != number {
            write!(out, ", r{r} {number:#x}")?;
        }
    }
    let (left, right) = after.compared;
    if before.compared.0 != left || before.compared.1 != right {
        write!(out, ", compared {left:#x} {right:#x}")?;
    }
    if after.half {
        out.push_str(", half")?;
    }
    Ok(())
}

/// Appends the words of memory that have changed.
fn push_memory(out: &mut String, before: [u64; 32], after: [u64; 32]) -> Result<(), AllocError> {
    for k in 0..32u64 {
        let word = after[k as usize];
        if before[k as usize] != word {
            let address = address_of(k);
            write!(out, ", {address:#x} {word:#x}")?;
        }
    }
    Ok(())
}

/// The first register that has a number.
fn first_register(set: Set) -> usize {
    match set {
        Set::Rv => 1,
        Set::X86 | Set::Arm => 0,
    }
}

impl Machine {
    /// Memory and registers hold 0.
    pub(crate) fn new(alloc: Global, is_buffered: bool) -> Result<Machine, AllocError> {
        Ok(Machine {
            store: Store::new(alloc, GLOBALS_START + 128, [64, 64].as_slice(), is_buffered)?,
            cpus: [processor(), processor()],
            is_buffered,
        })
    }

    /// `R=N` for a register by its number, `@ADDRESS=N` for 8 bytes of memory, `place=N`, and `left=N`
    /// and `right=N` for the numbers last compared.
    fn assign(&mut self, p: u8, word: &str) -> Result<(), Fault>
        requires { p < 2 }
    {
        let (name, number) = word.split_once('=').ok_or(Fault::Row)?;
        let number = number_in(number)?;
        if let Some(address) = name.strip_prefix("@") {
            self.store
                .locked(p, number_in(address)?, 8, |_| Some(number as u128));
            return Ok(());
        }
        let cpu = &mut self.cpus[p as usize];
        match name {
            "place" => cpu.place = u32::try_from(number)?,
            "left" => cpu.compared.0 = number,
            "right" => cpu.compared.1 = number,
            _ => {
                let r = name.parse::<usize>()?;
                if r >= 32 {
                    return Err(Fault::Row);
                }
                cpu.regs[r] = number;
            }
        }
        Ok(())
    }

    /// What processor p has after a step, and what the storage shows.
    fn told(
        &self,
        alloc: Global,
        set: Set,
        p: u8,
        shown: Outcome,
        before: &Before,
    ) -> Result<String, AllocError>
        requires { p < 2 }
    {
        let after = self.cpus[p as usize];
        let mut out = String::new(alloc);
        let (status, place) = (status_word(after.status), after.place);
        write!(out, "{status} {place}")?;
        push_outcome(&mut out, shown)?;
        push_processor(&mut out, first_register(set), &before.cpu, &after)?;
        push_memory(&mut out, before.memory, words_of(&self.store))?;
        self.push_waiting(&mut out, p)?;
        Ok(out)
    }

    /// Appends how many stores of a processor wait, and whether it has a reservation.
    fn push_waiting(&self, out: &mut String, p: u8) -> Result<(), AllocError>
        requires { p < 2 }
    {
        let waiting = self.store.pending(p);
        if waiting > 0 {
            write!(out, ", {waiting} wait")?;
        }
        if self.store.linked(p) {
            out.push_str(", linked")?;
        }
        Ok(())
    }

    /// Processor p, which first gets what the words say, does the instruction that is spelled so.
    pub(crate) fn step(
        &mut self,
        alloc: Global,
        set: Set,
        p: u8,
        words: &[&str],
        spelling: &str,
    ) -> Result<String, Fault>
        requires { p < 2 }
    {
        self.cpus[p as usize].place = PLACE;
        self.cpus[p as usize].status = Status::Running;
        for word in words {
            self.assign(p, word)?;
        }
        let mut cpu = self.cpus[p as usize];
        let memory = words_of(&self.store);
        let before = Before { cpu, memory };
        let effect = effect_of(alloc, set, spelling, &cpu)?;
        self.store.reserve(p, 1)?;
        let spare = self.store.spare(p);
        let needs_reservations = is_paired(&effect);
        if !is_effect(&effect) {
            return Err(Fault::Row);
        }
        if self.is_buffered && (needs_reservations || spare == 0) {
            return Err(Fault::Row);
        }
        let shown = step_effect(&effect, p, &mut cpu, &mut self.store);
        self.cpus[p as usize] = cpu;
        Ok(self.told(alloc, set, p, shown, &before)?)
    }

    /// The words of memory that an event changes, and what of p waits then.
    pub(crate) fn happens(&mut self, alloc: Global, event: &str, p: u8) -> Result<String, Fault>
        requires { p < 2 }
    {
        let memory = words_of(&self.store);
        match event {
            "drain" => {
                let _ = self.store.drain(p);
            }
            "drop" => self.store.drop_reservation(p),
            _ => return Err(Fault::Row),
        }
        let mut out = String::from_str(alloc, event)?;
        push_memory(&mut out, memory, words_of(&self.store))?;
        self.push_waiting(&mut out, p)?;
        Ok(out)
    }
}
