//! One step, on a processor whose registers hold 0 and a storage whose globals hold 5 and 0.

ghost use Rattle.std.specs.Prelude.{◌≡◌, ◌≤◌, false, IfOk};
ghost use Rattle.ax_isa.specs.Effects.{IsEffect};
ghost use Rattle.ax_store.specs.Bytes.{IsWidth};
ghost use Rattle.ax_store.specs.Store.{processors};

use ax_isa::{Back, Change, Cpu, Effect, Outcome, Rest, Role, Status, step_effect};
use ax_map::GLOBALS_START;
use ax_rows::{Fault, number};
use ax_store::Store;
use ax_words::RmwOp;
use std::alloc::{AllocError, Global};

/// The bytes of an access of one register.
fn bytes_in(word: &str) -> Result<u8, Fault>
    ensures width { IfOk result IsWidth }
    ensures most { IfOk result (λ n. n ≤ 8) }
{
    match word {
        "1" => Ok(1),
        "2" => Ok(2),
        "4" => Ok(4),
        "8" => Ok(8),
        _ => Err(Fault::Row),
    }
}

fn number_in(word: &str) -> Result<u64, Fault> {
    Ok(u64::try_from(number(word)?)?)
}

/// The effect of its words; register 5 is the one that gets a number.
fn effect(words: &[&str]) -> Result<Effect, Fault>
    ensures { IfOk result IsEffect }
{
    match words {
        ["load", address, bytes] => Ok(Effect::Load {
            to: 5,
            address: number_in(address)?,
            bytes: bytes_in(bytes)?,
            rest: Rest::Zeros,
            ends_half: false,
        }),
        ["store", address, bytes, number] => Ok(Effect::Store {
            address: number_in(address)?,
            bytes: bytes_in(bytes)?,
            number: number_in(number)?,
        }),
        ["add", address, bytes, number] => Ok(Effect::Locked {
            to: 5,
            high: 0,
            address: number_in(address)?,
            bytes: bytes_in(bytes)?,
            rest: Rest::Zeros,
            change: Change::Update {
                op: RmwOp::Add,
                number: number_in(number)?,
            },
        }),
        ["return", place] => Ok(Effect::Return {
            back: Back::Place(number_in(place)?),
        }),
        ["output", number] => Ok(Effect::Output {
            number: number_in(number)?,
        }),
        _ => Err(Fault::Row),
    }
}

fn push_outcome(out: &mut String, shown: Outcome) -> Result<(), AllocError> {
    if let Some(stored) = shown.stored {
        write!(out, "stored {stored}, ")?;
    }
    if let Some(loaded) = shown.loaded {
        write!(out, "loaded {loaded:#x}, ")?;
    }
    if let Some(output) = shown.output {
        write!(out, "output {output}, ")?;
    }
    Ok(())
}

fn status_word(status: Status) -> &'static str {
    match status {
        Status::Running => "running",
        Status::Ended => "ended",
        Status::Trapped => "trapped",
        Status::Stuck => "stuck",
    }
}

/// A storage of 16 bytes of globals that hold 5 and 0, and of one frame of 8 bytes.
fn storage(alloc: Global) -> Result<Store, Fault>
    ensures plain { IfOk result (λ s. s.buffered ≡ false) }
    ensures one { IfOk result (λ s. processors s ≡ 1) }
{
    let mut storage = Store::new(alloc, GLOBALS_START + 16, [8].as_slice(), false)?;
    storage.set(GLOBALS_START, 5);
    Ok(storage)
}

fn processor(place: u32) -> Cpu {
    Cpu {
        regs: [0; 32],
        compared: (0, 0),
        half: false,
        place,
        status: Status::Running,
        role: Role::None,
    }
}

/// What a step showed, and then the place, the status, register 5 and the bytes of the globals.
fn told(alloc: Global, shown: Outcome, cpu: &Cpu, memory: u128) -> Result<String, AllocError> {
    let mut out = String::new(alloc);
    push_outcome(&mut out, shown)?;
    let (place, status, register) = (cpu.place, status_word(cpu.status), cpu.regs[5]);
    write!(
        out,
        "place {place} {status}, register {register:#x}, memory {memory:#x}"
    )?;
    Ok(out)
}

/// One step from a place.
pub(crate) fn stepped(alloc: Global, place: &str, words: &[&str]) -> Result<String, Fault> {
    let effect = effect(words)?;
    let mut storage = storage(alloc)?;
    let mut cpu = processor(u32::try_from(number(place)?)?);
    let shown = step_effect(&effect, 0, &mut cpu, &mut storage);
    Ok(told(alloc, shown, &cpu, storage.load(0, GLOBALS_START, 16))?)
}
