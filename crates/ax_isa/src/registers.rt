//! Registers and places of a processor, as the effects change them.

ghost use Rattle.std.specs.Prelude.{◌≡◌, ◌<◌, ◌≤◌, ◌+◌, ◌*◌, ◌^◌, true};
ghost use Rattle.ax_store.specs.Bytes.{IsWidth};
ghost use Rattle.ax_store.specs.Storage.{at_place};
ghost use Rattle.ax_isa.specs.Effects.{FitsRegister, IsRegister};
ghost use Rattle.ax_isa.specs.Processor.{processor_of};
ghost use Rattle.ax_isa.specs.Steps.{extended, go_on, go_to, go_with, is_place, taken, with_half, with_regs};

use crate::cpu::Cpu;
use crate::effects::Rest;
use crate::numbers::extended_by_sign;

/// Where a number of so many bytes goes: one register, or of 16 bytes two, low first.
#[derive(Clone, Copy)]
pub(crate) struct Destination {
    pub(crate) to: u8,
    pub(crate) high: u8,
    pub(crate) bytes: u8,
    pub(crate) rest: Rest,
}

/// Goes to a place.
pub(crate) fn go_to(c: &mut Cpu, place: u32)
    ensures { processor_of c.new ≡ go_to place (processor_of c.old) }
{
    c.place = place;
}

/// Is it between the steps of a linked load of 16 bytes?
pub(crate) fn set_half(c: &mut Cpu, half: bool)
    ensures { processor_of c.new ≡ with_half half (processor_of c.old) }
{
    c.half = half;
}

/// Goes to the next place.
pub(crate) fn go_on(c: &mut Cpu)
    requires { is_place (c.old.place + 1) ≡ true }
    ensures { processor_of c.new ≡ go_on (processor_of c.old) }
{
    c.place += 1;
}

/// Puts a number in a register.
#[tactic(auto, using(crate::proofs::RegisterLemmas::register_set))]
pub(crate) fn set(c: &mut Cpu, to: u8, number: u64)
    requires { IsRegister to }
    ensures { processor_of c.new ≡ with_regs (at_place (processor_of c.old).regs to number) c.old.place (processor_of c.old) }
{
    c.regs[to as usize] = number;
}

/// Puts a number in a register, and goes to the next place.
pub(crate) fn go_with(c: &mut Cpu, to: u8, number: u64)
    requires register { IsRegister to }
    requires place { is_place (c.old.place + 1) ≡ true }
    ensures { processor_of c.new ≡ go_with to number (processor_of c.old) }
{
    set(c, to, number);
    go_on(c);
}

/// A number of so many bytes in a register of 8 that held another.
fn extended(bytes: u8, rest: Rest, before: u64, number: u64) -> u64
    requires width { FitsRegister bytes }
    requires fits { number < 2 ^ (8 * bytes) }
    ensures { result ≡ extended bytes rest before number }
{
    match rest {
        Rest::Zeros => number,
        Rest::Signs => extended_by_sign(bytes, number),
        Rest::Stays => over(bytes, before, number),
    }
}

/// A number with its low bytes replaced.
fn over(bytes: u8, before: u64, number: u64) -> u64
    requires width { FitsRegister bytes }
    requires fits { number < 2 ^ (8 * bytes) }
    ensures { result ≡ extended bytes Rest.Stays before number }
{
    match bytes {
        1 => before - before % 0x100 + number,
        2 => before - before % 0x1_0000 + number,
        4 => before - before % 0x1_0000_0000 + number,
        _ => number,
    }
}

/// Puts a number where it goes.
pub(crate) fn take(c: &mut Cpu, d: Destination, number: u128)
    requires to { IsRegister d.to }
    requires high { IsRegister d.high }
    requires width { IsWidth d.bytes }
    requires fits { number < 2 ^ (8 * d.bytes) }
    ensures { processor_of c.new ≡ with_regs (taken d.bytes d.to d.high d.rest number (processor_of c.old).regs) c.old.place (processor_of c.old) }
{
    if d.bytes == 16 {
        set(c, d.to, (number % 0x1_0000_0000_0000_0000) as u64);
        set(c, d.high, (number / 0x1_0000_0000_0000_0000) as u64);
    } else {
        let before = c.regs[d.to as usize];
        set(c, d.to, extended(d.bytes, d.rest, before, number as u64));
    }
}
