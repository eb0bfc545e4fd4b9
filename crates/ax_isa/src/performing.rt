//! One step of a processor: the effect of an instruction, applied to it and to the storage.

ghost use Rattle.std.specs.Prelude.{◌&&◌, ◌≡◌, ◌<◌, ◌≤◌, ◌+◌, ◌*◌, ◌%◌, ◌^◌, ℕ, Bool, true, false};
ghost use Rattle.ax_store.specs.Bytes.{IsWidth};
ghost use Rattle.ax_store.specs.Storage.{load};
ghost use Rattle.ax_store.specs.Store.{HasRoom, Kept, processors, spare_of, storage_of};
ghost use Rattle.ax_isa.specs.Effects.{IsBack, IsEffect, IsSaved, is_paired, spared_by};
ghost use Rattle.ax_isa.specs.Past.{Past, noted};
ghost use Rattle.ax_isa.specs.Processor.{processor_of};
ghost use Rattle.ax_isa.specs.Stepping.{IsStepped};
ghost use Rattle.ax_isa.specs.Steps.{back_place, called_from, can_call, can_return, effected, go_back, is_place, may_access, no_outcome, popped, possible, readied, saved_place};

use crate::cpu::{Cpu, Status};
use crate::effects::{Back, Effect, Outcome, Saved};
use crate::locked::{change, exchange};
use crate::registers::{Destination, go_on, go_to, go_with, set, set_half, take};
use ax_store::Store;

/// Is it a place that a processor can go to?
fn is_place(place: u64) -> bool
    ensures { result ≡ is_place place }
{
    place <= u32::MAX as u64
}

/// Whether there is a next place.
fn has_next(c: &Cpu) -> bool
    ensures { result ≡ is_place ((processor_of c.now).place + 1) }
{
    c.place < u32::MAX
}

/// Whether an access is aligned and lies in the regions.
fn may_access(s: &Store, address: u64, bytes: u8) -> bool
    requires { IsWidth bytes }
    ensures { result ≡ may_access address bytes (storage_of s.now) }
{
    address.is_multiple_of(bytes as u64) && s.inside(address, bytes)
}

/// Whether a call can keep its return place.
fn can_call(saved: Saved, s: &Store) -> bool
    ensures { result ≡ can_call saved (storage_of s.now) }
{
    match saved {
        Saved::Register(_) => true,
        Saved::Stack { address, .. } => may_access(s, address, 8),
    }
}

/// The place that a return goes to.
fn back_place(p: u8, back: Back, s: &Store) -> u64
    requires { p < processors s.now }
    ensures { result ≡ back_place p back (storage_of s.now) }
{
    match back {
        Back::Place(place) => place,
        Back::Stack { address, .. } => s.load(p, address, 8) as u64,
    }
}

/// Whether a return can read its place.
fn can_return(back: Back, s: &Store) -> bool
    ensures { result ≡ can_return back (storage_of s.now) }
{
    match back {
        Back::Place(_) => true,
        Back::Stack { address, .. } => may_access(s, address, 8),
    }
}

/// Whether a step of processor p can have this effect.
pub(crate) fn is_possible(e: &Effect, p: u8, c: &Cpu, s: &Store) -> bool
    requires in_range { p < processors s.now }
    requires effect { IsEffect e.now }
    ensures { result ≡ possible p e.now (processor_of c.now) (storage_of s.now) }
{
    match *e {
        Effect::Load { address, bytes, .. }
        | Effect::Store { address, bytes, .. }
        | Effect::Locked { address, bytes, .. }
        | Effect::Link { address, bytes, .. }
        | Effect::PairStore { address, bytes, .. } => has_next(c) && may_access(s, address, bytes),
        Effect::LinkHalf { address, .. } => may_access(s, address, 16),
        Effect::Jump { place } => is_place(place),
        Effect::CallTo { place, saved } => is_place(place) && has_next(c) && can_call(saved, s),
        Effect::Return { back } => is_place(back_place(p, back, s)) && can_return(back, s),
        Effect::Trap => true,
        Effect::Set { .. }
        | Effect::Compare { .. }
        | Effect::Fence
        | Effect::Output { .. }
        | Effect::Nop => has_next(c),
    }
}

pub(crate) fn no_outcome() -> Outcome
    ensures { result ≡ no_outcome }
{
    Outcome {
        stored: None,
        loaded: None,
        output: None,
    }
}

/// Keeps the return place of a call, and goes to the place that is called.
fn call_to(p: u8, c: &mut Cpu, s: &mut Store, place: u32, saved: Saved)
    requires in_range { p < processors s.old }
    requires saved { IsSaved saved }
    requires room { HasRoom s.old p }
    requires next { is_place (c.old.place + 1) ≡ true }
    ensures processor { processor_of c.new ≡ called_from place saved (processor_of c.old) }
    ensures storage { (past : Past) → storage_of s.new ≡ (saved_place s.old.buffered p saved (c.old.place + 1) (noted (storage_of s.old) past)).storage }
    ensures spares { spare_of s.new ≡ spared_by (Effect.CallTo place saved) s.old.buffered p (spare_of s.old) }
    ensures kept { Kept s.old s.new }
{
    let next = c.place as u64 + 1;
    match saved {
        Saved::Register(to) => {
            set(c, to, next);
            go_to(c, place);
        }
        Saved::Stack { pointer, address } => {
            s.store(p, address, 8, next as u128);
            set(c, pointer, address);
            go_to(c, place);
        }
    }
}

/// Takes the return place off the stack, where it is there.
fn pop(c: &mut Cpu, back: Back)
    requires { IsBack back }
    ensures { processor_of c.new ≡ popped back (processor_of c.old) }
{
    match back {
        Back::Place(_) => {}
        Back::Stack { pointer, address } => set(c, pointer, address.wrapping_add(8)),
    }
}

/// Goes back to a place, or ends at place 0.
fn go_back(c: &mut Cpu, place: u32)
    ensures { processor_of c.new ≡ go_back place (processor_of c.old) }
{
    c.place = place;
    if place == 0 {
        c.status = Status::Ended;
    }
}

/// Applies an effect that is possible.
pub(crate) fn perform(e: &Effect, p: u8, c: &mut Cpu, s: &mut Store) -> Outcome
    requires in_range { p < processors s.old }
    requires effect { IsEffect e.now }
    requires room { HasRoom s.old p }
    requires plain { s.old.buffered ≡ true → is_paired e.now ≡ false }
    requires possible { possible p e.now (processor_of c.old) (storage_of s.old) ≡ true }
    ensures processor { (past : Past) → processor_of c.new ≡ (effected s.old.buffered p e.now (processor_of c.old) (readied p e.now (processor_of c.old) (noted (storage_of s.old) past))).processor }
    ensures storage { (past : Past) → storage_of s.new ≡ (effected s.old.buffered p e.now (processor_of c.old) (readied p e.now (processor_of c.old) (noted (storage_of s.old) past))).noted.storage }
    ensures outcome { (past : Past) → result ≡ (effected s.old.buffered p e.now (processor_of c.old) (readied p e.now (processor_of c.old) (noted (storage_of s.old) past))).outcome }
    ensures spares { spare_of s.new ≡ spared_by e.now s.old.buffered p (spare_of s.old) }
    ensures kept { Kept s.old s.new }
{
    let mut outcome = no_outcome();
    match *e {
        Effect::Set { to, number } => go_with(c, to, number),
        Effect::Compare { left, right } => {
            c.compared = (left, right);
            go_on(c);
        }
        Effect::Load {
            to,
            address,
            bytes,
            rest,
            ends_half,
        } => {
            let number = s.load(p, address, bytes);
            take(
                c,
                Destination {
                    to,
                    high: to,
                    bytes,
                    rest,
                },
                number,
            );
            go_on(c);
            set_half(c, c.half && !ends_half);
            outcome.loaded = Some(number);
        }
        Effect::Store {
            address,
            bytes,
            number,
        } => {
            s.store(p, address, bytes, number as u128);
            go_on(c);
        }
        Effect::Locked {
            to,
            high,
            address,
            bytes,
            rest,
            change: by,
        } => {
            let (old, wrote) = change(s, p, address, bytes, by);
            exchange(
                c,
                Destination {
                    to,
                    high,
                    bytes,
                    rest,
                },
                by,
                old,
            );
            outcome.stored = Some(wrote);
            outcome.loaded = Some(old);
        }
        Effect::Fence => {
            s.fence(p);
            go_on(c);
        }
        Effect::Link {
            to,
            address,
            bytes,
            rest,
        } => {
            let number = s.link(p, address, bytes);
            take(
                c,
                Destination {
                    to,
                    high: to,
                    bytes,
                    rest,
                },
                number,
            );
            go_on(c);
            outcome.loaded = Some(number);
        }
        Effect::LinkHalf { to, address } => {
            let number = s.link_half(p, address);
            set(c, to, number);
            set_half(c, true);
            outcome.loaded = Some(number as u128);
        }
        Effect::PairStore {
            to,
            address,
            bytes,
            number,
        } => {
            let wrote = s.pair_store(p, address, bytes, number);
            go_with(c, to, if wrote { 0 } else { 1 });
            outcome.stored = Some(wrote);
        }
        Effect::Jump { place } => go_to(c, place as u32),
        Effect::CallTo { place, saved } => call_to(p, c, s, place as u32, saved),
        Effect::Return { back } => {
            let place = back_place(p, back, s);
            pop(c, back);
            go_back(c, place as u32);
        }
        Effect::Output { number } => {
            go_on(c);
            outcome.output = Some(number);
        }
        Effect::Trap => c.status = Status::Trapped,
        Effect::Nop => go_on(c),
    }
    outcome
}

/// Applies an effect to processor p and the storage, and gives what the step shows. A locked effect
/// and a fence first send p's waiting stores to memory. Where the effect is not possible, by a
/// misaligned access, an access outside the regions, or a place to go to that is no number below
/// 2^32, the processor is stuck and nothing else changes.
pub fn step_effect(e: &Effect, p: u8, c: &mut Cpu, s: &mut Store) -> Outcome
    requires in_range { p < processors s.old }
    requires effect { IsEffect e.now }
    requires room { HasRoom s.old p }
    requires plain { s.old.buffered ≡ true → is_paired e.now ≡ false }
    ensures { IsStepped p e.now (processor_of c.old) (processor_of c.new) s.old s.new result }
{
    if !is_possible(e, p, c, s) {
        c.status = Status::Stuck;
        return no_outcome();
    }
    perform(e, p, c, s)
}
