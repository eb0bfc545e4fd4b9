//! One step of a processor at its place of the code.

ghost use Rattle.std.specs.Prelude.{◌≡◌, ◌<◌, ◌⊎◌, ℕ, List, true, false, Some, option_map, option_to_list, slice_get};
ghost use Rattle.ax_store.specs.Bytes.{IsWidth};
ghost use Rattle.ax_store.specs.Store.{HasRoom, processors, storage_of};
ghost use Rattle.ax_tags.specs.declared.tags.Tag.{Tag as Tagged};
ghost use Rattle.ax_isa.specs.Past.{Past, noted};
ghost use Rattle.ax_isa.specs.Processor.{processor_of};
ghost use Rattle.ax_isa.specs.Run.{at_code, events_of, flushing, setting_of, tag_at};
ghost use Rattle.ax_isa.specs.Stepping.{IsStepAt};
ghost use Rattle.ax_isa.specs.Steps.{is_flushing, no_outcome, with_status};
ghost use Rattle.ax_isa.specs.Tells.{Library, given_of};

use crate::cpu::{Cpu, Status};
use crate::effects::Effect;
use crate::isa::Isa;
use crate::performing::{is_possible, no_outcome, perform};
use crate::shown::Shown;
use crate::tell::{bytes_of, given, role_after};
use ax_store::Store;
use ax_tags::Tag;

/// The item at a place, which counts from 1.
#[tactic(auto, using(crate::proofs::Places::at_place))]
pub fn at_place<T>(items: &[T], place: u32) -> Option<&T>
    ensures { option_map (λ x. x.now) result ≡ at_code items.now place }
{
    if place == 0 {
        return None;
    }
    items.get(place as usize - 1)
}

/// The tag at a place. A place without an instruction is silent.
fn tag_at(tags: &[Tag], place: u32) -> Tag
    ensures { result ≡ tag_at tags.now place }
{
    match at_place(tags, place) {
        Some(tag) => *tag,
        None => Tag::Silent,
    }
}

fn is_flushing(e: &Effect) -> bool
    ensures { result ≡ is_flushing e.now }
{
    matches!(*e, Effect::Locked { .. } | Effect::Fence)
}

/// Whether the next step of processor p first sends its waiting stores to memory.
pub fn flushes<I: Isa>(code: &[I::Instr], p: u8, c: &Cpu, s: &Store) -> bool
    requires instructions { (j : ℕ) (i : I.Instr) → slice_get code.now j ≡ Some i → I.valid i }
    requires in_range { p < processors s.now }
    ensures { (tags : List Tagged) (library : Library) (past : Past) → result ≡ flushing (setting_of I.kind code.now tags library) p (processor_of c.now) (noted (storage_of s.now) past) }
{
    match at_place(code, c.place) {
        Some(i) => {
            let e = I::effect(i, c);
            is_flushing(&e) && is_possible(&e, p, c, s)
        }
        None => false,
    }
}

/// A step that ends in Stuck.
fn get_stuck(tag: Tag, p: u8, c: &mut Cpu) -> Shown
    ensures processor { processor_of c.new ≡ with_status Status.Stuck (processor_of c.old) }
    ensures outcome { result.outcome ≡ no_outcome }
    ensures gives { option_to_list result.gives ≡ events_of p (given_of tag 0 (processor_of c.old) no_outcome) }
{
    let outcome = no_outcome();
    let gives = given(tag, 0, p, c, outcome);
    c.status = Status::Stuck;
    Shown { outcome, gives }
}

/// One step of processor p, which is running, at its place of the code: its instruction's effect,
/// the role that its tag leaves, and the source event that its tag gives. The processor is stuck
/// where its place has no instruction.
pub fn step<I: Isa>(code: &[I::Instr], tags: &[Tag], p: u8, c: &mut Cpu, s: &mut Store) -> Shown
    requires instructions { (j : ℕ) (i : I.Instr) → slice_get code.now j ≡ Some i → I.valid i }
    requires in_range { p < processors s.old }
    requires kind { s.old.buffered ≡ (I.kind).buffered }
    requires room { HasRoom s.old p }
    ensures { IsStepAt I.kind code.now tags.now p (processor_of c.old) (processor_of c.new) s.old s.new result }
{
    let before = *c;
    let tag = tag_at(tags, before.place);
    let Some(i) = at_place(code, before.place) else {
        return get_stuck(tag, p, c);
    };
    let e = I::effect(i, &before);
    if !is_possible(&e, p, &before, s) {
        return get_stuck(tag, p, c);
    }
    let outcome = perform(&e, p, c, s);
    c.role = role_after(tag, &e, c.role);
    Shown {
        outcome,
        gives: given(tag, bytes_of(&e), p, &before, outcome),
    }
}
