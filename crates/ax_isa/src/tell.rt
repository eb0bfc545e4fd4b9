//! Which source event a step gives by its tag.

ghost use Rattle.std.specs.Prelude.{◌≡◌, ◌⊎◌, ℕ, Option, option_to_list};
ghost use Rattle.ax_store.specs.Bytes.{IsWidth};
ghost use Rattle.ax_isa.specs.Effects.{IsEffect};
ghost use Rattle.ax_isa.specs.Processor.{processor_of};
ghost use Rattle.ax_isa.specs.Run.{events_of};
ghost use Rattle.ax_isa.specs.Tells.{act_if, bytes_of, compared_of, given_of, looked, masked_by, role_after, told_of};

use crate::cpu::Cpu;
use crate::effects::{Effect, Outcome};
use crate::locked::cut;
use ax_tags::{Role, Tag};
use ax_words::SourceEvent;

/// A register's number.
fn read(c: &Cpu, r: u8) -> u64
    ensures { result ≡ (processor_of c.now).regs r }
{
    c.regs.get(r as usize).copied().unwrap_or(0)
}

/// The role of a processor after a step.
pub(crate) fn role_after(tag: Tag, e: &Effect, before: Role) -> Role
    ensures { result ≡ role_after tag e.now before }
{
    match (*e, tag) {
        (Effect::CallTo { .. }, Tag::Call(role)) => role,
        (Effect::Return { .. }, _) => Role::None,
        _ => before,
    }
}

/// How many bytes an effect reads.
pub(crate) fn bytes_of(e: &Effect) -> u8
    requires { IsEffect e.now }
    ensures value { result ≡ bytes_of e.now }
    ensures size { (result ≡ 0) ⊎ IsWidth result }
{
    match *e {
        Effect::Load { bytes, .. } | Effect::Locked { bytes, .. } | Effect::Link { bytes, .. } =>
            bytes,
        Effect::LinkHalf { .. } => 8,
        _ => 0,
    }
}

/// A number as the tag of a linked load compares it.
fn masked(mask: Option<u8>, bytes: u8, c: &Cpu, number: u128) -> u128
    requires { (bytes ≡ 0) ⊎ IsWidth bytes }
    ensures { result ≡ masked_by mask bytes (processor_of c.now) number }
{
    match mask {
        None => cut(bytes, number),
        Some(mask) => number & read(c, mask) as u128,
    }
}

/// The event of a linked load.
fn looked(
    weak: bool,
    expected: u8,
    mask: Option<u8>,
    bytes: u8,
    p: u8,
    c: &Cpu,
    loaded: Option<u128>,
) -> Option<SourceEvent>
    requires { (bytes ≡ 0) ⊎ IsWidth bytes }
    ensures { option_to_list result ≡ events_of p (looked weak expected mask bytes (processor_of c.now) loaded) }
{
    let number = loaded?;
    let sought = read(c, expected) as u128;
    if masked(mask, bytes, c, number) != masked(mask, bytes, c, sought) {
        Some(SourceEvent::Act(p))
    } else if weak {
        Some(SourceEvent::Look(p))
    } else {
        None
    }
}

/// The `Act` of p, or nothing.
fn act_if(p: u8, acts: bool) -> Option<SourceEvent>
    ensures { option_to_list result ≡ events_of p (act_if acts) }
{
    if acts {
        Some(SourceEvent::Act(p))
    } else {
        None
    }
}

/// The event of a step in no call, or in one that is a whole operation.
fn told(tag: Tag, bytes: u8, p: u8, c: &Cpu, o: Outcome) -> Option<SourceEvent>
    requires { (bytes ≡ 0) ⊎ IsWidth bytes }
    ensures { option_to_list result ≡ events_of p (told_of tag bytes (processor_of c.now) o) }
{
    let stored = o.stored.unwrap_or(false);
    match tag {
        Tag::Silent | Tag::Call(_) => None,
        Tag::Act | Tag::Free { .. } => Some(SourceEvent::Act(p)),
        Tag::Stored | Tag::Back => act_if(p, stored),
        Tag::StoredOrMiss if stored => Some(SourceEvent::Act(p)),
        Tag::StoredOrMiss => Some(SourceEvent::Miss(p)),
        Tag::Linked {
            weak,
            expected,
            mask,
        } => looked(weak, expected, mask, bytes, p, c, o.loaded),
    }
}

/// The event of a step in a call that only compares.
fn compared(tag: Tag, p: u8, c: &Cpu, o: Outcome) -> Option<SourceEvent>
    ensures { option_to_list result ≡ events_of p (compared_of tag (processor_of c.now) o) }
{
    match tag {
        Tag::Silent | Tag::Back | Tag::Linked { .. } | Tag::Call(_) => None,
        Tag::Act | Tag::Stored | Tag::StoredOrMiss => act_if(p, o.stored.unwrap_or(false)),
        Tag::Free { stored: None } => None,
        Tag::Free { stored: Some(r) } => act_if(p, read(c, r) != 0),
    }
}

/// The source event of a step of processor p with this tag, which read so many bytes. Registers
/// and the role are those before the step.
pub(crate) fn given(tag: Tag, bytes: u8, p: u8, c: &Cpu, o: Outcome) -> Option<SourceEvent>
    requires { (bytes ≡ 0) ⊎ IsWidth bytes }
    ensures { option_to_list result ≡ events_of p (given_of tag bytes (processor_of c.now) o) }
{
    match c.role {
        Role::None | Role::Whole => told(tag, bytes, p, c, o),
        Role::Probe => None,
        Role::Compare => compared(tag, p, c, o),
    }
}
