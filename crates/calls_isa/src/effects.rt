//! Which effects a machine of rows applies.

ghost use Rattle.std.specs.Prelude.{◌≡◌, ◌≤◌, Bool, IfOk, true, false};
ghost use Rattle.ax_store.specs.Bytes.{IsWidth, is_width};
ghost use Rattle.ax_isa.specs.Effects.{FitsChange, FitsRegister, IsBack, IsEffect, IsSaved, is_paired};

use ax_isa::{Back, Change, Effect, Saved};
use ax_rows::Fault;

fn is_width(bytes: u8) -> bool
    ensures { result ≡ is_width bytes }
{
    bytes == 1 || bytes == 2 || bytes == 4 || bytes == 8 || bytes == 16
}

fn fits_register(bytes: u8) -> bool
    ensures { result ≡ true → FitsRegister bytes }
{
    bytes <= 8 && is_width(bytes)
}

fn fits_change(bytes: u8, change: Change) -> bool
    ensures { result ≡ true → FitsChange bytes change }
{
    match change {
        Change::Update { .. } => fits_register(bytes),
        Change::Exchange { .. } => is_width(bytes),
    }
}

fn is_saved(saved: Saved) -> bool
    ensures { result ≡ true → IsSaved saved }
{
    match saved {
        Saved::Register(r) => r < 32,
        Saved::Stack { pointer, .. } => pointer < 32,
    }
}

fn is_back(back: Back) -> bool
    ensures { result ≡ true → IsBack back }
{
    match back {
        Back::Place(_) => true,
        Back::Stack { pointer, .. } => pointer < 32,
    }
}

/// Whether the registers and sizes of an effect are in their ranges.
pub(crate) fn is_effect(e: &Effect) -> bool
    ensures { result ≡ true → IsEffect e.now }
{
    match *e {
        Effect::Load { to, bytes, .. } | Effect::Link { to, bytes, .. } => {
            to < 32 && fits_register(bytes)
        }
        Effect::Store { bytes, .. } => is_width(bytes),
        Effect::Locked {
            to,
            high,
            bytes,
            change,
            ..
        } => to < 32 && high < 32 && fits_change(bytes, change),
        Effect::PairStore { to, bytes, .. } => to < 32 && is_width(bytes),
        Effect::Set { to, .. } | Effect::LinkHalf { to, .. } => to < 32,
        Effect::CallTo { saved, .. } => is_saved(saved),
        Effect::Return { back } => is_back(back),
        Effect::Compare { .. } | Effect::Fence | Effect::Jump { .. } => true,
        Effect::Output { .. } | Effect::Trap | Effect::Nop => true,
    }
}

/// Whether an effect needs reservations.
pub(crate) fn is_paired(e: &Effect) -> bool
    ensures { result ≡ is_paired e.now }
{
    matches!(
        *e,
        Effect::Link { .. } | Effect::LinkHalf { .. } | Effect::PairStore { .. }
    )
}
