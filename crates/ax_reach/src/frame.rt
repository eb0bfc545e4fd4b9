//! The frame of a function.

ghost use Rattle.std.specs.Prelude.{◌≡◌, ◌≤◌, IfOk, slice_index_or};
ghost use Rattle.ax_reach.specs.Frames.{bytes_in, frame_bytes, frame_of};

use ax_rules::Outcome;
use ax_words::Items;
use std::alloc::{AllocError, Global};

/// Where the alloca of each instruction lies in the frame, by the instruction's number, and the
/// bytes of all.
#[derive(Drop)]
pub struct Frame {
    offsets: Items<u32>,
    bytes: u32,
}

/// The bytes of an instruction's alloca, rounded up to 16.
fn rounded(outcome: Outcome) -> u32
    requires { bytes_in outcome ≤ 32768 }
    ensures { result ≡ bytes_in outcome }
{
    match outcome {
        Outcome::Alloca(e) => {
            ((u128::from(e.count) * u128::from(e.elem.bytes())).div_ceil(16) * 16) as u32
        }
        _ => 0,
    }
}

impl Frame {
    /// The frame of a function by what its instructions' results are: their allocas one after the
    /// other, in at most 32,768 bytes.
    pub fn of(alloc: Global, outcomes: &[Outcome]) -> Result<Frame, AllocError>
        requires { frame_bytes outcomes.now ≤ 32768 }
        ensures { IfOk result (λ frame. frame ≡ frame_of outcomes.now) }
    {
        let mut offsets = Vec::with_capacity(alloc, outcomes.len())?;
        let mut bytes = 0;
        for outcome in outcomes {
            offsets.push(bytes)?;
            bytes += rounded(*outcome);
        }
        Ok(Frame {
            offsets: Items::of(offsets),
            bytes,
        })
    }

    /// The offset of instruction `r`'s alloca; past the last instruction it is the end.
    pub fn offset(&self, r: u32) -> u32
        ensures { result ≡ slice_index_or self.now.offsets r self.now.bytes }
    {
        self.offsets
            .as_slice()
            .get(r as usize)
            .copied()
            .unwrap_or(self.bytes)
    }
}
