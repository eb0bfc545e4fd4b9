//! The image of a module's middle code.

ghost use Rattle.std.specs.Prelude.{◌≡◌, ◌≤◌, ◌<◌, ◌^◌, ℕ, IfOk, Some, length, map, slice_get};
ghost use Rattle.ax_mid.specs.declared.code.Line.{Line};
ghost use Rattle.ax_mid.specs.declared.registers.Virtual.{Virtual};
ghost use Rattle.ax_emit.specs.Behind.{behind_in};
ghost use Rattle.ax_emit.specs.Passes.{HaveSizes, place_end, placed};
ghost use Rattle.ax_image.specs.Entries.{entries_at};
ghost use Rattle.ax_image.specs.Image.{Coded, IsGiven, image};

use ax_emit::{Labels, LineEmitter, emit, places_agree, site_ranges};
use ax_isa::Image;
use ax_mid::{Line, Virtual};
use ax_module::Function;
use ax_pieces::block_label;
use ax_words::Items;
use std::alloc::{AllocError, Global};

/// The place of a line; where there is no line, 0.
fn place_at(places: &[u32], line: u32) -> u32
    ensures { result ≡ placed places.now line }
{
    places.get(line as usize).copied().unwrap_or(0)
}

/// The place at which each function begins.
fn entries(
    alloc: Global,
    functions: &[Function],
    labels: &Labels,
    places: &[u32],
) -> Result<Vec<u32>, AllocError>
    requires { length functions.now ≤ 64 }
    ensures { IfOk result (λ v. v.items ≡ entries_at (behind_in labels.now) places.now 0 functions.now) }
{
    let mut entries = Vec::with_capacity(alloc, functions.len())?;
    for f in 0..functions.len() as u32 {
        let line = labels.behind(block_label(f, 0));
        entries.push(place_at(places, line))?;
    }
    Ok(entries)
}

/// The bytes of each function's frame.
fn frames(alloc: Global, functions: &[Function], bytes: u64) -> Result<Vec<u64>, AllocError>
    ensures { IfOk result (λ v. v.items ≡ map (λ f. bytes) functions.now) }
{
    let mut frames = Vec::with_capacity(alloc, functions.len())?;
    for _ in functions {
        frames.push(bytes)?;
    }
    Ok(frames)
}

/// The image of a module's middle code, with these lines, labels that stand there, and a frame of so
/// many bytes for each function: of each coding that the emitter's code is of, and each module that
/// these are of. Each line's code has one size wherever it stands. The only error is memory.
pub fn image_of<E: LineEmitter<Register = Virtual>>(
    alloc: Global,
    emitter: &E,
    lines: &[Line<Virtual>],
    labels: &Labels,
    functions: &[Function],
    frame_bytes: u64,
) -> Result<Image<E::Instr>, AllocError>
where
    E::Instr: Drop,
    requires count { length functions.now ≤ 64 }
    requires taken { (j : ℕ) (line : Line Virtual) → slice_get lines.now j ≡ Some line → E.takes emitter.now line }
    requires sized { HaveSizes (E.size_of emitter.now) (E.code_of emitter.now) lines.now }
    requires few { place_end (E.size_of emitter.now) 1 lines.now < 2 ^ 31 }
    ensures { IfOk result (λ r. (x : Coded E.Instr) → IsGiven x (E.size_of emitter.now) (E.code_of emitter.now) lines.now (behind_in labels.now) functions.now frame_bytes → r ≡ image x.coding x.program) }
{
    places_agree::<E::Instr, Virtual>();
    let emitted = emit(alloc, emitter, lines)?;
    let places = emitted.places.as_slice();
    let sites = site_ranges(alloc, lines, places)?;
    let entries = entries(alloc, functions, labels, places)?;
    let frames = frames(alloc, functions, frame_bytes)?;
    Ok(Image {
        code: Items::of(emitted.code),
        tags: Items::of(emitted.tags),
        sites: Items::of(sites),
        routines: Items::of(Vec::new(alloc)),
        entries: Items::of(entries),
        frames: Items::of(frames),
    })
}
