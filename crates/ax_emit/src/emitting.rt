//! Emission in two passes: where the code of each line begins, and then the code, whose jumps are
//! at their places from the start.

ghost use Rattle.std.specs.Prelude.{◌≡◌, ◌<◌, ◌+◌, ◌^◌, ◌++◌, ℕ, All, List, IfOk, OnOk, Some, map, slice_get};
ghost use Rattle.ax_emit.specs.Passes.{HasSize, HaveSizes, place_end, placed, places_from, tags_of};
ghost use Rattle.ax_fine.specs.Fine.{is_quiet};
ghost use Rattle.ax_emit.specs.Images.{code_in, image_of};
ghost use Rattle.ax_expand.specs.Standing.{hush};
ghost use Rattle.ax_mid.specs.declared.code.Line.{Line};
ghost use Rattle.ax_tags.specs.declared.tags.Tag.{Tag};

use ax_mid::Line;
use ax_tags::Tag;
use std::alloc::{AllocError, Global};

/// How an instruction set emits the code of one line.
pub trait LineEmitter {
    type Instr;

    type Register;

    /// A line whose code it emits.
    ghost takes: { Self → Line Self.Register → Type 0 };

    /// How many instructions a line has, wherever it stands.
    ghost size_of: { Self → Line Self.Register → ℕ };

    /// The code of a line with its marks, by the places of all lines and its own.
    ghost code_of: { Self → (ℕ → ℕ) → ℕ → Line Self.Register → List (Self.Instr × Tag) };

    /// Appends the code of the line that begins at `start`, with its marks. Places are below 2^31,
    /// so that a jump names its distance in 32 bits with a sign. The only error is memory.
    fn push_code(
        &self,
        line: &Line<Self::Register>,
        places: &[u32],
        start: u32,
        out: &mut Vec<(Self::Instr, Tag)>,
    ) -> Result<(), AllocError>
        requires takes { takes self.now line.now }
        requires places { All (λ p. p < 2 ^ 31) places.now }
        requires start { start + size_of self.now line.now < 2 ^ 31 }
        ensures { OnOk result (out.new.items ≡ out.old.items ++ code_of self.now (placed places.now) start line.now) };
}

/// The instructions of an image, the public tag of each, and the place of each line with that
/// behind the last.
#[derive(Drop)]
pub struct EmittedLines<I> {
    pub code: Vec<I>,
    pub tags: Vec<Tag>,
    pub places: Vec<u32>,
}

/// The public tag of an instruction: none where its line is silent.
fn hushed(quiet: bool, tag: Tag) -> Tag
    ensures { result ≡ hush quiet tag }
{
    if quiet { Tag::Silent } else { tag }
}

fn is_quiet(tag: Tag) -> bool
    ensures { result ≡ is_quiet tag }
{
    matches!(tag, Tag::Silent)
}

/// How many instructions the code of a line has.
fn size<E: LineEmitter>(
    alloc: Global,
    emitter: &E,
    line: &Line<E::Register>,
) -> Result<u32, AllocError>
where
    E::Instr: Drop,
    requires taken { E.takes emitter.now line.now }
    requires sized { HasSize (E.size_of emitter.now) (E.code_of emitter.now) line.now }
    requires small { E.size_of emitter.now line.now < 2 ^ 31 }
    ensures { IfOk result (λ size. size ≡ E.size_of emitter.now line.now) }
{
    let mut piece = Vec::new(alloc);
    emitter.push_code(line, &[], 0, &mut piece)?;
    Ok(piece.len() as u32)
}

/// The place of each line, and the one behind the last.
fn places_of<E: LineEmitter>(
    alloc: Global,
    emitter: &E,
    lines: &[Line<E::Register>],
) -> Result<Vec<u32>, AllocError>
where
    E::Instr: Drop,
    requires taken { (j : ℕ) (line : Line E.Register) → slice_get lines.now j ≡ Some line → E.takes emitter.now line }
    requires sized { HaveSizes (E.size_of emitter.now) (E.code_of emitter.now) lines.now }
    requires few { place_end (E.size_of emitter.now) 1 lines.now < 2 ^ 31 }
    ensures { IfOk result (λ places. places.items ≡ places_from (E.size_of emitter.now) 1 lines.now) }
{
    let mut places = Vec::new(alloc);
    let mut place = 1u32;
    for line in lines {
        places.push(place)?;
        let count = size::<E>(alloc, emitter, line)?;
        place += count;
    }
    places.push(place)?;
    Ok(places)
}

/// Appends the code of a line to an image.
fn push_line<I: Drop>(
    piece: Vec<(I, Tag)>,
    quiet: bool,
    code: &mut Vec<I>,
    tags: &mut Vec<Tag>,
) -> Result<(), AllocError>
    ensures code { OnOk result (code.new.items ≡ code.old.items ++ map (λ i. i.0) piece.items) }
    ensures tags { OnOk result (tags.new.items ≡ tags.old.items ++ map (λ i. hush quiet i.1) piece.items) }
{
    for (inst, tag) in piece {
        code.push(inst)?;
        tags.push(hushed(quiet, tag))?;
    }
    Ok(())
}

/// The image of these lines, whose first instruction has place 1: the code of each line at its
/// place, with the public tag of each instruction, and the places. Each line's code has one size
/// wherever it stands, so that a first pass finds the places that the jumps of the second name. The
/// only error is memory.
pub fn emit<E: LineEmitter>(
    alloc: Global,
    emitter: &E,
    lines: &[Line<E::Register>],
) -> Result<EmittedLines<E::Instr>, AllocError>
where
    E::Instr: Drop,
    requires taken { (j : ℕ) (line : Line E.Register) → slice_get lines.now j ≡ Some line → E.takes emitter.now line }
    requires sized { HaveSizes (E.size_of emitter.now) (E.code_of emitter.now) lines.now }
    requires few { place_end (E.size_of emitter.now) 1 lines.now < 2 ^ 31 }
    ensures code { IfOk result (λ image. image.code.items ≡ code_in (image_of (E.size_of emitter.now) (E.code_of emitter.now) lines.now)) }
    ensures tags { IfOk result (λ image. image.tags.items ≡ tags_of (image_of (E.size_of emitter.now) (E.code_of emitter.now) lines.now)) }
    ensures places { IfOk result (λ image. image.places.items ≡ places_from (E.size_of emitter.now) 1 lines.now) }
{
    let places = places_of::<E>(alloc, emitter, lines)?;
    let mut code = Vec::new(alloc);
    let mut tags = Vec::new(alloc);
    let mut start = 1u32;
    for line in lines {
        let mut piece = Vec::new(alloc);
        emitter.push_code(line, places.as_slice(), start, &mut piece)?;
        let count = piece.len() as u32;
        push_line(piece, is_quiet(line.tag), &mut code, &mut tags)?;
        start += count;
    }
    Ok(EmittedLines { code, tags, places })
}
