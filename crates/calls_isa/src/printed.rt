//! Images as texts.

ghost use Rattle.std.specs.Prelude.{◌≡◌, IfOk, length};
ghost use Rattle.ax_lowered.specs.Code.{image_of};

use crate::sets::Set;
use crate::spelled::instruction_of;
use ax_isa::{Image, Role, RoutineRange, SiteRange, Tag};
use ax_lowered::{Code, Lowered, Target};
use ax_module::Name;
use ax_print::{Spelled, print};
use ax_rows::Fault;
use ax_words::{Items, RoutineName, Site};
use std::alloc::{AllocError, Global};

/// The text itself where it is not the expected one.
fn compared(alloc: Global, text: String, expected: &[u8]) -> Result<String, AllocError> {
    if text.as_bytes() == expected {
        String::from_str(alloc, "so")
    } else {
        Ok(text)
    }
}

/// The instructions of these that are spelled so, one behind each `;`.
fn instructions<I: Spelled + Copy>(alloc: Global, all: &[I], text: &[u8]) -> Result<Vec<I>, Fault> {
    let text = str::from_utf8(text).map_err(|_| Fault::Row)?;
    let mut code = Vec::new(alloc);
    for spelling in text.split("; ") {
        code.push(*instruction_of(alloc, all, spelling)?)?;
    }
    Ok(code)
}

/// An image of these instructions, six of which have tags: instruction 3 of function 0 has the places
/// 1 to 6, a routine has 5 and 6, and the frame of the function has 40 bytes.
fn image<I: Spelled + Copy>(alloc: Global, all: &[I], text: &[u8]) -> Result<Image<I>, Fault>
    ensures entries { IfOk result (λ i. length i.entries ≡ 1) }
    ensures frames { IfOk result (λ i. length i.frames ≡ 1) }
{
    let site = Site {
        function: 0,
        instruction: 3,
    };
    let range = SiteRange {
        site,
        first: 1,
        last: 6,
    };
    let routine = RoutineRange {
        routine: RoutineName::Load16.number(),
        first: 5,
        last: 6,
    };
    let linked = Tag::Linked {
        weak: true,
        expected: 3,
        mask: None,
    };
    let freed = Tag::Free { stored: Some(4) };
    let call = Tag::Call(Role::Probe);
    let tags = [Tag::Silent, Tag::Stored, Tag::Act, linked, call, freed];
    Ok(Image {
        code: Items::of(instructions(alloc, all, text)?),
        tags: Items::of(Vec::from_slice(alloc, tags.as_slice())?),
        sites: Items::of(Vec::from_slice(alloc, [range].as_slice())?),
        routines: Items::of(Vec::from_slice(alloc, [routine].as_slice())?),
        entries: Items::of(Vec::from_slice(alloc, [1].as_slice())?),
        frames: Items::of(Vec::from_slice(alloc, [40].as_slice())?),
    })
}

/// The assembly of the function `@f` with this image.
fn text_of(alloc: Global, target: Target, code: Code) -> Result<String, AllocError>
    requires entries { length (image_of code).entries ≡ 1 }
    requires frames { length (image_of code).frames ≡ 1 }
{
    let name = Name::of(Vec::from_slice(alloc, b"f")?);
    let names = Items::of(Vec::from_array(alloc, [name])?);
    print(
        alloc,
        &Lowered {
            target,
            names,
            code,
        },
    )
}

/// The assembly of instructions of a set, by their spellings.
fn assembly(alloc: Global, set: Set, text: &[u8]) -> Result<String, Fault> {
    match set {
        Set::Rv => {
            let all = crate::rv::instructions(alloc)?;
            let code = Code::Rv(image(alloc, all.as_slice(), text)?);
            let target = Target::Rv {
                zabha: false,
                zacas: false,
            };
            Ok(text_of(alloc, target, code)?)
        }
        Set::X86 => {
            let all = crate::x86::instructions(alloc)?;
            let code = Code::X86(image(alloc, all.as_slice(), text)?);
            Ok(text_of(alloc, Target::X86 { cx16: false }, code)?)
        }
        Set::Arm => {
            let all = crate::arm::instructions(alloc)?;
            let code = Code::Arm(image(alloc, all.as_slice(), text)?);
            Ok(text_of(alloc, Target::Arm { lse: true }, code)?)
        }
    }
}

/// Whether the first text is the assembly of the second.
pub(crate) fn printed(alloc: Global, set: Set, texts: &[Vec<u8>]) -> Result<String, Fault> {
    let [expected, code] = texts else {
        return Err(Fault::Row);
    };
    let text = assembly(alloc, set, code.as_slice())?;
    Ok(compared(alloc, text, expected.as_slice())?)
}
