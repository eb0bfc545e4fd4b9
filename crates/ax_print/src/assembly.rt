//! The assembly text of a program.

ghost use Rattle.std.specs.Prelude.{◌≡◌, ◌<◌, ◌++◌, length, flat_map, All, IfOk, OnOk, string_bytes};
ghost use Rattle.ax_lowered.specs.Code.{image_of};
ghost use Rattle.ax_print.specs.Assembly.{assembly_text, comment_of, end_line, entry_line, entry_lines, instr_line, instr_lines, register_text, role_text, routine_line, routine_numbered, routine_text, site_line, tag_text, target_line, weak_text};
ghost use Rattle.ax_print.specs.Lowered.{code_text};

use crate::spelled::Spelled;
use ax_isa::{Image, Role, RoutineRange, SiteRange, Tag};
use ax_lowered::{Code, Lowered, Name, Target};
use ax_words::RoutineName;
use std::alloc::{AllocError, Global};

/// The text of the program: its functions' entries, the ranges of its source instructions, and its
/// instructions by their places, counted from 1. The only error is that memory fails.
pub fn print(alloc: Global, l: &Lowered) -> Result<String, AllocError>
    requires names { All (λ name. All (λ b. b < 128) name) l.now.names }
    requires entries { length (image_of l.now.code).entries ≡ length l.now.names }
    requires frames { length (image_of l.now.code).frames ≡ length l.now.names }
    ensures { IfOk result (λ text. string_bytes text ≡ code_text l.now.target l.now.names l.now.code) }
{
    let names = l.names.as_slice();
    match &l.code {
        Code::X86(image) => assembly(alloc, l.target, names, image),
        Code::Arm(image) => assembly(alloc, l.target, names, image),
        Code::Rv(image) => assembly(alloc, l.target, names, image),
    }
}

/// The text of an image for a target.
fn assembly<I: Spelled>(
    alloc: Global,
    target: Target,
    names: &[Name],
    image: &Image<I>,
) -> Result<String, AllocError>
    requires names { All (λ name. All (λ b. b < 128) name) names.now }
    requires entries { length image.now.entries ≡ length names.now }
    requires frames { length image.now.frames ≡ length names.now }
    ensures { IfOk result (λ text. string_bytes text ≡ assembly_text I.instr_text target names.now image.now) }
{
    let mark = comment_of(target);
    let (entries, frames) = (image.entries.as_slice(), image.frames.as_slice());
    let mut out = String::new(alloc);
    push_target(&mut out, mark, target)?;
    push_entries(&mut out, mark, names, entries, frames)?;
    push_sites(&mut out, mark, image.sites.as_slice())?;
    push_routines(&mut out, mark, image.routines.as_slice())?;
    push_code(
        &mut out,
        target,
        image.code.as_slice(),
        image.tags.as_slice(),
    )?;
    push_end(&mut out, mark)?;
    Ok(out)
}

/// What begins a comment.
fn comment_of(target: Target) -> &'static str
    ensures { result.now ≡ comment_of target }
{
    match target {
        Target::X86 { .. } | Target::Rv { .. } => "#",
        Target::Arm { .. } => "//",
    }
}

fn push_target(out: &mut String, mark: &str, target: Target) -> Result<(), AllocError>
    ensures { OnOk result (string_bytes out.new ≡ string_bytes out.old ++ target_line mark.now target) }
{
    let name = target.name();
    writeln!(out, "{mark} target {name}")
}

fn push_end(out: &mut String, mark: &str) -> Result<(), AllocError>
    ensures { OnOk result (string_bytes out.new ≡ string_bytes out.old ++ end_line mark.now) }
{
    writeln!(out, "{mark} end")
}

fn push_entry(
    out: &mut String,
    mark: &str,
    name: &Name,
    place: u32,
    frame: u64,
) -> Result<(), AllocError>
    requires { All (λ b. b < 128) name.now }
    ensures { OnOk result (string_bytes out.new ≡ string_bytes out.old ++ entry_line mark.now name.now place frame) }
{
    write!(out, "{mark} entry ")?;
    name.push_to(out)?;
    writeln!(out, " {place} {frame}")
}

fn push_entries(
    out: &mut String,
    mark: &str,
    names: &[Name],
    entries: &[u32],
    frames: &[u64],
) -> Result<(), AllocError>
    requires names { All (λ name. All (λ b. b < 128) name) names.now }
    requires entries { length entries.now ≡ length names.now }
    requires frames { length frames.now ≡ length names.now }
    ensures { OnOk result (string_bytes out.new ≡ string_bytes out.old ++ entry_lines mark.now entries.now frames.now 0 names.now) }
{
    for (f, name) in names.iter().enumerate() {
        push_entry(out, mark, name, entries[f], frames[f])?;
    }
    Ok(())
}

fn push_site(out: &mut String, mark: &str, range: &SiteRange) -> Result<(), AllocError>
    ensures { OnOk result (string_bytes out.new ≡ string_bytes out.old ++ site_line mark.now range.now) }
{
    let SiteRange { site, first, last } = *range;
    let function = site.function;
    let instruction = site.instruction;
    writeln!(out, "{mark} site {function} {instruction} {first} {last}")
}

fn push_sites(out: &mut String, mark: &str, sites: &[SiteRange]) -> Result<(), AllocError>
    ensures { OnOk result (string_bytes out.new ≡ string_bytes out.old ++ flat_map (site_line mark.now) sites.now) }
{
    for range in sites {
        push_site(out, mark, range)?;
    }
    Ok(())
}

fn routine_numbered(number: u32) -> Option<RoutineName>
    ensures { result ≡ routine_numbered number }
{
    RoutineName::ALL
        .iter()
        .copied()
        .find(|routine| routine.number() == number)
}

fn routine_word(number: u32) -> &'static str
    ensures { result.now ≡ routine_text number }
{
    match routine_numbered(number) {
        Some(routine) => routine.name(),
        None => "",
    }
}

fn push_routine(out: &mut String, mark: &str, range: &RoutineRange) -> Result<(), AllocError>
    ensures { OnOk result (string_bytes out.new ≡ string_bytes out.old ++ routine_line mark.now range.now) }
{
    let RoutineRange {
        routine,
        first,
        last,
    } = *range;
    let name = routine_word(routine);
    writeln!(out, "{mark} routine {name} {first} {last}")
}

fn push_routines(out: &mut String, mark: &str, routines: &[RoutineRange]) -> Result<(), AllocError>
    ensures { OnOk result (string_bytes out.new ≡ string_bytes out.old ++ flat_map (routine_line mark.now) routines.now) }
{
    for range in routines {
        push_routine(out, mark, range)?;
    }
    Ok(())
}

fn push_code<I: Spelled>(
    out: &mut String,
    target: Target,
    code: &[I],
    tags: &[Tag],
) -> Result<(), AllocError>
    ensures { OnOk result (string_bytes out.new ≡ string_bytes out.old ++ instr_lines I.instr_text target tags.now 0 code.now) }
{
    for (k, instr) in code.iter().enumerate() {
        let tag = tags.get(k).copied().unwrap_or(Tag::Silent);
        push_line(out, target, k + 1, instr, tag)?;
    }
    Ok(())
}

fn push_line<I: Spelled>(
    out: &mut String,
    target: Target,
    place: usize,
    instr: &I,
    tag: Tag,
) -> Result<(), AllocError>
    ensures { OnOk result (string_bytes out.new ≡ string_bytes out.old ++ instr_line I.instr_text target place instr.now tag) }
{
    write!(out, ".L{place}: ")?;
    instr.push_to(out, place)?;
    push_tag(out, comment_of(target), tag)?;
    writeln!(out)
}

fn push_tag(out: &mut String, mark: &str, tag: Tag) -> Result<(), AllocError>
    ensures { OnOk result (string_bytes out.new ≡ string_bytes out.old ++ tag_text mark.now tag) }
{
    match tag {
        Tag::Silent => Ok(()),
        Tag::Act => write!(out, " {mark} act"),
        Tag::Stored => write!(out, " {mark} stored"),
        Tag::Back => write!(out, " {mark} back"),
        Tag::StoredOrMiss => write!(out, " {mark} miss"),
        Tag::Linked {
            weak,
            expected,
            mask,
        } => {
            let weak = weak_word(weak);
            write!(out, " {mark} linked {weak} {expected} ")?;
            push_register(out, mask)
        }
        Tag::Call(role) => {
            let role = role_word(role);
            write!(out, " {mark} call {role}")
        }
        Tag::Free { stored } => {
            write!(out, " {mark} free ")?;
            push_register(out, stored)
        }
    }
}

fn weak_word(weak: bool) -> &'static str
    ensures { result.now ≡ weak_text weak }
{
    if weak { "weak" } else { "strong" }
}

fn role_word(role: Role) -> &'static str
    ensures { result.now ≡ role_text role }
{
    match role {
        Role::None => "none",
        Role::Whole => "whole",
        Role::Probe => "probe",
        Role::Compare => "compare",
    }
}

/// Appends a register's number, or that there is none.
fn push_register(out: &mut String, register: Option<u8>) -> Result<(), AllocError>
    ensures { OnOk result (string_bytes out.new ≡ string_bytes out.old ++ register_text register) }
{
    match register {
        Some(r) => write!(out, "{r}"),
        None => write!(out, "-"),
    }
}
