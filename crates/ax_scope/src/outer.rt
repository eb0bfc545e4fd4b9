//! Names outside functions.

ghost use Rattle.std.specs.Prelude.{◌≡◌, ◌++◌, map};
ghost use Rattle.std.specs.Option.{option_map, option_to_list};
ghost use Rattle.ax_scope.specs.Faults.{again, outer_name, param_names, is_reserved_name, is_reserved};
ghost use Rattle.ax_scope.specs.Names.{text_at};
ghost use Rattle.ax_scope.specs.Answers.{Declares, Enters, EntersAt};

use crate::fault::{NameStop, ScopeFault};
use crate::locals::text_at;
use crate::seen::Seen;
use ax_lines::Line;
use ax_module::Ty;
use ax_symbols::NameSpan;
use std::alloc::Global;

/// Declares a name where there is one.
pub fn declare(alloc: Global, so_far: &mut Seen, name: Option<&[u8]>) -> Result<(), NameStop>
    ensures { Declares so_far.old so_far.new (option_to_list (option_map (λ n. n.now) name.entry)) result }
{
    if let Some(name) = name {
        if !so_far.add(alloc, name)? {
            return Err(NameStop::Name);
        }
    }
    Ok(())
}

#[tactic(auto, unfolding(crate::specs::Faults::outer_name))]
fn outer_name<'a>(text: &'a [u8], line: &Line) -> Option<&'a [u8]>
    ensures { option_map (λ n. n.now) result ≡ outer_name text.now line.now }
{
    match line {
        Line::Global(name, ..) => Some(text_at(text, *name)),
        Line::Define(name, ..) => Some(text_at(text, *name)),
        _ => None,
    }
}

fn is_reserved_name(name: &[u8]) -> bool
    ensures { result ≡ is_reserved_name name.now }
{
    name == b"out".as_slice() || name.starts_with(b"__atomic_")
}

#[tactic(auto, unfolding(crate::specs::Faults::is_reserved))]
fn is_reserved(text: &[u8], line: &Line) -> bool
    ensures { result ≡ is_reserved text.now line.now }
{
    match line {
        Line::Define(name, ..) => is_reserved_name(text_at(text, *name)),
        _ => false,
    }
}

fn declare_params(
    alloc: Global,
    text: &[u8],
    params: &[(Ty, NameSpan)],
    so_far: &mut Seen,
) -> Result<(), NameStop>
    ensures { Declares so_far.old so_far.new (map (λ p. text_at text.now p.1) params.now) result }
{
    for (_, name) in params {
        if !so_far.add(alloc, text_at(text, *name))? {
            return Err(NameStop::Name);
        }
    }
    Ok(())
}

#[tactic(auto, unfolding(crate::specs::Faults::param_names))]
fn params_in(alloc: Global, text: &[u8], line: &Line, so_far: &mut Seen) -> Result<(), NameStop>
    ensures { Declares so_far.old so_far.new (param_names text.now line.now) result }
{
    match line {
        Line::Define(_, _, params) => declare_params(alloc, text, params.as_slice(), so_far),
        _ => Ok(()),
    }
}

/// Declares the names of a line outside functions, and gives its parameters.
pub fn enter(alloc: Global, text: &[u8], names: &mut Seen, line: &Line) -> Result<Seen, NameStop>
    ensures { Enters text.now names.old names.new line.now result }
{
    if is_reserved(text, line) {
        return Err(NameStop::Name);
    }
    declare(alloc, names, outer_name(text, line))?;
    let mut params = Seen::new(alloc);
    params_in(alloc, text, line, &mut params)?;
    Ok(params)
}

/// The same, with the number of the line.
pub fn enter_at(
    alloc: Global,
    text: &[u8],
    names: &mut Seen,
    line: &Line,
    number: usize,
) -> Result<Seen, ScopeFault>
    ensures { EntersAt text.now names.old names.new line.now number result }
{
    match enter(alloc, text, names, line) {
        Ok(params) => Ok(params),
        Err(NameStop::Name) => Err(ScopeFault::Name { line: number }),
        Err(NameStop::Memory) => Err(ScopeFault::Memory),
    }
}
