//! Functions.

ghost use Rattle.std.specs.Prelude.{◌≡◌, ◌+◌, ◌<◌, ◌^◌, length, map, is_none, IfOk};
ghost use Rattle.ax_lines.specs.declared.statement.Line.TheVariants.{Define};
ghost use Rattle.ax_lines.specs.Lines.{param_count};
ghost use Rattle.ax_scope.specs.Answers.{Finds, Takes, first_fault};
ghost use Rattle.ax_scope.specs.NameTable.{look};
ghost use Rattle.ax_scope.specs.Names.{text_at};
ghost use Rattle.ax_scope.specs.Faults.{looks_of, body_of, body_faults, param_names};
ghost use Rattle.ax_scope.specs.Module.{result_or, blocks_in};

use crate::body::blocks_in;
use crate::declared::{entry_name, inner_len, locals_of};
use crate::fault::ScopeFault;
use crate::locals::{Names, text_at};
use crate::name_table::NameTable;
use crate::seen::Seen;
use ax_lines::Line;
use ax_module::{Block, Function, Name, Ty};
use ax_symbols::NameSpan;
use ax_words::Items;
use std::alloc::{AllocError, Global};

/// The blocks of a function whose lines are these, the first of which has this number.
fn body_in(
    alloc: Global,
    text: &[u8],
    globals: &NameTable,
    params: &[(Ty, NameSpan)],
    so_far: Seen,
    inside: &[Line],
    start: usize,
) -> Result<Vec<Block>, ScopeFault>
    requires few { length inside.now < 2 ^ 32 }
    requires few_params { length params.now < 2 ^ 32 }
    requires fits { start + length inside.now < 2 ^ 64 }
    requires params { so_far ≡ map (λ p. text_at text.now p.1) params.now }
    ensures built { IfOk result (λ v. v.items ≡ blocks_in (looks_of text.now (look globals.now) params.now inside.now) inside.now) }
    ensures found { Finds result (first_fault start (body_faults (body_of text.now (look globals.now) params.now inside.now) inside.now)) }
{
    let entry = entry_name(alloc, text, params)?;
    let locals = locals_of(alloc, text, entry.as_bytes(), params, inside)?;
    let names = Names {
        text,
        globals,
        locals: &locals,
    };
    blocks_in(alloc, &names, entry.as_bytes(), so_far, inside, start)
}

fn types_of(alloc: Global, params: &[(Ty, NameSpan)]) -> Result<Vec<Ty>, AllocError>
    ensures { IfOk result (λ v. v.items ≡ map (λ p. p.0) params.now) }
{
    let mut types = Vec::with_capacity(alloc, params.len())?;
    for (ty, _) in params {
        types.push(*ty)?;
    }
    Ok(types)
}

/// What a function's head states.
#[derive(Clone, Copy)]
struct Head<'a> {
    name: NameSpan,
    result: Option<Ty>,
    params: &'a [(Ty, NameSpan)],
}

fn result_or(ty: Option<Ty>) -> Ty
    ensures { result ≡ result_or ty }
{
    match ty {
        None => Ty::I1,
        Some(ty) => ty,
    }
}

fn function_of(
    alloc: Global,
    text: &[u8],
    head: Head,
    blocks: Vec<Block>,
) -> Result<Function, AllocError>
    ensures { IfOk result (λ f. f ≡ record { name = text_at text.now head.entry.name; result = result_or head.entry.result; is_void = is_none head.entry.result; params = map (λ p. p.0) head.entry.params.now; blocks = blocks.items }) }
{
    let name = Name::of(Vec::from_slice(alloc, text_at(text, head.name))?);
    let params = Items::of(types_of(alloc, head.params)?);
    Ok(Function {
        name,
        result: result_or(head.result),
        is_void: head.result.is_none(),
        params,
        blocks: Items::of(blocks),
    })
}

/// Makes the function of a head, and gives how many lines behind the head stand in it.
fn define(
    alloc: Global,
    text: &[u8],
    globals: &NameTable,
    head: Head,
    so_far: Seen,
    behind: &[Line],
    start: usize,
    functions: &mut Vec<Function>,
) -> Result<usize, ScopeFault>
    requires few { length behind.now < 2 ^ 32 }
    requires few_params { length head.params.now < 2 ^ 32 }
    requires fits { start + length behind.now < 2 ^ 64 }
    requires params { so_far ≡ map (λ p. text_at text.now p.1) head.params.now }
    ensures { Takes text.now (look globals.now) (Define head.entry.name head.entry.result head.entry.params.now) behind.now start functions.old.items functions.new.items result }
{
    let (inside, _) = behind.split_at(inner_len(behind));
    let body = body_in(alloc, text, globals, head.params, so_far, inside, start)?;
    let function = function_of(alloc, text, head, body)?;
    functions.push(function)?;
    Ok(inside.len())
}

/// Makes the function that begins at a line, if one does, and gives how many lines behind the line
/// stand in it.
#[tactic(auto, unfolding(crate::specs::Faults::param_names, crate::specs::Faults::body_begun, crate::specs::Module::function_at))]
pub fn function_in(
    alloc: Global,
    text: &[u8],
    globals: &NameTable,
    line: &Line,
    so_far: Seen,
    behind: &[Line],
    start: usize,
    functions: &mut Vec<Function>,
) -> Result<usize, ScopeFault>
    requires few { length behind.now < 2 ^ 32 }
    requires few_params { param_count line.now < 2 ^ 32 }
    requires fits { start + length behind.now < 2 ^ 64 }
    requires params { so_far ≡ param_names text.now line.now }
    ensures { Takes text.now (look globals.now) line.now behind.now start functions.old.items functions.new.items result }
{
    match line {
        Line::Define(name, result, params) => {
            let head = Head {
                name: *name,
                result: *result,
                params: params.as_slice(),
            };
            define(alloc, text, globals, head, so_far, behind, start, functions)
        }
        _ => Ok(0),
    }
}
