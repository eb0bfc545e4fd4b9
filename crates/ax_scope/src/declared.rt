//! The names that lines declare.

ghost use Rattle.std.specs.Prelude.{◌≡◌, ◌≤◌, ◌<◌, ◌^◌, [], length, IfOk, OnOk};
ghost use Rattle.std.specs.Option.{option_map};
ghost use Rattle.std.specs.List.{prefix_len, count_by, list_all};
ghost use Rattle.std.specs.String.{string_bytes};
ghost use Rattle.ax_lex.specs.Bytes.{is_digit};
ghost use Rattle.ax_scope.specs.NameTable.{added};
ghost use Rattle.ax_scope.specs.Names.{maybe_at, is_inner, text_at, global_name, globals_from, params_from, result_name, inst_count, results_from, is_number, entry_name, block_name, first_behind, values_of, blocks_of};

use crate::locals::{Locals, text_at};
use crate::meaning::Meaning;
use crate::name_table::NameTable;
use ax_lex::is_digit;
use ax_lines::Line;
use ax_module::Ty;
use ax_symbols::NameSpan;
use std::alloc::{AllocError, Global};

fn maybe_at<'a>(text: &'a [u8], span: Option<NameSpan>) -> Option<&'a [u8]>
    ensures { option_map (λ n. n.now) result ≡ maybe_at text.now span }
{
    match span {
        None => None,
        Some(span) => Some(text_at(text, span)),
    }
}

/// Whether a line is a label or an instruction, or states nothing.
#[tactic(auto, unfolding(crate::specs::Names::is_inner))]
fn is_inner(line: &Line) -> bool
    ensures { result ≡ is_inner line.now }
{
    matches!(line, Line::Nothing | Line::Label(_) | Line::Inst(..))
}

/// How many lines of a function stand behind its head.
pub fn inner_len(behind: &[Line]) -> usize
    ensures is { result ≡ prefix_len is_inner behind.now }
    ensures within { result ≤ length behind.now }
{
    let mut count = 0;
    for line in behind {
        if !is_inner(line) {
            return count;
        }
        count += 1;
    }
    count
}

#[tactic(auto, unfolding(crate::specs::Names::global_name))]
fn global_name<'a>(text: &'a [u8], line: &Line) -> Option<&'a [u8]>
    ensures { option_map (λ n. n.now) result ≡ global_name text.now line.now }
{
    match line {
        Line::Global(name, ..) => Some(text_at(text, *name)),
        _ => None,
    }
}

/// The name of a line's result.
#[tactic(auto, unfolding(crate::specs::Names::result_name))]
pub fn result_name<'a>(text: &'a [u8], line: &Line) -> Option<&'a [u8]>
    ensures { option_map (λ n. n.now) result ≡ result_name text.now line.now }
{
    match line {
        Line::Inst(name, _) => maybe_at(text, *name),
        _ => None,
    }
}

#[tactic(auto, unfolding(crate::specs::Names::inst_count))]
fn inst_count(line: &Line) -> u32
    ensures is { result ≡ inst_count line.now }
    ensures within { result ≤ 1 }
{
    match line {
        Line::Inst(..) => 1,
        _ => 0,
    }
}

/// The name of the block that begins at a line, where one does.
#[tactic(auto, unfolding(crate::specs::Names::block_name))]
pub fn block_name<'a>(text: &'a [u8], entry: &'a [u8], first: bool, line: &Line) -> Option<&'a [u8]>
    ensures { option_map (λ n. n.now) result ≡ block_name text.now entry.now first line.now }
{
    match line {
        Line::Label(name) => Some(text_at(text, *name)),
        Line::Inst(..) => if first { Some(entry) } else { None },
        _ => None,
    }
}

/// Whether what stands behind a line is still the first line of its function.
#[tactic(auto, unfolding(crate::specs::Names::first_behind))]
pub fn first_behind(first: bool, line: &Line) -> bool
    ensures { result ≡ first_behind first line.now }
{
    match line {
        Line::Nothing => first,
        _ => false,
    }
}

fn has_digits_alone(name: &[u8]) -> bool
    ensures { result ≡ list_all is_digit name.now }
{
    name.iter().all(|b| is_digit(*b))
}

fn is_number(name: &[u8]) -> bool
    ensures { result ≡ is_number name.now }
{
    !name.is_empty() && has_digits_alone(name)
}

fn number_count(text: &[u8], params: &[(Ty, NameSpan)]) -> usize
    ensures { result ≡ count_by (λ p. is_number (text_at text.now p.1)) params.now }
{
    let mut count = 0;
    for (_, name) in params {
        if is_number(text_at(text, *name)) {
            count += 1;
        }
    }
    count
}

/// The name of an entry block without a label: the number of parameters that have numbers as names.
pub fn entry_name(
    alloc: Global,
    text: &[u8],
    params: &[(Ty, NameSpan)],
) -> Result<String, AllocError>
    ensures { IfOk result (λ s. string_bytes s ≡ entry_name text.now params.now) }
{
    let count = number_count(text, params);
    format!(in alloc; "{count}")
}

/// What the names of globals stand for.
pub fn globals_of(alloc: Global, text: &[u8], lines: &[Line]) -> Result<NameTable, AllocError>
    requires { length lines.now < 2 ^ 32 }
    ensures { IfOk result (λ s. s ≡ added [] (globals_from text.now 0 lines.now)) }
{
    let mut globals = NameTable::new(alloc);
    let mut number = 0;
    for line in lines {
        if let Some(name) = global_name(text, line) {
            globals.declare(alloc, name, Meaning::Global(number))?;
            number += 1;
        }
    }
    Ok(globals)
}

fn add_params(
    alloc: Global,
    text: &[u8],
    params: &[(Ty, NameSpan)],
    values: &mut NameTable,
) -> Result<(), AllocError>
    requires { length params.now < 2 ^ 32 }
    ensures { OnOk result (values.new ≡ added values.old (params_from text.now 0 params.now)) }
{
    for (number, (_, name)) in params.iter().enumerate() {
        values.declare(alloc, text_at(text, *name), Meaning::Param(number as u32))?;
    }
    Ok(())
}

fn add_results(
    alloc: Global,
    text: &[u8],
    inside: &[Line],
    values: &mut NameTable,
) -> Result<(), AllocError>
    requires { length inside.now < 2 ^ 32 }
    ensures { OnOk result (values.new ≡ added values.old (results_from text.now 0 inside.now)) }
{
    let mut number = 0;
    for line in inside {
        if let Some(name) = result_name(text, line) {
            values.declare(alloc, name, Meaning::Value(number))?;
        }
        number += inst_count(line);
    }
    Ok(())
}

fn add_blocks(
    alloc: Global,
    text: &[u8],
    entry: &[u8],
    inside: &[Line],
    blocks: &mut NameTable,
) -> Result<(), AllocError>
    requires { length inside.now < 2 ^ 32 }
    ensures { OnOk result (blocks.new ≡ added blocks.old (blocks_of text.now entry.now inside.now)) }
{
    let mut number = 0;
    let mut first = true;
    for line in inside {
        if let Some(name) = block_name(text, entry, first, line) {
            blocks.declare(alloc, name, Meaning::Block(number))?;
            number += 1;
        }
        first = first_behind(first, line);
    }
    Ok(())
}

/// What the names of a function stand for.
#[tactic(auto, using(crate::proofs::Added::added_append))]
pub fn locals_of(
    alloc: Global,
    text: &[u8],
    entry: &[u8],
    params: &[(Ty, NameSpan)],
    inside: &[Line],
) -> Result<Locals, AllocError>
    requires params { length params.now < 2 ^ 32 }
    requires lines { length inside.now < 2 ^ 32 }
    ensures values { IfOk result (λ l. l.values ≡ added [] (values_of text.now params.now inside.now)) }
    ensures blocks { IfOk result (λ l. l.blocks ≡ added [] (blocks_of text.now entry.now inside.now)) }
{
    let mut values = NameTable::new(alloc);
    add_params(alloc, text, params, &mut values)?;
    add_results(alloc, text, inside, &mut values)?;
    let mut blocks = NameTable::new(alloc);
    add_blocks(alloc, text, entry, inside, &mut blocks)?;
    Ok(Locals { values, blocks })
}
