//! The canonical text of a module.

ghost use Rattle.std.specs.Prelude.{◌≡◌, ◌+◌, ◌<◌, ◌^◌, [], ◌∷◌, ◌++◌, codes, map, flat_map, All, IfOk, OnOk, string_bytes};
ghost use Rattle.ax_module.specs.Ascii.{CallsAscii, NamesAscii};
ghost use Rattle.ax_module.specs.Names.{IsAscii};
ghost use Rattle.ax_module.specs.WellFormed.{IsModule};
ghost use Rattle.ax_module.specs.Ascii.{called_name};
ghost use Rattle.ax_ir.specs.InstTokens.{numbered_inst_tokens};
ghost use Rattle.ax_ir.specs.Canonical.{line_text, flush, indented, global_line, define_tokens, label_line, inst_lines, blocks_lines, function_lines, names_tokens, module_text};

use crate::tokens::Tokens;
use ax_module::{Block, Function, Inst, Module, module};
use std::alloc::{AllocError, Global};

/// The canonical text of a module in LLVM's language, which spells the module and nothing else: one
/// line for each global, function head, block and instruction, blocks named `bK`, results `%vK`
/// and parameters `%pK` by their numbers. The only error is that memory fails.
pub fn spell(alloc: Global, m: &Module) -> Result<String, AllocError>
    requires { IsModule m.now }
    ensures { IfOk result (λ text. string_bytes text ≡ module_text m.now) }
{
    let globals = m.globals.as_slice();
    let names = names_of(alloc, globals)?;
    let mut text = String::new(alloc);
    push_module(alloc, &mut text, &names, globals, m.functions.as_slice())?;
    Ok(text)
}

fn push_module(
    alloc: Global,
    text: &mut String,
    names: &Tokens,
    globals: &[module::Global],
    functions: &[Function],
) -> Result<(), AllocError>
    requires globals { All (λ g. IsAscii g.name) globals.now }
    requires functions { All NamesAscii functions.now }
    ensures { OnOk result (string_bytes text.new ≡ string_bytes text.old ++ flat_map line_text (map global_line globals.now ++ flat_map (function_lines names.now) functions.now)) }
{
    push_globals(alloc, text, globals)?;
    push_functions(alloc, text, names, functions)
}

/// The tokens of the globals' names.
fn names_of(alloc: Global, globals: &[module::Global]) -> Result<Tokens, AllocError>
    requires { All (λ g. IsAscii g.name) globals.now }
    ensures { IfOk result (λ names. names ≡ names_tokens globals.now) }
{
    let mut names = Tokens::new(alloc);
    for global in globals {
        names.global(&global.name)?;
    }
    Ok(names)
}

/// Appends a line without blanks before it.
fn push_flush(text: &mut String, tokens: &Tokens) -> Result<(), AllocError>
    ensures { OnOk result (string_bytes text.new ≡ string_bytes text.old ++ line_text (flush tokens.now)) }
{
    tokens.push_to(text)?;
    writeln!(text)
}

/// Appends a line with two blanks before it.
fn push_indented(text: &mut String, tokens: &Tokens) -> Result<(), AllocError>
    ensures { OnOk result (string_bytes text.new ≡ string_bytes text.old ++ line_text (indented tokens.now)) }
{
    write!(text, "  ")?;
    tokens.push_to(text)?;
    writeln!(text)
}

fn push_globals(
    alloc: Global,
    text: &mut String,
    globals: &[module::Global],
) -> Result<(), AllocError>
    requires { All (λ g. IsAscii g.name) globals.now }
    ensures { OnOk result (string_bytes text.new ≡ string_bytes text.old ++ flat_map line_text (map global_line globals.now)) }
{
    for global in globals {
        push_global(alloc, text, global)?;
    }
    Ok(())
}

fn push_global(alloc: Global, text: &mut String, global: &module::Global) -> Result<(), AllocError>
    requires { IsAscii global.now.name }
    ensures { OnOk result (string_bytes text.new ≡ string_bytes text.old ++ line_text (global_line global.now)) }
{
    let mut tokens = Tokens::new(alloc);
    tokens.global_definition(global)?;
    push_flush(text, &tokens)
}

fn push_functions(
    alloc: Global,
    text: &mut String,
    names: &Tokens,
    functions: &[Function],
) -> Result<(), AllocError>
    requires { All NamesAscii functions.now }
    ensures { OnOk result (string_bytes text.new ≡ string_bytes text.old ++ flat_map line_text (flat_map (function_lines names.now) functions.now)) }
{
    for function in functions {
        push_function(alloc, text, names, function)?;
    }
    Ok(())
}

fn push_function(
    alloc: Global,
    text: &mut String,
    names: &Tokens,
    function: &Function,
) -> Result<(), AllocError>
    requires { NamesAscii function.now }
    ensures { OnOk result (string_bytes text.new ≡ string_bytes text.old ++ flat_map line_text (function_lines names.now function.now)) }
{
    push_head(alloc, text, function)?;
    push_blocks(alloc, text, names, function.blocks.as_slice())?;
    push_end(alloc, text)
}

fn push_head(alloc: Global, text: &mut String, function: &Function) -> Result<(), AllocError>
    requires { IsAscii function.now.name }
    ensures { OnOk result (string_bytes text.new ≡ string_bytes text.old ++ line_text (flush (define_tokens function.now))) }
{
    let mut tokens = Tokens::new(alloc);
    tokens.define(function)?;
    push_flush(text, &tokens)
}

fn push_end(alloc: Global, text: &mut String) -> Result<(), AllocError>
    ensures { OnOk result (string_bytes text.new ≡ string_bytes text.old ++ line_text (flush (codes "}" ∷ []))) }
{
    let mut tokens = Tokens::new(alloc);
    tokens.word("}")?;
    push_flush(text, &tokens)
}

fn push_blocks(
    alloc: Global,
    text: &mut String,
    names: &Tokens,
    blocks: &[Block],
) -> Result<(), AllocError>
    requires { All (λ b. CallsAscii b.insts) blocks.now }
    ensures { OnOk result (string_bytes text.new ≡ string_bytes text.old ++ flat_map line_text (blocks_lines names.now 0 0 blocks.now)) }
{
    let mut number: u128 = 0;
    for (k, block) in blocks.iter().enumerate() {
        let insts = block.insts.as_slice();
        push_label(alloc, text, k)?;
        push_insts(alloc, text, names, number, insts)?;
        number += insts.len() as u128;
    }
    Ok(())
}

fn push_label(alloc: Global, text: &mut String, k: usize) -> Result<(), AllocError>
    ensures { OnOk result (string_bytes text.new ≡ string_bytes text.old ++ line_text (label_line k)) }
{
    let mut tokens = Tokens::new(alloc);
    tokens.numbered("b", k as u128)?;
    tokens.word(":")?;
    push_flush(text, &tokens)
}

/// Appends a block's instructions, the first of which has the number `n` in its function.
fn push_insts(
    alloc: Global,
    text: &mut String,
    names: &Tokens,
    n: u128,
    insts: &[Inst],
) -> Result<(), AllocError>
    requires calls { CallsAscii insts.now }
    requires number { n < 2 ^ 127 }
    ensures { OnOk result (string_bytes text.new ≡ string_bytes text.old ++ flat_map line_text (inst_lines names.now n insts.now)) }
{
    for (i, inst) in insts.iter().enumerate() {
        push_inst(alloc, text, names, n + i as u128, inst)?;
    }
    Ok(())
}

fn push_inst(
    alloc: Global,
    text: &mut String,
    names: &Tokens,
    n: u128,
    inst: &Inst,
) -> Result<(), AllocError>
    requires { IsAscii (called_name inst.now) }
    ensures { OnOk result (string_bytes text.new ≡ string_bytes text.old ++ line_text (indented (numbered_inst_tokens names.now n inst.now))) }
{
    let mut tokens = Tokens::new(alloc);
    tokens.numbered_inst(names, n, inst)?;
    push_indented(text, &tokens)
}
