//! The globals of a module.

ghost use Rattle.std.specs.Prelude.{◌≡◌, IfOk, OnOk, ◌++◌, map};
ghost use Rattle.ax_scope.specs.Module.{constant_of, global_at, globals_in};

use crate::locals::text_at;
use ax_lines::Line;
use ax_module::{Global as Variable, Name, Operand};
use ax_symbols::Value;
use ax_words::Items;
use std::alloc::{AllocError, Global};

fn constant_of(value: Value) -> Operand
    ensures { result ≡ constant_of value }
{
    match value {
        Value::Const(n) => Operand::Const(n),
        Value::Wide(n) => Operand::Wide(n),
        Value::Local(_) => Operand::Const(0),
    }
}

fn constants_of(alloc: Global, values: &[Value]) -> Result<Vec<Operand>, AllocError>
    ensures { IfOk result (λ v. v.items ≡ map constant_of values.now) }
{
    let mut constants = Vec::with_capacity(alloc, values.len())?;
    for value in values {
        constants.push(constant_of(*value))?;
    }
    Ok(constants)
}

#[tactic(auto, unfolding(crate::specs::Module::global_at))]
fn push_global(
    alloc: Global,
    text: &[u8],
    line: &Line,
    globals: &mut Vec<Variable>,
) -> Result<(), AllocError>
    ensures { OnOk result (globals.new.items ≡ globals.old.items ++ global_at text.now line.now) }
{
    if let Line::Global(name, elem, count, init, align) = line {
        let name = Name::of(Vec::from_slice(alloc, text_at(text, *name))?);
        let init = Items::of(constants_of(alloc, init.as_slice())?);
        globals.push(Variable {
            name,
            elem: *elem,
            count: *count,
            align: *align,
            init,
        })?;
    }
    Ok(())
}

/// The globals of a text.
pub fn globals_in(alloc: Global, text: &[u8], lines: &[Line]) -> Result<Vec<Variable>, AllocError>
    ensures { IfOk result (λ v. v.items ≡ globals_in text.now lines.now) }
{
    let mut globals = Vec::new(alloc);
    for line in lines {
        push_global(alloc, text, line, &mut globals)?;
    }
    Ok(globals)
}
