//! Operands with numbers in place of names.

ghost use Rattle.std.specs.Prelude.{◌≡◌};
ghost use Rattle.ax_scope.specs.Resolve.{operand_in, local_in, global_in, block_in, operand_of, base_of, block_of, addr_of, arg_of};
ghost use Rattle.ax_lines.specs.declared.statement.Pointer.TheVariants.{Element};
ghost use Rattle.ax_scope.specs.Around.{looks};

use crate::locals::{Names, text_at};
use crate::meaning::Meaning;
use ax_lines::{Argument, Path, Pointer};
use ax_module::{Addr, Arg, Base, Operand};
use ax_symbols::{Base as NamedBase, NameSpan, Value};

fn operand_in(meaning: Option<Meaning>) -> Option<Operand>
    ensures { result ≡ operand_in meaning }
{
    match meaning {
        Some(Meaning::Value(k)) => Some(Operand::Value(k)),
        Some(Meaning::Param(k)) => Some(Operand::Param(k)),
        _ => None,
    }
}

fn local_in(meaning: Option<Meaning>) -> Option<Base>
    ensures { result ≡ local_in meaning }
{
    match meaning {
        Some(Meaning::Value(k)) => Some(Base::Value(k)),
        Some(Meaning::Param(k)) => Some(Base::Param(k)),
        _ => None,
    }
}

fn global_in(meaning: Option<Meaning>) -> Option<Base>
    ensures { result ≡ global_in meaning }
{
    match meaning {
        Some(Meaning::Global(k)) => Some(Base::Global(k)),
        _ => None,
    }
}

fn block_in(meaning: Option<Meaning>) -> Option<u32>
    ensures { result ≡ block_in meaning }
{
    match meaning {
        Some(Meaning::Block(k)) => Some(k),
        _ => None,
    }
}

/// An operand, unless its name stands for nothing.
pub fn operand_of(names: &Names, value: Value) -> Option<Operand>
    ensures { result ≡ operand_of (looks names.now) value }
{
    match value {
        Value::Const(n) => Some(Operand::Const(n)),
        Value::Wide(n) => Some(Operand::Wide(n)),
        Value::Local(span) => operand_in(names.locals.values.find(text_at(names.text, span))),
    }
}

/// What a pointer begins with.
pub fn base_of(names: &Names, base: NamedBase) -> Option<Base>
    ensures { result ≡ base_of (looks names.now) base }
{
    match base {
        NamedBase::Global(span) => global_in(names.globals.find(text_at(names.text, span))),
        NamedBase::Local(span) => local_in(names.locals.values.find(text_at(names.text, span))),
    }
}

/// The number of a block.
pub fn block_of(names: &Names, span: NameSpan) -> Option<u32>
    ensures { result ≡ block_of (looks names.now) span }
{
    block_in(names.locals.blocks.find(text_at(names.text, span)))
}

fn element_of(names: &Names, path: Path) -> Option<Addr>
    ensures { result ≡ addr_of (looks names.now) (Element path) }
{
    let base = base_of(names, path.base)?;
    let index = operand_of(names, path.index)?;
    let step = Some((path.elem, path.count, path.index_type, index));
    Some(Addr { base, step })
}

/// A pointer operand.
pub fn addr_of(names: &Names, pointer: Pointer) -> Option<Addr>
    ensures { result ≡ addr_of (looks names.now) pointer }
{
    match pointer {
        Pointer::Base(base) => {
            let base = base_of(names, base)?;
            Some(Addr { base, step: None })
        }
        Pointer::Element(path) => element_of(names, path),
    }
}

/// An argument of a call.
pub fn arg_of(names: &Names, argument: Argument) -> Option<Arg>
    ensures { result ≡ arg_of (looks names.now) argument }
{
    match argument {
        Argument::Pointer(pointer) => {
            let addr = addr_of(names, pointer)?;
            Some(Arg::Pointer(addr))
        }
        Argument::Value(ty, value) => {
            let operand = operand_of(names, value)?;
            Some(Arg::Value(ty, operand))
        }
    }
}
