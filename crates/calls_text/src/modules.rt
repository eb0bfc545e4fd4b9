//! Modules of texts, and their canonical texts.

ghost use Rattle.std.specs.Prelude.{IfOk};
ghost use Rattle.ax_module.specs.WellFormed.{IsModule};

use ax_again::reread;
use ax_ir::spell;
use ax_module::{Module, Ty};
use ax_read::{ReadFault, read};
use ax_rows::Fault;
use std::alloc::{AllocError, Global};

/// The number of globals, of blocks of the first function, and of instructions of its last block.
fn shape(alloc: Global, module: &Module) -> Result<String, AllocError> {
    let globals = module.globals.as_slice().len();
    let functions = module.functions.as_slice();
    let blocks = functions.first().map_or(0, |f| f.blocks.as_slice().len());
    let last = functions.first().and_then(|f| f.blocks.as_slice().last());
    let insts = last.map_or(0, |block| block.insts.as_slice().len());
    format!(in alloc; "{globals} globals, {blocks} blocks, {insts} instructions")
}

/// The module of a text that has one.
pub(crate) fn module_in(alloc: Global, text: &[u8]) -> Result<Module, Fault>
    ensures { IfOk result IsModule }
{
    if text.len() > 4_194_304 {
        return Err(Fault::Row);
    }
    match read(alloc, text) {
        Ok(module) => Ok(module),
        Err(ReadFault::Memory) => Err(Fault::Memory),
        Err(_) => Err(Fault::Row),
    }
}

/// The shape of a text's module, or the text's fault.
pub(crate) fn shape_of(alloc: Global, text: &[u8]) -> Result<String, Fault> {
    if text.len() > 4_194_304 {
        return Err(Fault::Row);
    }
    match read(alloc, text) {
        Ok(module) => Ok(shape(alloc, &module)?),
        Err(ReadFault::Syntax { line }) => Ok(format!(in alloc; "syntax {line}")?),
        Err(ReadFault::Opcode { line }) => Ok(format!(in alloc; "opcode {line}")?),
        Err(ReadFault::Name { line }) => Ok(format!(in alloc; "name {line}")?),
        Err(ReadFault::Memory) => Err(Fault::Memory),
    }
}

/// Whether the canonical text of the first text's module is the second text, and whether the module
/// that is read from it again has that canonical text too.
pub(crate) fn spelled(alloc: Global, texts: &[Vec<u8>]) -> Result<String, Fault> {
    let [text, canonical] = texts else {
        return Err(Fault::Row);
    };
    let module = module_in(alloc, text.as_slice())?;
    let first = spell(alloc, &module)?;
    if first.len() > 4_194_304 {
        return Err(Fault::Row);
    }
    let again = reread(alloc, &module).map_err(|_| Fault::Memory)?;
    let second = spell(alloc, &again)?;
    if first.as_bytes() == canonical.as_slice() && second == first {
        Ok(String::from_str(alloc, "so")?)
    } else {
        Ok(first)
    }
}

/// The type of a word: its variant and its bytes.
pub(crate) fn type_of(alloc: Global, word: &str) -> Result<String, Fault> {
    let ty = match word {
        "float" => Ty::Float,
        "double" => Ty::Double,
        "ptr" => Ty::Ptr,
        "vector" => Ty::Vector,
        _ => Ty::of_bits(word.strip_prefix("i").ok_or(Fault::Row)?.parse::<u32>()?),
    };
    let variant = match ty {
        Ty::I1 => "I1",
        Ty::I8 => "I8",
        Ty::I16 => "I16",
        Ty::I32 => "I32",
        Ty::I64 => "I64",
        Ty::I128 => "I128",
        Ty::Int(_) => "Int",
        Ty::Float => "Float",
        Ty::Double => "Double",
        Ty::Ptr => "Ptr",
        Ty::Vector => "Vector",
    };
    Ok(format!(in alloc; "{variant}, {} bytes", ty.bytes())?)
}
