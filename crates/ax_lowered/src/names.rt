//! Names of a module, which outlive it.

ghost use Rattle.std.specs.Prelude.{◌≡◌, IfOk, map};

use ax_module::{Function, Global as Variable, Name};
use std::alloc::{AllocError, Global};

fn copied(alloc: Global, name: &Name) -> Result<Name, AllocError>
    ensures { IfOk result (λ n. n ≡ name.now) }
{
    Ok(Name::of(Vec::from_slice(alloc, name.as_bytes())?))
}

/// The names of globals, in order.
pub fn global_names(alloc: Global, globals: &[Variable]) -> Result<Vec<Name>, AllocError>
    ensures { IfOk result (λ v. v.items ≡ map (λ g. g.name) globals.now) }
{
    let mut names = Vec::with_capacity(alloc, globals.len())?;
    for global in globals {
        names.push(copied(alloc, &global.name)?)?;
    }
    Ok(names)
}

/// The names of functions, in order.
pub fn function_names(alloc: Global, functions: &[Function]) -> Result<Vec<Name>, AllocError>
    ensures { IfOk result (λ v. v.items ≡ map (λ f. f.name) functions.now) }
{
    let mut names = Vec::with_capacity(alloc, functions.len())?;
    for function in functions {
        names.push(copied(alloc, &function.name)?)?;
    }
    Ok(names)
}
