//! Places of a module as a refusal names them.

ghost use Rattle.std.specs.Prelude.{◌≡◌, ◌++◌, All, IfOk, OnOk};
ghost use Rattle.std.specs.String.{string_bytes};
ghost use Rattle.ax_module.specs.Names.{IsAscii, global_token};
ghost use Rattle.ax_module.specs.WellFormed.{IsModule};
ghost use Rattle.ax_app.specs.Places.{AreNamesOf, name_at, place_text};

use ax_lowered::{function_names, global_names};
use ax_module::{Module, Name, names_are_ascii};
use ax_words::Place;
use std::alloc::{AllocError, Global};

/// The names of a module's globals and functions, which outlive it.
#[derive(Drop)]
pub(crate) struct Names {
    globals: Vec<Name>,
    functions: Vec<Name>,
}

/// Appends the name at a position behind its `@`; past the last, the empty name.
fn push_name(out: &mut String, names: &[Name], k: u32) -> Result<(), AllocError>
    requires { All (λ name. IsAscii name) names.now }
    ensures { OnOk result (string_bytes out.new ≡ string_bytes out.old ++ global_token (name_at names.now k)) }
{
    match names.get(k as usize) {
        Some(name) => name.push_to(out),
        None => write!(out, "@\"\""),
    }
}

impl Names {
    pub(crate) fn of(alloc: Global, source: &Module) -> Result<Names, AllocError>
        requires { IsModule source.now }
        ensures { IfOk result (λ names. AreNamesOf names source.now) }
    {
        names_are_ascii();
        Ok(Names {
            globals: global_names(alloc, source.globals.as_slice())?,
            functions: function_names(alloc, source.functions.as_slice())?,
        })
    }

    /// A place: a global's name, or a function's with `head` or the number of an instruction.
    pub(crate) fn place(&self, alloc: Global, place: Place) -> Result<String, AllocError>
        requires globals { All (λ name. IsAscii name) self.now.globals.items }
        requires functions { All (λ name. IsAscii name) self.now.functions.items }
        ensures { IfOk result (λ text. string_bytes text ≡ place_text self.now.globals.items self.now.functions.items place) }
    {
        let mut text = String::new(alloc);
        match place {
            Place::Global(g) => push_name(&mut text, self.globals.as_slice(), g)?,
            Place::Head(f) => {
                push_name(&mut text, self.functions.as_slice(), f)?;
                write!(text, " head")?;
            }
            Place::Inst(site) => {
                push_name(&mut text, self.functions.as_slice(), site.function)?;
                let number = site.instruction;
                write!(text, " {number}")?;
            }
        }
        Ok(text)
    }
}
