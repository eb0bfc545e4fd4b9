//! The module that lines are.

ghost use Rattle.std.specs.Prelude.{◌≡◌, ◌<◌, ◌^◌, [], None, List, ℕ, length, true, All, IfOk, IfErr, OnOk};
ghost use Rattle.ax_scope.specs.NameTable.{look};
ghost use Rattle.ax_scope.specs.Answers.{Finds, first_fault, IsFault};
ghost use Rattle.ax_scope.specs.Faults.{faults_from, NamesFit, IsNameFault};
ghost use Rattle.ax_scope.specs.Module.{functions_in, module_of};
ghost use Rattle.ax_module.specs.WellFormed.{is_counted};
ghost use Rattle.ax_lines.specs.declared.statement.Line.{Line};
ghost use Rattle.ax_lines.specs.Lines.{param_count};

use crate::declared::globals_of;
use crate::fault::ScopeFault;
use crate::function::function_in;
use crate::global::globals_in;
use crate::name_table::NameTable;
use crate::outer::enter_at;
use crate::seen::Seen;
use ax_lines::Line;
use ax_module::{Function, Module};
use ax_words::Items;
use std::alloc::Global;

/// The functions of a text.
fn functions_in(
    alloc: Global,
    text: &[u8],
    globals: &NameTable,
    lines: &[Line],
) -> Result<Vec<Function>, ScopeFault>
    requires few { length lines.now < 2 ^ 32 }
    requires few_params { All (λ l. param_count l < 2 ^ 32) lines.now }
    ensures built { IfOk result (λ v. v.items ≡ functions_in text.now (look globals.now) lines.now) }
    ensures found { Finds result (first_fault 1 (faults_from text.now (look globals.now) [] None lines.now)) }
{
    let mut functions = Vec::new(alloc);
    let mut names = Seen::new(alloc);
    let mut number = 1;
    let mut rest = lines;
    while let [line, behind @ ..] = rest {
        let params = enter_at(alloc, text, &mut names, line, number)?;
        number += 1;
        let inside = function_in(
            alloc,
            text,
            globals,
            line,
            params,
            behind,
            number,
            &mut functions,
        )?;
        let (_, left) = behind.split_at(inside);
        number += inside;
        rest = left;
    }
    Ok(functions)
}

/// The module that a text's lines are, or the first line whose names don't fit: it uses an
/// undeclared local, label or global, declares a name a second time in its function or among
/// globals and functions, or defines a function named `out` or beginning with `__atomic_`
/// (LLVM Language Reference, Identifiers).
///
/// The names are found in the text. Lines are counted from 1; there are fewer than 2^32, and each
/// states fewer than 2^32 parameters. Memory is wanted where it runs out.
pub fn module_of(alloc: Global, text: &[u8], lines: &[Line]) -> Result<Module, ScopeFault>
    requires few { length lines.now < 2 ^ 32 }
    requires few_params { All (λ l. param_count l < 2 ^ 32) lines.now }
    ensures fit { OnOk result (NamesFit text.now lines.now) }
    ensures module { IfOk result (λ m. m ≡ module_of text.now lines.now) }
    ensures counts { IfOk result (λ m. is_counted m ≡ true) }
    ensures fault { IfErr result (λ e. IsFault text.now lines.now e) }
{
    let scope = globals_of(alloc, text, lines)?;
    let globals = globals_in(alloc, text, lines)?;
    let functions = functions_in(alloc, text, &scope, lines)?;
    Ok(Module {
        globals: Items::of(globals),
        functions: Items::of(functions),
    })
}

/// A text whose names fit has no fault, and else one first fault alone.
pub fn one_answer()
    ensures fit { (text : List ℕ) (lines : List Line) (n : ℕ) → NamesFit text lines → IsNameFault text lines n → ⊥ }
    ensures fault { (text : List ℕ) (lines : List Line) (n m : ℕ) → IsNameFault text lines n → IsNameFault text lines m → n ≡ m }
{}
