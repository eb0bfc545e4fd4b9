//! Where labels stand.

ghost use Rattle.std.specs.Prelude.{◌≡◌, ◌<◌, ◌^◌, ℕ, IfOk, OnOk, None, Some, if◌then◌else◌, length, nat_eq};
ghost use Rattle.std.specs.Option.{option_or};
ghost use Rattle.indexmap.specs.IndexMap.{get};
ghost use Rattle.ax_emit.specs.Behind.{behind_in};
ghost use Rattle.ax_mid.specs.Machine.{behind_label, is_label, label_at};

use ax_mid::{Line, MidInst};
use indexmap::IndexMap;
use std::alloc::{AllocError, Global};
use std::marker::Model;

/// Where control goes on at each label: at the line behind the first line that is the label, and
/// behind all lines where none is. A label is found in constant time.
#[derive(Drop)]
pub struct Labels {
    found: IndexMap<u32, u32>,
    end: u32,
}

impl Model for Labels {
    ghost use Rattle.std.specs.Prelude.{ℕ, List};

    ghost Value = { List (ℕ × ℕ) × ℕ };

    ghost view = { λ s. (s.found.entries, s.end) };
}

/// Notes the line behind a label, unless the label has one.
fn note(found: &mut IndexMap<u32, u32>, label: u32, behind: u32) -> Result<(), AllocError>
    ensures { OnOk result ((n : ℕ) → get nat_eq found.new n ≡ option_or (get nat_eq found.old n) (if nat_eq label n then Some behind else None)) }
{
    if found.contains_key(&label) {
        return Ok(());
    }
    found.insert(label, behind)?;
    Ok(())
}

/// Notes the line behind another, where that is a label.
fn note_line<R>(
    found: &mut IndexMap<u32, u32>,
    line: &Line<R>,
    behind: u32,
) -> Result<(), AllocError>
    ensures { OnOk result ((key : R → ℕ) (n : ℕ) → get nat_eq found.new n ≡ option_or (get nat_eq found.old n) (if is_label key n (label_at key line.now.inst) then Some behind else None)) }
{
    match &line.inst {
        MidInst::Label(label) => note(found, *label, behind),
        _ => Ok(()),
    }
}

impl Labels {
    /// Where control goes on at the labels of these lines. The only error is memory.
    pub fn of<R>(alloc: Global, lines: &[Line<R>]) -> Result<Labels, AllocError>
        requires { length lines.now < 2 ^ 32 }
        ensures { IfOk result (λ labels. (key : R → ℕ) (n : ℕ) → behind_in labels n ≡ behind_label key lines.now n 0) }
    {
        let mut found = IndexMap::new(alloc);
        for (j, line) in lines.iter().enumerate() {
            note_line(&mut found, line, j as u32 + 1)?;
        }
        Ok(Labels {
            found,
            end: lines.len() as u32,
        })
    }

    /// The line behind the first line that is this label, or the number of lines where none is.
    pub fn behind(&self, label: u32) -> u32
        ensures { result ≡ behind_in self.now label }
    {
        match self.found.get(&label) {
            Some(line) => *line,
            None => self.end,
        }
    }
}
