//! What names stand for.

ghost use Rattle.std.specs.Prelude.{◌≡◌, IfOk, OnOk, [], is_none};
ghost use Rattle.ax_scope.specs.NameTable.{look, with_name};

use crate::meaning::Meaning;
use indexmap::IndexMap;
use std::alloc::{AllocError, Global};
use std::marker::Model;

/// Names, each with what it stands for, found in constant time.
#[derive(Drop)]
pub struct NameTable {
    entries: IndexMap<Vec<u8>, Meaning>,
}

impl Model for NameTable {
    ghost use Rattle.std.specs.Prelude.{ℕ, List, map};
    ghost use Rattle.ax_scope.specs.declared.meaning.Meaning.{Meaning};

    ghost Value = { List (List ℕ × Meaning) };

    ghost view = { λ s. map (λ e. (e.0.items, e.1)) s.entries.entries };
}

impl NameTable {
    /// No names.
    pub fn new(alloc: Global) -> NameTable
        ensures { result ≡ [] }
    {
        NameTable {
            entries: IndexMap::new(alloc),
        }
    }

    /// What a name stands for.
    pub fn find(&self, name: &[u8]) -> Option<Meaning>
        ensures { result ≡ look self.now name.now }
    {
        self.entries.get(name).copied()
    }

    /// Adds a name, unless it stands for something already.
    pub fn declare(
        &mut self,
        alloc: Global,
        name: &[u8],
        meaning: Meaning,
    ) -> Result<(), AllocError>
        ensures { OnOk result (self.new ≡ with_name self.old name.now meaning) }
    {
        if self.entries.contains_key(name) {
            return Ok(());
        }
        let key = Vec::from_slice(alloc, name)?;
        self.entries.insert(key, meaning)?;
        Ok(())
    }
}
