//! Middle code that grows.

ghost use Rattle.std.specs.Prelude.{◌≡◌, ◌++◌, [], ◌∷◌, OnOk};
ghost use Rattle.ax_mid.specs.Built.{pushed};

use crate::code::{Line, Mid, MidGlobal};
use crate::instruction::MidInst;
use ax_tags::Tag;
use ax_words::{Items, Site};
use std::alloc::{AllocError, Global};
use std::marker::Model;

/// Middle code to which instructions are pushed. Contracts see it as the code so far.
#[derive(Drop)]
pub struct Builder<R> {
    globals: Items<MidGlobal>,
    lines: Vec<Line<R>>,
}

impl<R> Model for Builder<R> {
    ghost use Rattle.ax_mid.specs.declared.code.Mid.{Mid};

    ghost Value = { Mid R };

    ghost view = { λ b. record { globals = b.globals; lines = b.lines.items } };
}

impl<R> Builder<R> {
    /// No instruction, over these globals.
    pub fn new(alloc: Global, globals: Vec<MidGlobal>) -> Builder<R>
        ensures globals { result.globals ≡ globals.items }
        ensures lines { result.lines ≡ [] }
    {
        Builder {
            globals: Items::of(globals),
            lines: Vec::new(alloc),
        }
    }

    /// One more instruction.
    pub fn push(&mut self, inst: MidInst<R>, site: Site, tag: Tag) -> Result<(), AllocError>
    where
        R: Drop,
        ensures { OnOk result (self.new ≡ pushed (record { inst = inst; site = site; tag = tag } ∷ []) self.old) }
    {
        Ok(self.lines.push(Line { inst, site, tag })?)
    }

    /// The code.
    pub fn finish(self) -> Mid<R>
        ensures { result ≡ self }
    {
        Mid {
            globals: self.globals,
            lines: Items::of(self.lines),
        }
    }
}
