//! Where the newest store to each element stands among the stores of a processor.

ghost use Rattle.std.specs.Prelude.{◌≡◌, ◌<◌, length, map, replicate, slice_index, slice_set, IfOk};
ghost use Rattle.ax_source_run.specs.SourceAccess.{element_set};
ghost use Rattle.ax_cells.specs.NewestStores.{counts_of, place_in, no_places};

use ax_module::module;
use std::alloc::{AllocError, Global};
use std::marker::Model;

/// The places of the newest stores to the elements of a global.
#[derive(Drop)]
struct Row {
    places: Vec<usize>,
}

impl Model for Row {
    ghost use Rattle.std.specs.Prelude.{ℕ, List};

    ghost Value = { List ℕ };

    ghost view = { λ r. r.places.items };
}

impl Row {
    fn none(alloc: Global, count: u64) -> Result<Row, AllocError>
        ensures { IfOk result (λ r. r ≡ replicate count 0) }
    {
        Ok(Row {
            places: vec![in alloc; 0; count as usize]?,
        })
    }

    fn place(&self, i: u128) -> usize
        ensures { result ≡ slice_index self.now i }
    {
        if i < self.places.len() as u128 {
            self.places[i as usize]
        } else {
            0
        }
    }

    fn set(&mut self, i: u128, place: usize)
        requires { i < length self.old }
        ensures { self.new ≡ slice_set self.old i place }
    {
        self.places[i as usize] = place;
    }
}

/// The place of the newest store to each element of each global, counted from 1, and 0 where there
/// is none.
#[derive(Drop)]
pub(crate) struct NewestStores {
    rows: Vec<Row>,
}

impl Model for NewestStores {
    ghost use Rattle.std.specs.Prelude.{ℕ, List};

    ghost Value = { List (List ℕ) };

    ghost view = { λ n. n.rows.items };
}

impl NewestStores {
    /// No store to any element of these globals.
    pub(crate) fn none(
        alloc: Global,
        globals: &[module::Global],
    ) -> Result<NewestStores, AllocError>
        ensures { IfOk result (λ n. n ≡ map no_places globals.now) }
    {
        let mut rows = Vec::with_capacity(alloc, globals.len())?;
        for global in globals {
            rows.push(Row::none(alloc, global.count)?)?;
        }
        Ok(NewestStores { rows })
    }

    /// The place of the newest store to an element, and 0 where there is no such element.
    pub(crate) fn place(&self, global: u32, element: u128) -> usize
        ensures { result ≡ place_in self.now global element }
    {
        match self.rows.get(global as usize) {
            Some(row) => row.place(element),
            None => 0,
        }
    }

    #[tactic(auto, using(crate::proofs::NewestStores::places))]
    pub(crate) fn set(&mut self, global: u32, element: u128, place: usize)
        requires { element < slice_index (counts_of self.old) global }
        ensures places { place_in self.new ≡ element_set global element place (place_in self.old) }
        ensures counts { counts_of self.new ≡ counts_of self.old }
    {
        let row = &mut self.rows[global as usize];
        row.set(element, place);
    }
}
