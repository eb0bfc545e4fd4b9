//! Arrays of numbers in a row: the globals of a module, and the allocas of a function.

ghost use Rattle.std.specs.Prelude.{◌≡◌, ◌<◌, length, replicate, slice_index, slice_index_or, slice_set, unwrap_or, option_copied, IfOk};
ghost use Rattle.ax_source_run.specs.SourceAccess.{element_set};
ghost use Rattle.ax_cells.specs.Shapes.{IsCell, cells_of, no_array, shape_in, shapes_of};

use ax_module::Ty;
use std::alloc::{AllocError, Global};
use std::marker::Model;

/// An array of numbers, and the type of its elements.
///
/// Contracts see it as an `ArrayState`.
#[derive(Drop)]
pub struct Array {
    elem: Ty,
    cells: Vec<u128>,
}

impl Model for Array {
    ghost use Rattle.ax_cells.specs.Shapes.{ArrayState};

    ghost Value = { ArrayState };

    ghost view = { λ a. record { elem = a.elem; cells = a.cells.items } };
}

impl Array {
    /// An array of so many zeros.
    pub(crate) fn zeros(alloc: Global, elem: Ty, count: u64) -> Result<Array, AllocError>
        ensures { IfOk result (λ a. a ≡ record { elem = elem; cells = replicate count 0 }) }
    {
        Ok(Array {
            elem,
            cells: vec![in alloc; 0; count as usize]?,
        })
    }

    pub(crate) fn of(elem: Ty, cells: Vec<u128>) -> Array
        ensures { result ≡ record { elem = elem; cells = cells.items } }
    {
        Array { elem, cells }
    }

    fn set(&mut self, i: u128, number: u128)
        requires { i < length self.old.cells }
        ensures { self.new ≡ record self.old { cells = slice_set self.old.cells i number } }
    {
        self.cells[i as usize] = number;
    }

    fn number(&self, i: u128) -> u128
        ensures { result ≡ slice_index self.now.cells i }
    {
        if i < self.cells.len() as u128 {
            self.cells[i as usize]
        } else {
            0
        }
    }
}

/// Arrays in a row, which are named by their positions. Where there is no array, one of no elements
/// stands, and 0 where there is no element.
///
/// Contracts see it as a list of `ArrayState`; `cells_of` are its numbers, and `shapes_of` the type and
/// the count of each array's elements.
#[derive(Drop)]
pub struct Arrays {
    arrays: Vec<Array>,
}

impl Model for Arrays {
    ghost use Rattle.std.specs.Prelude.{List};
    ghost use Rattle.ax_cells.specs.Shapes.{ArrayState};

    ghost Value = { List ArrayState };

    ghost view = { λ a. a.arrays.items };
}

impl Arrays {
    /// These arrays, the first at position 0. It takes no memory and never fails.
    pub fn of(arrays: Vec<Array>) -> Arrays
        ensures { result ≡ arrays.items }
    {
        Arrays { arrays }
    }

    fn array(&self, r: u128) -> Option<&Array>
        ensures { unwrap_or (option_copied result) no_array ≡ slice_index_or self.now r no_array }
    {
        if r < self.arrays.len() as u128 {
            self.arrays.get(r as usize)
        } else {
            None
        }
    }

    /// The type of the elements of the array at position `r`, and `i8` where there is none.
    #[tactic(auto, using(crate::proofs::Writes::read))]
    pub fn elem(&self, r: u128) -> Ty
        ensures { result ≡ (shape_in (shapes_of self.now) r).elem }
    {
        match self.array(r) {
            Some(array) => array.elem,
            None => Ty::I8,
        }
    }

    /// How many elements the array at position `r` has, and 0 where there is none.
    #[tactic(auto, using(crate::proofs::Writes::read))]
    pub fn count(&self, r: u128) -> u128
        ensures { result ≡ (shape_in (shapes_of self.now) r).count }
    {
        match self.array(r) {
            Some(array) => array.cells.len() as u128,
            None => 0,
        }
    }

    /// The number of element `i` of the array at position `r`, and 0 where there is none.
    pub fn number(&self, r: u128, i: u128) -> u128
        ensures { result ≡ cells_of self.now r i }
    {
        match self.array(r) {
            Some(array) => array.number(i),
            None => 0,
        }
    }

    /// Writes a number into element `i` of the array at position `r`, which there is. All other
    /// numbers stay, and so do the types and the counts. It never fails.
    #[tactic(auto, using(crate::proofs::Writes::written))]
    pub fn set(&mut self, r: u128, i: u128, number: u128)
        requires { IsCell (shapes_of self.old) r i }
        ensures numbers { cells_of self.new ≡ element_set r i number (cells_of self.old) }
        ensures shapes { shapes_of self.new ≡ shapes_of self.old }
    {
        let array = &mut self.arrays[r as usize];
        array.set(i, number);
    }
}
