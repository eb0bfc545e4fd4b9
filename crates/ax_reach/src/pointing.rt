//! Where a pointer operand points.

ghost use Rattle.std.specs.Prelude.{◌≡◌, IsTrue};
ghost use Rattle.ax_cells.specs.Narrow.{is_narrow};
ghost use Rattle.ax_source_run.specs.SourcePointers.{scaled};
ghost use Rattle.ax_source_run.specs.SourceValues.{index_of as index_of_number};
ghost use Rattle.ax_selected.specs.Addresses.{index_of_base, index_of_step, object_of as object_of_base, pointing, stepped_object};
ghost use Rattle.ax_selected.specs.Operands.{constant_of};
ghost use Rattle.ax_reach.specs.Near.{IsNearAddr, IsNearBase, IsNearIndex, IsNearNumber};
ghost use Rattle.ax_reach.specs.Places.{index_of, object_of, pointing_of};

use crate::place::{Index, Object, Origin, Pointing};
use crate::pointers::Pointers;
use ax_cells::constant;
use ax_module::{Addr, Base, Operand, Ty};
use ax_rules::Outcome;
use ax_values::index;

/// The object of a getelementptr's base.
fn stepped_object(base: Base) -> Object
    ensures { object_of result ≡ stepped_object base }
{
    match base {
        Base::Global(g) => Object::Shared(g),
        Base::Value(r) => Object::Private(r),
        Base::Param(_) => Object::Private(0),
    }
}

/// A constant as an index: extended by its sign to 64 bits, and taken as unsigned.
#[tactic(auto, using(crate::proofs::Indexes::index_below))]
fn constant_index(ty: Ty, operand: Operand) -> u64
    requires { IsTrue (is_narrow ty) }
    ensures { result ≡ index_of_number ty (constant_of ty operand) }
{
    index(ty, constant(ty, operand)) as u64
}

/// An index of bytes as one of elements, which have so many bytes.
#[tactic(auto, using(crate::proofs::Indexes::by_none))]
fn scaled(elem: Ty, bytes: u64, index: u64) -> u64
    ensures { result ≡ scaled elem bytes index }
{
    match elem {
        Ty::I8 => index.checked_div(bytes).unwrap_or(0),
        _ => index,
    }
}

impl<'a> Pointers<'a> {
    /// The object into which a base points.
    pub(crate) fn object(&self, base: Base) -> Object
        ensures { object_of result ≡ object_of_base self.now.program self.now.function base }
    {
        match base {
            Base::Global(g) => Object::Shared(g),
            Base::Value(r) => match self.outcome(r) {
                Outcome::Gep(base, ..) => stepped_object(base),
                _ => Object::Private(r),
            },
            Base::Param(_) => Object::Private(0),
        }
    }

    /// The index of a base without a step.
    fn base_index(&self, base: Base) -> Index
        requires { IsNearBase base }
        ensures value { index_of result ≡ index_of_base self.now.program self.now.function base }
        ensures near { IsNearIndex result }
    {
        match base {
            Base::Value(r) => match self.outcome(r) {
                Outcome::Gep(..) => Index::Brought(Origin::Gep(r)),
                _ => Index::Fixed(0),
            },
            Base::Global(_) | Base::Param(_) => Index::Fixed(0),
        }
    }

    /// The index of a step into an object: an element type, and an index with its type.
    pub(crate) fn step_index(&self, object: Object, elem: Ty, ty: Ty, operand: Operand) -> Index
        requires { IsNearNumber ty operand }
        ensures value { index_of result ≡ index_of_step self.now.program self.now.function (object_of object) elem ty operand }
        ensures near { IsNearIndex result }
    {
        match operand {
            Operand::Value(r) => Index::Brought(Origin::Number(ty, r)),
            constant_operand => {
                let bytes = self.extent(object).elem.bytes();
                Index::Fixed(scaled(elem, bytes, constant_index(ty, constant_operand)))
            }
        }
    }

    /// The object and the index of a pointer operand.
    pub(crate) fn pointing(&self, addr: Addr) -> Pointing
        requires { IsNearAddr addr }
        ensures value { pointing_of result ≡ pointing self.now.program self.now.function addr }
        ensures near { IsNearIndex result.index }
    {
        let object = self.object(addr.base);
        let index = match addr.step {
            Some((elem, _, ty, operand)) => self.step_index(object, elem, ty, operand),
            None => self.base_index(addr.base),
        };
        Pointing { object, index }
    }
}
