//! Operands of instructions, and the pointers among them.

ghost use Rattle.std.specs.Prelude.{◌≡◌, ◌≤◌, IsTrue};
ghost use Rattle.ax_source_run.specs.SourceInstructions.{is_inside};
ghost use Rattle.ax_source_run.specs.SourcePointers.{base_of, elements_of, pointer_of as pointer_to, scaled, stepped};
ghost use Rattle.ax_source_run.specs.SourceValues.{operand_of, part_in, type_bits};
ghost use Rattle.ax_source.specs.Runnable.{is_narrow_addr};
ghost use Rattle.ax_cells.specs.Narrow.{is_narrow};
ghost use Rattle.ax_source.specs.ProcessorState.{IsSound, state_of};
ghost use Rattle.ax_cells.specs.Values.{object_of, pointer_of};

use crate::processor::Processor;
use ax_cells::{Object, Pointer, Value, constant};
use ax_module::{Addr, Base, Operand, Ty};
use ax_values::{bits, index};

/// An index of bytes as one of elements, which have so many bytes.
#[tactic(auto, using(crate::proofs::Elements::quotients))]
fn scaled(elem: Ty, bytes: u64, index: u128) -> u128
    ensures { result ≡ scaled elem bytes index }
{
    match elem {
        Ty::I8 => index.checked_div(u128::from(bytes)).unwrap_or(0),
        _ => index,
    }
}

impl<'a> Processor<'a> {
    /// The number of an operand at a type.
    pub(crate) fn operand(&self, ty: Ty, operand: Operand) -> u128
        requires { IsTrue (is_narrow ty) }
        ensures { result ≡ operand_of ty operand (state_of self.now).values }
    {
        match operand {
            Operand::Value(r) => self.value(r as usize).number(),
            Operand::Const(_) | Operand::Wide(_) | Operand::Param(_) => constant(ty, operand),
        }
    }

    /// A part of a pair.
    pub(crate) fn part(&self, part: u8, pair: Operand) -> u128
        ensures { result ≡ part_in part pair (state_of self.now).values }
    {
        match pair {
            Operand::Value(r) => self.value(r as usize).part(part),
            Operand::Const(_) | Operand::Wide(_) | Operand::Param(_) => 0,
        }
    }

    /// What a pointer operand begins with.
    pub(crate) fn base(&self, base: Base) -> Pointer
        ensures { pointer_of result ≡ base_of base (state_of self.now).values }
    {
        match base {
            Base::Global(g) => Pointer {
                object: Object::Shared(g),
                index: 0,
            },
            Base::Value(r) => self.value(r as usize).pointer(),
            Base::Param(_) => Value::Number(0).pointer(),
        }
    }

    /// The type of an object's elements.
    #[tactic(auto, using(crate::proofs::Elements::shapes))]
    pub(crate) fn elem_of(&self, object: Object) -> Ty
        ensures value { result ≡ (elements_of self.now.program.source self.now.function (object_of object)).elem }
        ensures sound { IsSound self.now }
    {
        let program = self.program();
        match object {
            Object::Shared(g) => match program.module().globals.as_slice().get(g as usize) {
                Some(global) => global.elem,
                None => Ty::I8,
            },
            Object::Private(r) => self.elem(r),
        }
    }

    /// How many bits an object's elements have.
    pub(crate) fn bits_of(&self, object: Object) -> u32
        ensures value { result ≡ type_bits (elements_of self.now.program.source self.now.function (object_of object)).elem }
        ensures most { result ≤ 128 }
    {
        bits(self.elem_of(object))
    }

    /// How many elements an object has.
    #[tactic(auto, using(crate::proofs::Elements::shapes))]
    pub(crate) fn count_of(&self, object: Object) -> u128
        ensures { result ≡ (elements_of self.now.program.source self.now.function (object_of object)).count }
    {
        match object {
            Object::Shared(g) => {
                match self.program().module().globals.as_slice().get(g as usize) {
                    Some(global) => u128::from(global.count),
                    None => 0,
                }
            }
            Object::Private(r) => self.count(r),
        }
    }

    /// The step of a getelementptr: its element type, and the type of the index with the index.
    pub(crate) fn stepped(
        &self,
        elem: Ty,
        index_ty: Ty,
        index_value: Operand,
        p: Pointer,
    ) -> Pointer
        requires { IsTrue (is_narrow index_ty) }
        ensures { pointer_of result ≡ stepped self.now.program.source elem index_ty index_value (state_of self.now) (pointer_of p) }
    {
        let bytes = self.elem_of(p.object).bytes();
        let index = index(index_ty, self.operand(index_ty, index_value));
        Pointer {
            object: p.object,
            index: scaled(elem, bytes, index),
        }
    }

    /// The element that a pointer operand names.
    pub(crate) fn pointer(&self, addr: Addr) -> Pointer
        requires { IsTrue (is_narrow_addr addr) }
        ensures { pointer_of result ≡ pointer_to self.now.program.source addr (state_of self.now) }
    {
        let base = self.base(addr.base);
        match addr.step {
            Some((elem, _, index_ty, index)) => self.stepped(elem, index_ty, index, base),
            None => base,
        }
    }

    /// Whether a pointer operand's index is below the object's count of elements.
    pub(crate) fn is_inside(&self, addr: Addr) -> bool
        requires { IsTrue (is_narrow_addr addr) }
        ensures { result ≡ is_inside self.now.program (state_of self.now) addr }
    {
        let p = self.pointer(addr);
        p.index < self.count_of(p.object)
    }
}
