//! What the pointers of a function can point to, and where that lies.

ghost use Rattle.std.specs.Prelude.{◌≡◌, ◌<◌, ◌≤◌, ◌+◌, ◌*◌, IfOk, Some, length, slice_get};
ghost use Rattle.ax_layout.specs.Layout.{address_in};
ghost use Rattle.ax_module.specs.Types.{type_bytes};
ghost use Rattle.ax_source_run.specs.SourcePointers.{elements_of, no_elements};
ghost use Rattle.ax_source_run.specs.SourceState.{Private, Shared};
ghost use Rattle.ax_typed.specs.Typed.{outcome_in};
ghost use Rattle.ax_selected.specs.Addresses.{address_of, frame_offset};
ghost use Rattle.ax_reach.specs.Facts.{Fits, extent_of};
ghost use Rattle.ax_reach.specs.Frames.{elements_in};
ghost use Rattle.ax_reach.specs.Places.{IsReached, object_of};

use crate::frame::Frame;
use crate::place::Object;
use ax_check::Accepted;
use ax_check::laws::{
    accepted_can_be_laid_out, accepted_functions_are_within_limits, accepted_instructions_are_sound,
};
use ax_mid::{MidInst, Virtual};
use ax_module::{Function, Module, Ty};
use ax_rules::{Extent, FunctionScope, Outcome};
use ax_words::Site;
use std::alloc::{AllocError, Global};
use std::marker::Model;

/// What the middle code of a function's pointers needs, which is made once for a function: the
/// results of its instructions, the elements of objects, and where they lie.
#[derive(Drop)]
pub struct Pointers<'a> {
    program: &'a Accepted,
    function: u32,
    scope: FunctionScope,
    frame: Frame,
}

impl<'a> Model for Pointers<'a> {
    ghost use Rattle.ax_reach.specs.Facts.{AreOf};
    ghost use Rattle.ax_reach.specs.FunctionState.{FunctionState};

    ghost Value = { FunctionState };

    ghost view = { λ p. record { program = p.program.now; function = p.function } };

    ghost invariant = { λ p. AreOf p.program.now p.function p.scope p.frame };
}

fn function_of<'a>(source: &'a Module, number: u32) -> &'a Function
    requires { number < length source.now.functions }
    ensures { slice_get source.entry.now.functions number ≡ Some result.now }
{
    &source.functions.as_slice()[number as usize]
}

/// What isn't there has no elements.
fn no_extent() -> Extent
    ensures { result ≡ extent_of no_elements }
{
    Extent {
        elem: Ty::I8,
        count: 0,
    }
}

/// The elements of an instruction's alloca.
fn extent_in(outcome: Outcome) -> Extent
    ensures { result ≡ extent_of (elements_in outcome) }
{
    match outcome {
        Outcome::Alloca(extent) => extent,
        _ => no_extent(),
    }
}

impl<'a> Pointers<'a> {
    /// The pointers of a function of a program, in steps as many as its instructions. It fails only
    /// where there is no memory.
    pub fn of(
        alloc: Global,
        program: &'a Accepted,
        function: u32,
    ) -> Result<Pointers<'a>, AllocError>
        requires { function < length program.now.source.functions }
        ensures { IfOk result (λ p. p ≡ record { program = program.entry.now; function = function }) }
    {
        accepted_instructions_are_sound();
        accepted_functions_are_within_limits();
        accepted_can_be_laid_out();
        program.is_without_faults();
        let source = program.module();
        let scope = FunctionScope::of(alloc, source, function_of(source, function))?;
        let frame = Frame::of(alloc, scope.outcomes.as_slice())?;
        Ok(Pointers {
            program,
            function,
            scope,
            frame,
        })
    }

    /// What the result of instruction `r` is.
    pub(crate) fn outcome(&self, r: u32) -> Outcome
        ensures { result ≡ outcome_in self.now.program.source self.now.function r }
    {
        self.scope.outcome(r)
    }

    /// The site of instruction `k`.
    pub(crate) fn site(&self, k: u32) -> Site
        ensures site { result ≡ record { function = self.now.function; instruction = k } }
        ensures fits { Fits self.now.program self.now.function }
    {
        Site {
            function: self.function,
            instruction: k,
        }
    }

    /// A law: what is known of the function's objects.
    fn fits(&self)
        ensures { Fits self.now.program self.now.function }
    {
        let _ = &self.program;
    }

    /// The elements of an object.
    fn elements(&self, object: Object) -> Extent
        ensures { result ≡ extent_of (elements_of self.now.program.source self.now.function (object_of object)) }
    {
        match object {
            Object::Shared(g) => self
                .scope
                .globals
                .as_slice()
                .get(g as usize)
                .copied()
                .unwrap_or(no_extent()),
            Object::Private(r) => extent_in(self.scope.outcome(r)),
        }
    }

    /// The elements of an object, which have at most 16 bytes.
    pub(crate) fn extent(&self, object: Object) -> Extent
        ensures extent { result ≡ extent_of (elements_of self.now.program.source self.now.function (object_of object)) }
        ensures bytes { type_bytes result.elem ≤ 16 }
    {
        self.fits();
        self.elements(object)
    }

    /// The address of element `i` of global `g`; what isn't there lies at 0.
    fn global_address(&self, g: u32, i: u64) -> u64
        requires { IsReached self.now.program self.now.function (Shared g) i }
        ensures { result ≡ address_in self.now.program.layout g i }
    {
        if i < self.extent(Object::Shared(g)).count {
            self.program.layout().address(g, i)
        } else {
            0
        }
    }

    /// The offset in the frame of element `i` of instruction `r`'s alloca.
    fn frame_address(&self, r: u32, i: u64) -> u32
        requires { IsReached self.now.program self.now.function (Private r) i }
        ensures { result ≡ frame_offset self.now.program.source self.now.function r + i * type_bytes (elements_of self.now.program.source self.now.function (Private r)).elem }
    {
        let bytes = self.extent(Object::Private(r)).elem.bytes();
        (u64::from(self.frame.offset(r)) + i * bytes) as u32
    }

    /// The line that brings the address of an element into register 0.
    pub(crate) fn address(&self, object: Object, i: u64) -> MidInst<Virtual>
        requires { IsReached self.now.program self.now.function (object_of object) i }
        ensures { result ≡ address_of self.now.program self.now.function (object_of object) i }
    {
        match object {
            Object::Shared(g) => MidInst::Const(Virtual(0), self.global_address(g, i)),
            Object::Private(r) => MidInst::FrameAddress(Virtual(0), self.frame_address(r, i)),
        }
    }
}
