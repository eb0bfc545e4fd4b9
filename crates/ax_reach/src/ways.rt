//! The way to an element: the test of its index, and its address into register 0.

ghost use Rattle.std.specs.Prelude.{◌≡◌, ◌<◌, OnOk, map};
ghost use Rattle.ax_mid.specs.Built.{pushed};
ghost use Rattle.ax_selected.specs.Addresses.{Fixed};
ghost use Rattle.ax_selected.specs.Registers.{first_label, second_label};
ghost use Rattle.ax_selected.specs.Selected.{compared, found, silent as silent_line};
ghost use Rattle.ax_reach.specs.Near.{IsNearIndex, IsNearOrigin};
ghost use Rattle.ax_reach.specs.Places.{index_of, lines_of, object_of};
ghost use Rattle.ax_reach.specs.Ways.{guard, tested_way, way};

use crate::place::{Index, Object, Origin, Pointing};
use crate::pointers::Pointers;
use ax_mid::{MidInst, MidOp, Virtual};
use ax_module::Operand;
use ax_pieces::lines::{Code, acting, low_into, low_of, silent};
use ax_values::bits;
use ax_words::Site;
use std::alloc::AllocError;

/// The label of the trap of an instruction.
fn first_label(site: Site) -> u32
    requires function { site.function < 64 }
    requires near { site.instruction < 2048 }
    ensures { result ≡ first_label site.function site.instruction }
{
    8192 * site.function + 4 * site.instruction + 1
}

/// The label behind it.
fn second_label(site: Site) -> u32
    requires function { site.function < 64 }
    requires near { site.instruction < 2048 }
    ensures { result ≡ second_label site.function site.instruction }
{
    8192 * site.function + 4 * site.instruction + 2
}

/// An index that is a result, into register 1.
pub(crate) fn push_origin(code: &mut Code, site: Site, origin: Origin) -> Result<(), AllocError>
    requires { IsNearOrigin origin }
    ensures { OnOk result (code.new ≡ pushed (map (silent_line site.function site.instruction) (lines_of origin)) code.old) }
{
    match origin {
        Origin::Gep(r) => silent(code, site, MidInst::Copy(Virtual(1), Virtual(low_of(r)))),
        Origin::Number(ty, r) => {
            silent(code, site, low_into(1, ty, Operand::Value(r)))?;
            silent(
                code,
                site,
                MidInst::Extend(Virtual(1), Virtual(1), bits(ty) as u8, true),
            )
        }
    }
}

/// Whether the index in register 1 is below a count, into register 2.
fn push_compared(code: &mut Code, site: Site, count: u64) -> Result<(), AllocError>
    ensures { OnOk result (code.new ≡ pushed (map (silent_line site.function site.instruction) (compared site.function site.instruction count)) code.old) }
{
    silent(code, site, MidInst::Const(Virtual(2), count))?;
    silent(
        code,
        site,
        MidInst::Apply(MidOp::Ult, Virtual(2), Virtual(1), Virtual(2)),
    )
}

/// A trap where the test in register 2 fails.
fn push_guard(code: &mut Code, site: Site) -> Result<(), AllocError>
    requires function { site.function < 64 }
    requires near { site.instruction < 2048 }
    ensures { OnOk result (code.new ≡ pushed (guard site.function site.instruction) code.old) }
{
    let (outside, inside) = (first_label(site), second_label(site));
    silent(code, site, MidInst::Branch(Virtual(2), inside, outside))?;
    silent(code, site, MidInst::Label(outside))?;
    acting(code, site, MidInst::Trap)?;
    silent(code, site, MidInst::Label(inside))
}

/// The address of the element whose index is in register 1, into register 0: by the line that brings
/// the address of the first, and the bytes of each.
fn push_found(
    code: &mut Code,
    site: Site,
    first: MidInst<Virtual>,
    bytes: u64,
) -> Result<(), AllocError>
    ensures { OnOk result (code.new ≡ pushed (map (silent_line site.function site.instruction) (found site.function site.instruction first bytes)) code.old) }
{
    silent(code, site, MidInst::Const(Virtual(2), bytes))?;
    silent(
        code,
        site,
        MidInst::Apply(MidOp::Mul, Virtual(1), Virtual(1), Virtual(2)),
    )?;
    silent(code, site, first)?;
    silent(
        code,
        site,
        MidInst::Apply(MidOp::Add, Virtual(0), Virtual(0), Virtual(1)),
    )
}

impl<'a> Pointers<'a> {
    /// The way to the element of an object whose index is in register 1, and a trap before it where
    /// there is none.
    fn push_tested(&self, code: &mut Code, k: u32, object: Object) -> Result<(), AllocError>
        requires { k < 2048 }
        ensures { OnOk result (code.new ≡ pushed (tested_way self.now.program self.now.function k (object_of object)) code.old) }
    {
        let site = self.site(k);
        let extent = self.extent(object);
        let first = self.address(object, 0);
        push_compared(code, site, extent.count)?;
        push_guard(code, site)?;
        push_found(code, site, first, extent.elem.bytes())
    }

    /// The way to the element of an object whose index is fixed. An index that lies past the last
    /// element is tested as one in a register is, so that the access has its lines there too.
    fn push_fixed(&self, code: &mut Code, k: u32, object: Object, i: u64) -> Result<(), AllocError>
        requires { k < 2048 }
        ensures { OnOk result (code.new ≡ pushed (way self.now.program self.now.function k (object_of object) (Fixed i)) code.old) }
    {
        let site = self.site(k);
        if i < self.extent(object).count {
            silent(code, site, self.address(object, i))
        } else {
            silent(code, site, MidInst::Const(Virtual(1), i))?;
            self.push_tested(code, k, object)
        }
    }

    /// The way to the element to which a pointer points; the lines of the access follow.
    pub(crate) fn push_way(&self, code: &mut Code, k: u32, to: Pointing) -> Result<(), AllocError>
        requires near { k < 2048 }
        requires index { IsNearIndex to.index }
        ensures { OnOk result (code.new ≡ pushed (way self.now.program self.now.function k (object_of to.object) (index_of to.index)) code.old) }
    {
        match to.index {
            Index::Fixed(i) => self.push_fixed(code, k, to.object, i),
            Index::Brought(origin) => {
                push_origin(code, self.site(k), origin)?;
                self.push_tested(code, k, to.object)
            }
        }
    }
}
