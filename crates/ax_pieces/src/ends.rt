//! Lines that stand alone, outputs and fences.

ghost use Rattle.std.specs.Prelude.{◌≡◌, OnOk};
ghost use Rattle.ax_mid.specs.Built.{pushed};
ghost use Rattle.ax_pieces.specs.Near.{IsNearOut};
ghost use Rattle.ax_selected.specs.Selected.{fence_lines, lone, out_operand, straight};

use crate::lines::{Code, acting, low_into, push_straight};
use ax_mid::{MidInst, Virtual};
use ax_module::Arg;
use ax_words::{Items, Op, Order, Site, Width};
use std::alloc::{AllocError, Global};

/// The one line of an instruction, as a return or a trap. Memory is its only refusal.
pub fn push_lone(code: &mut Code, site: Site, inst: MidInst<Virtual>) -> Result<(), AllocError>
    ensures { OnOk result (code.new ≡ pushed (straight site.function site.instruction (lone inst)) code.old) }
{
    acting(code, site, inst)
}

/// The lines of a call of `@out`, which puts out its first argument. Memory is its only refusal.
pub fn push_out(code: &mut Code, site: Site, args: &[Arg]) -> Result<(), AllocError>
    requires { IsNearOut args.now }
    ensures { OnOk result (code.new ≡ pushed (straight site.function site.instruction (out_operand site.function site.instruction args.now)) code.old) }
{
    match args.first() {
        Some(Arg::Value(ty, v)) => {
            let operand = low_into(0, *ty, *v);
            push_straight(code, site, [operand], MidInst::Out(Virtual(0)))
        }
        Some(Arg::Pointer(_)) | None => acting(code, site, MidInst::Nop),
    }
}

/// The line of a `fence` (LLVM Language Reference, `fence`), which is none where it is for a single
/// thread. Memory is its only refusal.
pub fn push_fence(
    alloc: Global,
    code: &mut Code,
    site: Site,
    single: bool,
    order: Order,
) -> Result<(), AllocError>
    ensures { OnOk result (code.new ≡ pushed (straight site.function site.instruction (fence_lines site.function site.instruction single order)) code.old) }
{
    if single {
        return acting(code, site, MidInst::Nop);
    }
    let (args, results) = (Items::of(Vec::new(alloc)), Items::of(Vec::new(alloc)));
    let fence = MidInst::Atomic(
        Op::Fence,
        Width::W64,
        order,
        false,
        Virtual(0),
        args,
        results,
    );
    acting(code, site, fence)
}
