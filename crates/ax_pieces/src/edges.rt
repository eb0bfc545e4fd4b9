//! Edges between blocks, whose phis are set together.

ghost use Rattle.std.specs.Prelude.{◌≡◌, ◌<◌, ◌≤◌, ◌+◌, All, IsTrue, OnOk, length, map};
ghost use Rattle.ax_cells.specs.Narrow as cells;
ghost use Rattle.ax_mid.specs.Built.{pushed};
ghost use Rattle.ax_pieces.specs.Near.{IsNearBranch, IsNearEdge, IsNearPhi};
ghost use Rattle.ax_pieces.specs.Edges.{entering, incoming, tested};
ghost use Rattle.ax_selected.specs.Edges.{brought, coming_in, edge_lines, operand_from, set_phi, set_phis};
ghost use Rattle.ax_selected.specs.Ranges.{IsNear};
ghost use Rattle.ax_selected.specs.Registers.{high_in, low_in};
ghost use Rattle.ax_selected.specs.Selected.{branch_lines, silent, straight};

use crate::labels::{block_label, first_label, second_label};
use crate::lines::{Code, acting, copy, high_into, high_of, low_into, low_of, push_silent, silent};
use crate::parts::{Branch, Edge};
use ax_mid::{MidInst, Virtual};
use ax_module::{Block, Inst, Operand, Ty};
use ax_words::Site;
use std::alloc::AllocError;

/// The register of the low half that comes into a phi.
fn low_in(phi: u32) -> u32
    requires { phi < 2048 }
    ensures { result ≡ low_in phi }
{
    4 * phi + 18
}

/// The register of the high half that comes into it.
fn high_in(phi: u32) -> u32
    requires { phi < 2048 }
    ensures { result ≡ high_in phi }
{
    4 * phi + 19
}

/// What comes from a block: the first entry for it.
fn operand_from(from: u32, entries: &[(Operand, u32)]) -> Operand
    ensures { result ≡ operand_from from entries.now }
{
    for entry in entries {
        if entry.1 == from {
            return entry.0;
        }
    }
    Operand::Const(0)
}

/// What comes into a phi from a block, with its type.
#[tactic(auto, unfolding(crate::specs::Edges::incoming))]
fn incoming(from: u32, inst: &Inst) -> Option<(Ty, Operand)>
    ensures { result ≡ incoming from inst.now }
{
    match inst {
        Inst::Phi(ty, entries) => Some((*ty, operand_from(from, entries.as_slice()))),
        _ => None,
    }
}

/// What comes into a phi, into registers of its own.
fn bring(code: &mut Code, site: Site, phi: u32, ty: Ty, v: Operand) -> Result<(), AllocError>
    requires phi { phi < 2048 }
    requires narrow { IsTrue (cells.is_narrow ty) }
    requires near { IsNear v }
    ensures { OnOk result (code.new ≡ pushed (map (silent site.function site.instruction) (brought phi ty v)) code.old) }
{
    let low = low_into(low_in(phi), ty, v);
    let high = high_into(high_in(phi), ty, v);
    push_silent(code, site, [low, high])
}

/// A phi gets what came into it.
fn set_phi(code: &mut Code, site: Site, phi: u32) -> Result<(), AllocError>
    requires { phi < 2048 }
    ensures { OnOk result (code.new ≡ pushed (map (silent site.function site.instruction) (set_phi phi)) code.old) }
{
    let low = copy(low_of(phi), low_in(phi));
    let high = copy(high_of(phi), high_in(phi));
    push_silent(code, site, [low, high])
}

/// What comes into the phis at the head of a block, of which the first instruction is given.
#[tactic(auto, using(crate::proofs::Phis::comings))]
fn coming_in(
    code: &mut Code,
    site: Site,
    from: u32,
    first: u32,
    insts: &[Inst],
) -> Result<(), AllocError>
    requires few { first + length insts.now ≤ 2048 }
    requires phis { All IsNearPhi insts.now }
    ensures { OnOk result (code.new ≡ pushed (map (silent site.function site.instruction) (coming_in from first insts.now)) code.old) }
{
    let mut k = first;
    for inst in insts {
        let Some((ty, v)) = incoming(from, inst) else {
            return Ok(());
        };
        bring(code, site, k, ty, v)?;
        k += 1;
    }
    Ok(())
}

/// The phis at the head of a block get what came into them.
fn set_phis(code: &mut Code, site: Site, first: u32, insts: &[Inst]) -> Result<(), AllocError>
    requires { first + length insts.now ≤ 2048 }
    ensures { OnOk result (code.new ≡ pushed (map (silent site.function site.instruction) (set_phis first insts.now)) code.old) }
{
    let mut k = first;
    for inst in insts {
        if !inst.is_phi() {
            return Ok(());
        }
        set_phi(code, site, k)?;
        k += 1;
    }
    Ok(())
}

/// The lines of an edge to a block that has these instructions, of which the first is given.
fn enter(
    code: &mut Code,
    site: Site,
    from: u32,
    first: u32,
    insts: &[Inst],
) -> Result<(), AllocError>
    requires function { site.function < 64 }
    requires few { first + length insts.now ≤ 2048 }
    requires phis { All IsNearPhi insts.now }
    ensures { OnOk result (code.new ≡ pushed (straight site.function site.instruction (entering site.function from first insts.now)) code.old) }
{
    coming_in(code, site, from, first, insts)?;
    set_phis(code, site, first, insts)?;
    acting(code, site, MidInst::Jump(block_label(site.function, first)))
}

/// The lines of an edge of a function that has these blocks, the first instructions of which have
/// the numbers `starts`: the phis take together what comes to them (LLVM Language Reference, `phi`),
/// and a jump leads to the block. Memory is its only refusal.
pub fn push_edge(
    code: &mut Code,
    site: Site,
    blocks: &[Block],
    starts: &[usize],
    edge: Edge,
) -> Result<(), AllocError>
    requires { IsNearEdge site.function blocks.now starts.now edge.to }
    ensures { OnOk result (code.new ≡ pushed (straight site.function site.instruction (edge_lines site.function blocks.now edge.from edge.to)) code.old) }
{
    let first = starts[edge.to as usize] as u32;
    let insts = blocks[edge.to as usize].insts.as_slice();
    enter(code, site, edge.from, first, insts)
}

/// The test of a branch, and the label of the edge along which it goes where the test holds.
fn tested(code: &mut Code, site: Site, test: Operand) -> Result<(), AllocError>
    requires function { site.function < 64 }
    requires instruction { site.instruction < 2048 }
    requires test { IsNear test }
    ensures { OnOk result (code.new ≡ pushed (map (silent site.function site.instruction) (tested site.function site.instruction test)) code.old) }
{
    let operand = low_into(0, Ty::I1, test);
    let label = first_label(site);
    let branch = MidInst::Branch(Virtual(0), label, second_label(site));
    push_silent(code, site, [operand, branch, MidInst::Label(label)])
}

/// The lines of a conditional `br` (LLVM Language Reference, `br`), each of whose edges sets the
/// phis of its block. Memory is its only refusal.
pub fn push_branch(
    code: &mut Code,
    site: Site,
    blocks: &[Block],
    starts: &[usize],
    v: Branch,
) -> Result<(), AllocError>
    requires { IsNearBranch site blocks.now starts.now v }
    ensures { OnOk result (code.new ≡ pushed (branch_lines site.function site.instruction v.test (edge_lines site.function blocks.now v.from v.if_true) (edge_lines site.function blocks.now v.from v.if_false)) code.old) }
{
    let if_true = Edge {
        from: v.from,
        to: v.if_true,
    };
    let if_false = Edge {
        from: v.from,
        to: v.if_false,
    };
    let label = second_label(site);
    tested(code, site, v.test)?;
    push_edge(code, site, blocks, starts, if_true)?;
    silent(code, site, MidInst::Label(label))?;
    push_edge(code, site, blocks, starts, if_false)
}
