//! The code of one instruction.

ghost use Rattle.std.specs.Prelude.{◌≡◌, OnOk, if◌then◌else◌, nat_eq};
ghost use Rattle.ax_source_run.specs.SourceInstructions.{is_out};
ghost use Rattle.ax_mid.specs.Built.{pushed};
ghost use Rattle.ax_mid.specs.declared.instruction.MidInst.{MidInst};
ghost use Rattle.ax_pieces.specs.Near.{IsNearBranch, IsNearOut};
ghost use Rattle.ax_selected.specs.Edges.{edge_lines};
ghost use Rattle.ax_selected.specs.Selected.{branch_lines, lone, out_operand, piece, straight};
ghost use Rattle.ax_select.specs.Ready.{IsReady};

use ax_mid::MidInst;
use ax_module::{Arg, Block, Inst, Name, Operand};
use ax_pieces::{
    Branch, Choice, Code, Conversion, Edge, Operands, push_bin, push_branch, push_convert,
    push_edge, push_extract, push_fence, push_icmp, push_lone, push_out, push_select,
};
use ax_reach::{Exchange, Pointers};
use ax_words::{Site, merged};
use std::alloc::{AllocError, Global};

/// A function of which code is made: its blocks, the numbers of their first instructions, and its
/// pointers.
#[derive(Drop)]
pub(crate) struct Setting<'a> {
    pub blocks: &'a [Block],
    pub starts: Vec<usize>,
    pub pointers: Pointers<'a>,
}

/// Appends the code of a call: that of `@out`, or none for a routine.
fn push_call(code: &mut Code, site: Site, name: &Name, args: &[Arg]) -> Result<(), AllocError>
    requires { IsNearOut args.now }
    ensures { OnOk result (code.new ≡ pushed (if is_out name.now then straight site.function site.instruction (out_operand site.function site.instruction args.now) else straight site.function site.instruction (lone MidInst.Nop)) code.old) }
{
    if name.as_bytes() == b"out".as_slice() {
        push_out(code, site, args)
    } else {
        push_lone(code, site, MidInst::Nop)
    }
}

/// Appends the code of a conditional `br`: a jump where both of its sides are one block.
fn push_br(code: &mut Code, setting: &Setting, site: Site, v: Branch) -> Result<(), AllocError>
    requires { IsNearBranch site setting.now.blocks.now setting.now.starts.items v }
    ensures { OnOk result (code.new ≡ pushed (if nat_eq v.if_true v.if_false then straight site.function site.instruction (edge_lines site.function setting.now.blocks.now v.from v.if_true) else branch_lines site.function site.instruction v.test (edge_lines site.function setting.now.blocks.now v.from v.if_true) (edge_lines site.function setting.now.blocks.now v.from v.if_false)) code.old) }
{
    let (blocks, starts) = (setting.blocks, setting.starts.as_slice());
    if v.if_true == v.if_false {
        let edge = Edge {
            from: v.from,
            to: v.if_true,
        };
        push_edge(code, site, blocks, starts, edge)
    } else {
        push_branch(code, site, blocks, starts, v)
    }
}

/// Appends the code of an instruction of block `b`; a phi has none, since the branches to its block
/// set it.
#[tactic(auto, unfolding(ax_selected::specs::Selected::piece, crate::specs::Ready::IsReady))]
pub(crate) fn push_piece(
    alloc: Global,
    code: &mut Code,
    setting: &Setting,
    b: u32,
    site: Site,
    inst: &Inst,
) -> Result<(), AllocError>
    requires function { setting.now.pointers.function ≡ site.function }
    requires ready { IsReady setting.now.blocks.now setting.now.starts.items site.function b site.instruction inst.now }
    ensures { OnOk result (code.new ≡ pushed (piece site.function site.instruction setting.now.pointers.program setting.now.blocks.now b inst.now) code.old) }
{
    let blocks = setting.blocks;
    let starts = setting.starts.as_slice();
    let pointers = &setting.pointers;
    let k = site.instruction;
    match inst {
        Inst::Bin(op, ty, a, b) => push_bin(
            code,
            site,
            *op,
            Operands {
                ty: *ty,
                a: *a,
                b: *b,
            },
        ),
        Inst::Icmp(condition, ty, a, b) => push_icmp(
            code,
            site,
            *condition,
            Operands {
                ty: *ty,
                a: *a,
                b: *b,
            },
        ),
        Inst::Select(test, ty, a, other, b) => push_select(
            code,
            site,
            Choice {
                test: *test,
                ty: *ty,
                a: *a,
                other: *other,
                b: *b,
            },
        ),
        Inst::Convert(cast, ty, a, to) => push_convert(
            code,
            site,
            *cast,
            Conversion {
                ty: *ty,
                a: *a,
                to: *to,
            },
        ),
        Inst::Phi(..) => Ok(()),
        Inst::Jump(to) => push_edge(code, site, blocks, starts, Edge { from: b, to: *to }),
        Inst::Branch(test, yes, no) => push_br(
            code,
            setting,
            site,
            Branch {
                test: *test,
                from: b,
                if_true: *yes,
                if_false: *no,
            },
        ),
        Inst::RetVoid => push_lone(code, site, MidInst::Ret),
        Inst::Ret(..) | Inst::Unreachable => push_lone(code, site, MidInst::Trap),
        Inst::Alloca(..) => push_lone(code, site, MidInst::Nop),
        Inst::Gep(elem, _, base, index_ty, index) => pointers.push_gep(
            code, k, *elem, *base, *index_ty, *index,
        ),
        Inst::Load(ty, addr, _) => pointers.push_load(alloc, code, k, *ty, *addr),
        Inst::LoadAtomic(ty, addr, order, _) => pointers.push_load_atomic(
            alloc, code, k, *ty, *addr, *order,
        ),
        Inst::Store(ty, v, addr, _) => pointers.push_store(alloc, code, k, *ty, *v, *addr),
        Inst::StoreAtomic(ty, v, addr, order, _) => pointers.push_store_atomic(
            alloc, code, k, *ty, *v, *addr, *order,
        ),
        Inst::Cmpxchg(weak, addr, ty, expected, new_ty, new, success, failure, _) => {
            let order = merged(*success, *failure);
            pointers.push_cmpxchg(
                alloc,
                code,
                k,
                *addr,
                Exchange {
                    weak: *weak,
                    ty: *ty,
                    expected: *expected,
                    desired_ty: *new_ty,
                    desired: *new,
                    order,
                },
            )
        }
        Inst::Rmw(op, addr, ty, v, order, _) => pointers.push_rmw(
            alloc, code, k, *op, *addr, *ty, *v, *order,
        ),
        Inst::Fence(single, order) => push_fence(alloc, code, site, *single, *order),
        Inst::Extract(_, Operand::Value(pair), part) => push_extract(code, site, *pair, *part),
        Inst::Extract(..) => push_lone(code, site, MidInst::Nop),
        Inst::Call(_, name, args) => push_call(code, site, name, args.as_slice()),
    }
}
