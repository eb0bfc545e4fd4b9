//! Which modules are built.

ghost use Rattle.std.specs.Prelude.{◌≡◌};
ghost use Rattle.std.specs.List.{list_all};
ghost use Rattle.ax_source_run.specs.SourceInstructions.{is_out};
ghost use Rattle.ax_target.specs.Decisions.{is_rv64};
ghost use Rattle.ax_mid.specs.WellFormed.{is_direct_way};
ghost use Rattle.ax_selected.specs.Direct.{is_direct};
ghost use Rattle.ax_direct_rv.specs.Direct.{is_built, is_coded};
ghost use Rattle.ax_llsc.specs.Codes.{is_coded_way};
ghost use Rattle.ax_lower.specs.Ways.{calls_no_routine, meets, way_of};

use ax_check::Accepted;
use ax_module::{Block, Function, Inst, Name};
use ax_reach::width_of;
use ax_target::{Target, Way, decide};
use ax_words::Op;

/// What is asked of each instruction of a module that is built.
#[derive(Clone, Copy)]
pub(crate) enum Asked {
    /// It is lowered without a call of a routine.
    NoRoutine,
    /// It is lowered in a way that has code.
    CodedWay,
}

fn is_rv64(t: Target) -> bool
    ensures { result ≡ is_rv64 t }
{
    matches!(t, Target::Rv { .. })
}

fn is_out(name: &Name) -> bool
    ensures { result ≡ is_out name.now }
{
    name.as_bytes() == b"out".as_slice()
}

/// The way of an atomic instruction under the decision table.
#[tactic(auto, unfolding(crate::specs::Ways::way_of))]
fn way_of(t: Target, inst: &Inst) -> Option<Way>
    ensures { result ≡ way_of t inst.now }
{
    match inst {
        Inst::LoadAtomic(ty, _, _, align) => Some(decide(t, Op::Load, width_of(*ty), *align)),
        Inst::StoreAtomic(ty, _, _, _, align) => Some(decide(t, Op::Store, width_of(*ty), *align)),
        Inst::Cmpxchg(_, _, ty, _, _, _, _, _, align) => {
            Some(decide(t, Op::Cmpxchg, width_of(*ty), *align))
        }
        Inst::Rmw(op, _, ty, _, _, align) => Some(decide(t, Op::Rmw(*op), width_of(*ty), *align)),
        _ => None,
    }
}

fn is_direct_way(way: Way) -> bool
    ensures { result ≡ is_direct_way way }
{
    matches!(
        way,
        Way::Inline | Way::CasLoop | Way::PairLoop | Way::Masked
    )
}

#[tactic(auto, unfolding(crate::specs::Ways::calls_no_routine))]
fn calls_no_routine(inst: &Inst) -> bool
    ensures { result ≡ calls_no_routine inst.now }
{
    match inst {
        Inst::Call(_, name, _) => is_out(name),
        _ => true,
    }
}

#[tactic(auto, using(crate::proofs::Asking::direct_some, crate::proofs::Asking::direct_none))]
fn is_direct(t: Target, inst: &Inst) -> bool
    ensures { result ≡ is_direct t inst.now }
{
    match way_of(t, inst) {
        Some(way) => is_direct_way(way),
        None => calls_no_routine(inst),
    }
}

/// Whether the code of a way is known here: by single instructions, and by loops of a linked load and
/// a pair store.
fn is_coded_way(way: Way) -> bool
    ensures { result ≡ is_coded_way way }
{
    matches!(way, Way::Inline | Way::PairLoop | Way::Masked)
}

#[tactic(auto, using(crate::proofs::Asking::coded_some, crate::proofs::Asking::coded_none))]
fn is_coded(t: Target, inst: &Inst) -> bool
    ensures { result ≡ is_coded t inst.now }
{
    match way_of(t, inst) {
        Some(way) => is_coded_way(way),
        None => true,
    }
}

fn meets(asked: Asked, t: Target, inst: &Inst) -> bool
    ensures { result ≡ meets asked t inst.now }
{
    match asked {
        Asked::NoRoutine => is_direct(t, inst),
        Asked::CodedWay => is_coded(t, inst),
    }
}

fn meets_in_block(asked: Asked, t: Target, block: &Block) -> bool
    ensures { result ≡ list_all (meets asked t) block.now.insts }
{
    block.insts.as_slice().iter().all(|i| meets(asked, t, i))
}

fn meets_in_function(asked: Asked, t: Target, function: &Function) -> bool
    ensures { result ≡ list_all (λ b. list_all (meets asked t) b.insts) function.now.blocks }
{
    function
        .blocks
        .as_slice()
        .iter()
        .all(|b| meets_in_block(asked, t, b))
}

fn meets_in_functions(asked: Asked, t: Target, functions: &[Function]) -> bool
    ensures { result ≡ list_all (λ f. list_all (λ b. list_all (meets asked t) b.insts) f.blocks) functions.now }
{
    functions.iter().all(|f| meets_in_function(asked, t, f))
}

/// Whether a module is built: its target is RV64, it calls no routine, and each of its atomic
/// instructions is lowered there by a single instruction or by a loop of a linked load and a pair
/// store, of the object or of the word that holds it (the decision table's ways Inline, PairLoop and
/// Masked).
pub fn is_built(a: &Accepted) -> bool
    ensures { result ≡ is_built a.now }
{
    let (t, functions) = (a.target(), a.module().functions.as_slice());
    if !is_rv64(t) {
        return false;
    }
    if !meets_in_functions(Asked::NoRoutine, t, functions) {
        return false;
    }
    meets_in_functions(Asked::CodedWay, t, functions)
}
