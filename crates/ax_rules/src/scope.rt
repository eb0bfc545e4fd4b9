//! What an instruction can name, and what a pointer comes from.

ghost use Rattle.std.specs.Prelude.{◌≡◌, IfOk, map};
ghost use Rattle.ax_module.specs.WellFormed.{insts_of};
ghost use Rattle.ax_rules.specs.Facts.{call_outcome, extent_of, extent_of_global, extent_of_outcome, origin_of, origin_of_step, outcome_at, outcome_of, part_type, scope_of, is_alloca, is_shared};

use crate::facts::{Extent, FunctionScope, Origin, Outcome};
use ax_module::{Base, Function, Inst, Module, Ty};
use ax_words::Items;
use std::alloc::{AllocError, Global};

/// What an instruction's result is.
#[tactic(auto, unfolding(crate::specs::Facts::outcome_of))]
fn outcome(inst: &Inst) -> Outcome
    ensures { result ≡ outcome_of inst.now }
{
    match inst {
        Inst::Bin(_, t, _, _)
        | Inst::Select(_, t, _, _, _)
        | Inst::Convert(_, _, _, t)
        | Inst::Phi(t, _)
        | Inst::Load(t, _, _)
        | Inst::LoadAtomic(t, _, _, _)
        | Inst::Rmw(_, _, t, _, _, _)
        | Inst::Call(Some(t), _, _) => Outcome::Number(*t),
        Inst::Icmp(..) => Outcome::Number(Ty::I1),
        Inst::Alloca(elem, count, _) => Outcome::Alloca(Extent {
            elem: *elem,
            count: *count,
        }),
        Inst::Gep(elem, _, base, t, v) => Outcome::Gep(*base, *elem, *t, *v),
        Inst::Cmpxchg(_, _, t, ..) => Outcome::Pair(*t),
        Inst::Extract(t, _, 0) => Outcome::Number(*t),
        Inst::Extract(..) => Outcome::Number(Ty::I1),
        _ => Outcome::Nothing,
    }
}

fn outcomes(alloc: Global, f: &Function) -> Result<Vec<Outcome>, AllocError>
    ensures { IfOk result (λ v. v.items ≡ map outcome_of (insts_of f.now)) }
{
    let mut all = Vec::new(alloc);
    for block in f.blocks.as_slice() {
        for inst in block.insts.as_slice() {
            all.push(outcome(inst))?;
        }
    }
    Ok(all)
}

fn extents(alloc: Global, m: &Module) -> Result<Vec<Extent>, AllocError>
    ensures { IfOk result (λ v. v.items ≡ map extent_of_global m.now.globals) }
{
    let mut all = Vec::new(alloc);
    for variable in m.globals.as_slice() {
        all.push(Extent {
            elem: variable.elem,
            count: variable.count,
        })?;
    }
    Ok(all)
}

impl FunctionScope {
    /// What the instructions of a function of a module can name.
    pub fn of(alloc: Global, m: &Module, f: &Function) -> Result<FunctionScope, AllocError>
        ensures { IfOk result (λ scope. scope ≡ scope_of m.now f.now) }
    {
        Ok(FunctionScope {
            globals: Items::of(extents(alloc, m)?),
            params: Items::of(f.params.as_slice().to_vec(alloc)?),
            outcomes: Items::of(outcomes(alloc, f)?),
        })
    }

    pub fn outcome(&self, k: u32) -> Outcome
        ensures { result ≡ outcome_at self.now k }
    {
        self.outcomes
            .as_slice()
            .get(k as usize)
            .copied()
            .unwrap_or(Outcome::Nothing)
    }

    /// What the base of a getelementptr comes from.
    pub fn origin_of_step(&self, base: Base) -> Origin
        ensures { result ≡ origin_of_step self.now base }
    {
        match base {
            Base::Global(g) => Origin::Global(g),
            Base::Value(k) => match self.outcome(k) {
                Outcome::Alloca(_) => Origin::Alloca(k),
                _ => Origin::Neither,
            },
            Base::Param(_) => Origin::Neither,
        }
    }

    /// What a pointer with this base comes from.
    pub fn origin(&self, base: Base) -> Origin
        ensures { result ≡ origin_of self.now base }
    {
        match base {
            Base::Global(g) => Origin::Global(g),
            Base::Value(k) => match self.outcome(k) {
                Outcome::Alloca(_) => Origin::Alloca(k),
                Outcome::Gep(base, _, _, _) => self.origin_of_step(base),
                _ => Origin::Neither,
            },
            Base::Param(_) => Origin::Neither,
        }
    }

    /// The elements of what a pointer comes from.
    pub fn extent(&self, origin: Origin) -> Option<Extent>
        ensures { result ≡ extent_of self.now origin }
    {
        match origin {
            Origin::Global(g) => self.globals.as_slice().get(g as usize).copied(),
            Origin::Alloca(k) => match self.outcome(k) {
                Outcome::Alloca(extent) => Some(extent),
                _ => None,
            },
            Origin::Neither => None,
        }
    }
}

/// Whether a pointer comes from an alloca.
pub fn is_alloca(origin: Origin) -> bool
    ensures { result ≡ is_alloca origin }
{
    matches!(origin, Origin::Alloca(_))
}

/// Whether a pointer comes from a global.
pub fn is_shared(origin: Origin) -> bool
    ensures { result ≡ is_shared origin }
{
    matches!(origin, Origin::Global(_))
}
