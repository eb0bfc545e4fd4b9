//! Modules without faults.

ghost use Rattle.std.specs.Prelude.{◌≡◌, IfOk, MatchResult, None};
ghost use Rattle.ax_module.specs.WellFormed.{IsModule};
ghost use Rattle.ax_layout.specs.Layout.{layout_of};
ghost use Rattle.ax_check.specs.Accepted.{IsAccepted};
ghost use Rattle.ax_check.specs.Causes.{IsCause, IsFirstCause};
ghost use Rattle.ax_check.specs.Faults.{FirstFault, IsFirstOfFaults};

use crate::faults::{first_in_functions, first_in_globals};
use crate::refusal::CheckFault;
use ax_layout::Layout;
use ax_module::Module;
use ax_target::Target;
use std::alloc::Global;
use std::marker::Model;

/// A module without faults on a target, with its layout.
#[derive(Drop)]
pub struct Accepted {
    module: Module,
    target: Target,
    layout: Layout,
}

impl Model for Accepted {
    ghost use Rattle.ax_source_run.specs.SourceState.{SourceProgram};
    ghost use Rattle.ax_check.specs.Accepted.{IsAccepted};

    ghost Value = { SourceProgram };

    ghost view = { λ a. record { source = a.module; layout = a.layout; target = a.target } };

    ghost invariant = { λ a. IsAccepted (record { source = a.module; layout = a.layout; target = a.target }) };
}

/// The layout of a module without faults, or why there is none.
#[tactic(auto, using(crate::proofs::Lays::can_be_laid_out))]
fn judge(alloc: Global, m: &Module, t: Target) -> Result<Layout, CheckFault>
    requires { IsModule m.now }
    ensures layout { IfOk result (λ layout. layout ≡ layout_of m.now) }
    ensures first { MatchResult result (λ _. FirstFault m.now t None) (λ fault. IsFirstCause m.now t fault) }
{
    if let Some(refusal) = first_in_globals(m) {
        return Err(CheckFault::Refused(refusal));
    }
    let layout = Layout::of(alloc, m)?;
    match first_in_functions(alloc, m, t, &layout)? {
        Some(refusal) => Err(CheckFault::Refused(refusal)),
        None => Ok(layout),
    }
}

#[tactic(auto, using(crate::proofs::Verdicts::cause, crate::proofs::Verdicts::accepted, crate::proofs::Total::first_of_list))]
/// Checks a module: it is accepted where its list of faults is empty on the target, and else refused
/// by the first of them, in module order and then by number (LLVM Language Reference, as far as
/// atomic lowering supports it). `Memory` says that memory ran out.
pub fn check(alloc: Global, m: Module, t: Target) -> Result<Accepted, CheckFault>
    requires { IsModule m }
    ensures accepted { IfOk result (λ a. (a.source ≡ m) × (a.target ≡ t) × IsFirstOfFaults m t None) }
    ensures refused { MatchResult result (λ _. Unit {0}) (λ fault. IsCause m t fault) }
{
    match judge(alloc, &m, t) {
        Ok(layout) => Ok(Accepted {
            module: m,
            target: t,
            layout,
        }),
        Err(fault) => Err(fault),
    }
}

impl Accepted {
    /// The module.
    pub fn module(&self) -> &Module
        ensures { result.now ≡ self.now.source }
    {
        &self.module
    }

    /// The target on which it has no faults.
    pub fn target(&self) -> Target
        ensures { result ≡ self.now.target }
    {
        self.target
    }

    /// The layout of its globals.
    pub fn layout(&self) -> &Layout
        ensures { result.now ≡ self.now.layout }
    {
        &self.layout
    }

    /// A law: the module is well formed and has no faults on the target, and the layout is its own.
    pub fn is_without_faults(&self)
        ensures { IsAccepted self.now }
    {
        let _ = &self.module;
    }
}
