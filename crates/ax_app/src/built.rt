//! Modules that are built: what the bytes of a module file come to.

ghost use Rattle.std.specs.Prelude.{◌≡◌, ◌≤◌, ℕ, List, length, MatchResult};
ghost use Rattle.ax_target.specs.declared.target.Target.{Target};
ghost use Rattle.ax_module.specs.WellFormed.{IsModule};
ghost use Rattle.ax_read.specs.Derivation.{IsReadFault};
ghost use Rattle.ax_app.specs.Judged.{IsAcceptedAs, IsBuiltAs, RefusesModule, RefusesSource};

use crate::places::Names;
use crate::verdict::Verdict;
use ax_check::{Accepted, CheckFault, Refusal, check};
use ax_lower::is_built;
use ax_module::Module;
use ax_read::{ReadFault, read};
use ax_target::Target;
use std::alloc::Global;

fn unread(fault: ReadFault) -> Verdict
    ensures { (target : Target) (bytes : List ℕ) → IsReadFault bytes fault → RefusesModule target bytes result }
{
    match fault {
        ReadFault::Syntax { line } => Verdict::Syntax { line },
        ReadFault::Opcode { line } => Verdict::Opcode { line },
        ReadFault::Name { line } => Verdict::Name { line },
        ReadFault::Memory => Verdict::Memory,
    }
}

/// A module without faults on a target, or its first fault.
fn accepted_of(alloc: Global, source: Module, target: Target) -> Result<Accepted, Verdict>
    requires { IsModule source }
    ensures { MatchResult result (λ accepted. IsAcceptedAs target source accepted) (λ v. RefusesSource target source v) }
{
    let names = match Names::of(alloc, &source) {
        Ok(names) => names,
        Err(_) => return Err(Verdict::Memory),
    };
    let refusal = match check(alloc, source, target) {
        Ok(accepted) => {
            accepted.is_without_faults();
            return Ok(accepted);
        }
        Err(CheckFault::Refused(refusal)) => refusal,
        Err(CheckFault::Memory) => return Err(Verdict::Memory),
    };
    let Refusal { number, place } = refusal;
    match names.place(alloc, place) {
        Ok(place) => Err(Verdict::Refused { number, place }),
        Err(_) => Err(Verdict::Memory),
    }
}

/// The module of a module file's bytes, if it is built on a target.
#[tactic(auto, using(crate::proofs::Causes::source_refused, crate::proofs::Causes::built_as, crate::proofs::Causes::unbuilt))]
pub(crate) fn built_of(alloc: Global, bytes: &[u8], target: Target) -> Result<Accepted, Verdict>
    requires { length bytes.now ≤ 4194304 }
    ensures { MatchResult result (λ accepted. IsBuiltAs target bytes.now accepted) (λ v. RefusesModule target bytes.now v) }
{
    let source = match read(alloc, bytes) {
        Ok(source) => source,
        Err(fault) => return Err(unread(fault)),
    };
    let accepted = match accepted_of(alloc, source, target) {
        Ok(accepted) => accepted,
        Err(verdict) => return Err(verdict),
    };
    if is_built(&accepted) {
        Ok(accepted)
    } else {
        Err(Verdict::Unbuilt)
    }
}
