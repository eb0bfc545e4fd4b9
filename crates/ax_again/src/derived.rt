//! The module that a canonical text derives.

ghost use Rattle.std.specs.Prelude.{◌≡◌, ◌<◌, ◌-◌, ◌^◌, length, MatchResult};
ghost use Rattle.ax_module.specs.declared.module.Module.{Module};
ghost use Rattle.ax_module.specs.WellFormed.{IsModule};
ghost use Rattle.ax_ir.specs.Canonical.{module_text};
ghost use Rattle.ax_read.specs.Derivation.{Derives};
ghost use Rattle.ax_read.specs.declared.fault.ReadFault.{ReadFault};

use ax_ir::spell;
use ax_module::Module;
use ax_read::{ReadFault, read};
use std::alloc::Global;

/// The canonical text of a well formed module derives that module. So a module is well formed
/// exactly where some text derives it.
#[tactic(auto, using(crate::proofs::ModuleAgain::module_derived))]
pub fn canonical_text_derives_its_module()
    ensures { (m : Module) → IsModule m → Derives (module_text m) m }
{}

/// The module that is read from the canonical text of a module: that module itself. The canonical
/// text is shorter than 2^32 - 1 bytes.
///
/// # Errors
///
/// Want of memory.
#[tactic(auto, using(crate::proofs::ModuleAgain::module_derived))]
pub fn reread(alloc: Global, m: &Module) -> Result<Module, ReadFault>
    requires well_formed { IsModule m.now }
    requires short { length (module_text m.now) < 2 ^ 32 - 1 }
    ensures { MatchResult result (λ r. r ≡ m.now) (λ e. e ≡ ReadFault.Memory) }
{
    match spell(alloc, m) {
        Ok(text) => read(alloc, text.as_bytes()),
        Err(_) => Err(ReadFault::Memory),
    }
}
