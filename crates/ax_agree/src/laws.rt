//! What holds of the names of an image's functions.

ghost use Rattle.std.specs.Prelude.{◌≡◌, map, true};
ghost use Rattle.ax_module.specs.declared.module.Module.{Module};
ghost use Rattle.ax_module.specs.WellFormed.{IsModule};
ghost use Rattle.ax_agree.specs.Sound.{are_names};

/// The names of a well formed module's functions are names of a module's text, and differ, as a
/// sound image has them.
pub fn function_names_are_names()
    ensures { (m : Module) → IsModule m → are_names (map (λ f. f.name) m.functions) ≡ true }
{}
