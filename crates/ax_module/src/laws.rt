//! What holds of every well formed module.

ghost use Rattle.std.specs.Prelude.{All, map};
ghost use Rattle.ax_module.specs.declared.module.Module.{Module};
ghost use Rattle.ax_module.specs.Names.{IsAscii};
ghost use Rattle.ax_module.specs.WellFormed.{IsModule};

/// The names of a well formed module's globals and functions have ASCII bytes alone, so that a text
/// of characters can have them as they are.
pub fn names_are_ascii()
    ensures globals { (m : Module) → IsModule m → All (λ name. IsAscii name) (map (λ g. g.name) m.globals) }
    ensures functions { (m : Module) → IsModule m → All (λ name. IsAscii name) (map (λ f. f.name) m.functions) }
{}
