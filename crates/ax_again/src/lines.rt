//! The lines of the canonical text.

ghost use Rattle.std.specs.Prelude.{◌≡◌};
ghost use Rattle.ax_lex.specs.Written.{tokens_at};
ghost use Rattle.ax_module.specs.declared.module.Module.{Module};
ghost use Rattle.ax_ir.specs.Canonical.{module_lines, module_text};
ghost use Rattle.ax_lines.specs.Lines.{lines_of};
ghost use Rattle.ax_again.specs.Pieces.{pieces_of};
ghost use Rattle.ax_again.specs.Places.{lines_at};

/// The lines of a module's canonical text are the canonical lines, each the symbols of its tokens,
/// and behind the last line feed one more, without symbols.
#[tactic(auto, using(crate::proofs::Split::lines_again))]
pub fn canonical_lines_are_split()
    ensures { (m : Module) → lines_of (module_text m) (tokens_at 0 (pieces_of m)) ≡ lines_at 0 (module_lines m) }
{}
