//! The tokens of the canonical text.

ghost use Rattle.std.specs.Prelude.{◌≡◌};
ghost use Rattle.ax_lex.specs.Tokens.{AreTokens};
ghost use Rattle.ax_lex.specs.Written.{render, tokens_at, FitsText};
ghost use Rattle.ax_module.specs.declared.module.Module.{Module};
ghost use Rattle.ax_module.specs.WellFormed.{IsModule};
ghost use Rattle.ax_ir.specs.Canonical.{module_text};
ghost use Rattle.ax_again.specs.Pieces.{pieces_of};

/// The canonical text of a module is that of its pieces, one after the other.
#[tactic(auto, using(crate::proofs::Pieces::pieces_written))]
pub fn canonical_text_is_its_pieces()
    ensures { (m : Module) → render (pieces_of m) ≡ module_text m }
{}

/// The tokens of a well formed module's canonical text are its pieces: each is a token of its kind,
/// and what stands behind it does not go on with it (module text, Tokens).
#[tactic(auto, using(crate::proofs::LineTokens::pieces_fit, crate::proofs::LineTokens::tokens_again))]
pub fn canonical_tokens_are_read()
    ensures fit { (m : Module) → IsModule m → FitsText (pieces_of m) }
    ensures tokens { (m : Module) → IsModule m → AreTokens (module_text m) (tokens_at 0 (pieces_of m)) }
{}
