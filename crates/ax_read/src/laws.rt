//! What holds of every text.

ghost use Rattle.std.specs.Prelude.{◌≡◌, ◌<◌, ◌-◌, ◌^◌, ◌⊎◌, ℕ, List, length};
ghost use Rattle.ax_module.specs.declared.module.Module.{Module};
ghost use Rattle.ax_module.specs.WellFormed.{IsModule};
ghost use Rattle.ax_read.specs.declared.fault.ReadFault.{ReadFault};
ghost use Rattle.ax_read.specs.Derivation.{Derives, HasFault};

/// A module that a text derives is well formed.
pub fn derived_modules_are_well_formed()
    ensures { (text : List ℕ) (m : Module) → Derives text m → IsModule m }
{}

/// A text derives one module, or has one fault, and never both: that it has an answer is said of
/// texts shorter than 2^32 - 1 bytes, since counts have 32 bits.
pub fn texts_have_one_answer()
    ensures some { (text : List ℕ) → length text < 2 ^ 32 - 1 → ((m : Module) × Derives text m) ⊎ ((e : ReadFault) × HasFault text e) }
    ensures derived { (text : List ℕ) (m n : Module) → Derives text m → Derives text n → m ≡ n }
    ensures faulty { (text : List ℕ) (e f : ReadFault) → HasFault text e → HasFault text f → e ≡ f }
    ensures apart { (text : List ℕ) (m : Module) (e : ReadFault) → Derives text m → HasFault text e → ⊥ }
{}
