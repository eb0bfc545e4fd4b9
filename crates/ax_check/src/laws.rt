//! What holds of every accepted module.

ghost use Rattle.std.specs.Prelude.{◌≡◌, ◌≤◌, length, ℕ, false, List, [], Contains, Some, slice_get};
ghost use Rattle.ax_module.specs.declared.module.Function.{Function};
ghost use Rattle.ax_module.specs.declared.module.Module.{Module};
ghost use Rattle.ax_module.specs.WellFormed.{IsModule};
ghost use Rattle.ax_target.specs.declared.target.Target.{Target};
ghost use Rattle.ax_layout.specs.Layout.{CanBeLaidOut};
ghost use Rattle.ax_source_run.specs.SourceState.{SourceProgram};
ghost use Rattle.ax_rules.specs.declared.rule.Rule.{Rule};
ghost use Rattle.ax_rules.specs.Points.{Point};
ghost use Rattle.ax_access_rules.specs.RulesAtPoints.{has_alloca, has_bad_ordering, has_dynamic_shift, has_kind, has_limit, has_mixed_width, has_overstated, has_parameter, has_plain_locked, has_user_call, has_width};
ghost use Rattle.ax_check.specs.Accepted.{IsAccepted};
ghost use Rattle.ax_check.specs.Faults.{AreFaults, IsFault};
ghost use Rattle.ax_check.specs.Laws.{AtInstructions, AtPoints, IsSound, IsSoundHead};

/// A well formed module has one list of faults on each target, and no two.
pub fn faults_are_one_list()
    ensures some { (m : Module) (t : Target) → IsModule m → (faults : List (Point × Rule)) × AreFaults m t faults }
    ensures alone { (m : Module) (t : Target) (faults others : List (Point × Rule)) → AreFaults m t faults → AreFaults m t others → faults ≡ others }
{}

/// No rule is broken at any point of an accepted module.
pub fn accepted_has_no_fault()
    ensures { (r : Rule) → AtPoints (λ m t p. IsFault m t p r → ⊥) }
{}

/// Each test of a rule is false at each point of an accepted module.
pub fn accepted_passes_tests()
    ensures width { AtPoints (λ m t p. has_width m p ≡ false) }
    ensures kind { AtPoints (λ m t p. has_kind m p ≡ false) }
    ensures shift { AtPoints (λ m t p. has_dynamic_shift m p ≡ false) }
    ensures call { AtPoints (λ m t p. has_user_call m p ≡ false) }
    ensures parameter { AtPoints (λ m t p. has_parameter m p ≡ false) }
    ensures order { AtPoints (λ m t p. has_bad_ordering m p ≡ false) }
    ensures mixed { AtPoints (λ m t p. has_mixed_width m p ≡ false) }
    ensures aligned { AtPoints (λ m t p. has_overstated m p ≡ false) }
    ensures plain { AtPoints (λ m t p. has_plain_locked m t p ≡ false) }
    ensures alloca { AtPoints (λ m t p. has_alloca m p ≡ false) }
    ensures limit { AtPoints (λ m t p. has_limit m p ≡ false) }
{}

/// Each instruction of an accepted module breaks no rule: its types have up to 128 bits, its orders
/// are legal, its operands have the types required, its plain accesses are of native globals and of
/// allocas, and each value that it uses is defined on each walk from the entry. Rules that speak of
/// addresses are those of the module's own layout.
pub fn accepted_instructions_are_sound()
    ensures { AtInstructions IsSound }
{}

/// An accepted module is well formed, and its globals are within the limits of a layout.
pub fn accepted_can_be_laid_out()
    ensures { (program : SourceProgram) → IsAccepted program → CanBeLaidOut program.source }
{}

/// Each function of an accepted module has neither parameters nor a result, and at most 2,048
/// instructions, 64 phis in a block and 32,768 bytes of allocas; there are at most 64 functions.
pub fn accepted_functions_are_within_limits()
    ensures few { (program : SourceProgram) → IsAccepted program → length program.source.functions ≤ 64 }
    ensures heads { (program : SourceProgram) (k : ℕ) (f : Function) → IsAccepted program → slice_get program.source.functions k ≡ Some f → IsSoundHead k f }
{}
