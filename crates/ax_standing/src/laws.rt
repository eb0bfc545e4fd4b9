//! What holds of every run of an accepted module from entries that it has.

ghost use Rattle.std.specs.Prelude.{◌≡◌, ℕ, List, Contains, Some, None};
ghost use Rattle.ax_module.specs.declared.inst.Inst.{Inst};
ghost use Rattle.ax_words.specs.declared.source.SourceEvent.{SourceEvent};
ghost use Rattle.ax_source_run.specs.SourceEvent.{inst_at, source_event};
ghost use Rattle.ax_source_run.specs.SourceRun.{source_run, source_start};
ghost use Rattle.ax_source_run.specs.SourceState.{SourceProcessor, SourceProgram, SourceState};
ghost use Rattle.ax_check.specs.Accepted.{IsAccepted};
ghost use Rattle.ax_check.specs.Defined.{uses};
ghost use Rattle.ax_typed.specs.Typed.{outcome_in};
ghost use Rattle.ax_standing.specs.Standing.{AreEntries, AreOnWalks, IsGepOutcome, IsOnWalk, IsPointer};

use ax_check::laws::accepted_instructions_are_sound;

/// In each state of an accepted module's source machine a running processor stands at an
/// instruction that is no phi, behind a walk of blocks from the entry, and each getelementptr that is
/// passed on that walk has its pointer: so each that the instruction uses has. An event keeps it, and
/// a machine starts so.
pub fn processors_stand_on_walks()
    ensures start { (program : SourceProgram) (entries : List ℕ) → IsAccepted program → AreEntries program entries → AreOnWalks program (source_start program.source entries) }
    ensures event { (program : SourceProgram) (e : SourceEvent) (s : SourceState) → IsAccepted program → AreOnWalks program s → AreOnWalks program (source_event program e s) }
    ensures run { (program : SourceProgram) (entries : List ℕ) (events : List SourceEvent) → IsAccepted program → AreEntries program entries → AreOnWalks program (source_run program events (source_start program.source entries)) }
    ensures made { (program : SourceProgram) (c : SourceProcessor) (i : Inst) (k : ℕ) → IsAccepted program → IsOnWalk program c.function c.block c.index c.values → inst_at program c ≡ Some i → Contains (uses i) (record { value = k; end_of = None }) → IsGepOutcome (outcome_in program.source c.function k) → IsPointer (c.values k) }
{
    accepted_instructions_are_sound();
}
