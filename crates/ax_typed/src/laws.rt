//! What holds of every run of an accepted module.

ghost use Rattle.std.specs.Prelude.{ℕ, List};
ghost use Rattle.ax_words.specs.declared.source.SourceEvent.{SourceEvent};
ghost use Rattle.ax_source_run.specs.SourceEvent.{source_event};
ghost use Rattle.ax_source_run.specs.SourceRun.{source_run, source_start};
ghost use Rattle.ax_source_run.specs.SourceState.{SourceProgram, SourceState};
ghost use Rattle.ax_check.specs.Accepted.{IsAccepted};
ghost use Rattle.ax_typed.specs.Typed.{IsTyped};

use ax_check::laws::{accepted_instructions_are_sound, accepted_passes_tests};
use ax_ops::results_fit;

/// In each state of an accepted module's source machine each number is one of its type: each result
/// of an instruction, each element of a global and of an alloca, each store that waits, and each
/// number that was written out, which has 64 bits. An event keeps it, and a machine starts so.
pub fn numbers_are_typed()
    ensures start { (program : SourceProgram) (entries : List ℕ) → IsAccepted program → IsTyped program.source (source_start program.source entries) }
    ensures event { (program : SourceProgram) (e : SourceEvent) (s : SourceState) → IsAccepted program → IsTyped program.source s → IsTyped program.source (source_event program e s) }
    ensures run { (program : SourceProgram) (entries : List ℕ) (events : List SourceEvent) → IsAccepted program → IsTyped program.source (source_run program events (source_start program.source entries)) }
{
    accepted_instructions_are_sound();
    accepted_passes_tests();
    results_fit();
}
