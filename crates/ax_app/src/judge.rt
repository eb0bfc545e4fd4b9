//! The checks of a command in their order, up to its text.

ghost use Rattle.std.specs.Prelude.{◌≡◌, ◌≤◌, ℕ, List, [], ◌∷◌, length, map, IfOk, MatchResult};
ghost use Rattle.std.specs.String.{string_bytes};
ghost use Rattle.ax_app.specs.Answers.{command_of};
ghost use Rattle.ax_app.specs.Judged.{HasModule};
ghost use Rattle.ax_app.specs.Serve.{reading, CauseOf, CauseOfFiles, CauseOfLower, CauseOfMap, CauseOfRun, Reading, HasAsked, limit_of};
ghost use Rattle.ax_app.specs.Reads.{ReadWhole, ReadFails};

use crate::built::built_of;
use crate::command::{Command, command_of};
use crate::text::{lower_of, run_of};
use crate::verdict::{Part, Verdict};
use ax_check::Accepted;
use ax_io::{FileFault, Files};
use ax_table::map_text;
use ax_target::Target;
use std::alloc::Global;

/// The most bytes that a file may have.
fn limit_of(part: Part) -> usize
    ensures { result ≡ limit_of part }
{
    match part {
        Part::Module => 4_194_304,
        Part::Schedule => 16_777_216,
    }
}

/// Reads a file of a command.
fn read_part<F: Files>(
    alloc: Global,
    files: &mut F,
    part: Part,
    name: &str,
) -> Result<Vec<u8>, Verdict>
    ensures reads { MatchResult result (λ bytes. ReadWhole (reading (F.held files.old) (F.asked files.old) (F.asked files.new) (F.faults files.old) (F.faults files.new) (F.taken files.new)) part name.now bytes.items) (λ v. ReadFails (reading (F.held files.old) (F.asked files.old) (F.asked files.new) (F.faults files.old) (F.faults files.new) (F.taken files.new)) part name.now v) }
    ensures same { (n : List ℕ) → F.held files.new n ≡ F.held files.old n }
    ensures length { IfOk result (λ bytes. length bytes.items ≤ limit_of part) }
{
    match files.read(alloc, name, limit_of(part)) {
        Ok(bytes) => Ok(bytes),
        Err(FileFault::Failed) => Err(Verdict::ReadFault(part)),
        Err(FileFault::TooLong) => Err(Verdict::TooLong(part)),
        Err(FileFault::Memory) => Err(Verdict::Memory),
    }
}

/// The module of a command's first file, if it is built on the target.
fn module_of<F: Files>(
    alloc: Global,
    files: &mut F,
    target: Target,
    name: &str,
) -> Result<Accepted, Verdict>
    ensures found { MatchResult result (λ program. HasModule (reading (F.held files.old) (F.asked files.old) (F.asked files.new) (F.faults files.old) (F.faults files.new) (F.taken files.new)) target name.now program) (λ v. (rest : List (List ℕ)) → CauseOfFiles (reading (F.held files.old) (F.asked files.old) (F.asked files.new) (F.faults files.old) (F.faults files.new) (F.taken files.new)) target (name.now ∷ rest) v) }
    ensures same { (n : List ℕ) → F.held files.new n ≡ F.held files.old n }
{
    let bytes = match read_part(alloc, files, Part::Module, name) {
        Ok(bytes) => bytes,
        Err(verdict) => return Err(verdict),
    };
    built_of(alloc, &bytes, target)
}

/// What the assembly of this file's module comes to.
fn judge_lower<F: Files>(alloc: Global, files: &mut F, target: Target, name: &str) -> Verdict
    ensures { CauseOfLower (reading (F.held files.old) (F.asked files.old) (F.asked files.new) (F.faults files.old) (F.faults files.new) (F.taken files.new)) target (name.now ∷ []) result }
{
    match module_of(alloc, files, target, name) {
        Ok(accepted) => lower_of(alloc, &accepted),
        Err(verdict) => verdict,
    }
}

/// What the run of these files comes to.
fn judge_run<F: Files>(
    alloc: Global,
    files: &mut F,
    target: Target,
    module_name: &str,
    schedule_name: &str,
) -> Verdict
    ensures { CauseOfRun (reading (F.held files.old) (F.asked files.old) (F.asked files.new) (F.faults files.old) (F.faults files.new) (F.taken files.new)) target (module_name.now ∷ schedule_name.now ∷ []) result }
{
    let accepted = match module_of(alloc, files, target, module_name) {
        Ok(accepted) => accepted,
        Err(verdict) => return verdict,
    };
    let schedule = match read_part(alloc, files, Part::Schedule, schedule_name) {
        Ok(bytes) => bytes,
        Err(verdict) => return verdict,
    };
    run_of(alloc, &accepted, &schedule)
}

/// The mapping table of a target.
fn judge_map(alloc: Global, target: Target) -> Verdict
    ensures { (r : Reading) → HasAsked r [] → CauseOfMap r target result }
{
    match map_text(alloc, target) {
        Ok(text) => Verdict::Text(text),
        Err(_) => Verdict::Memory,
    }
}

/// What the words and the files come to. Nothing is written.
pub(crate) fn judge<F: Files>(alloc: Global, words: &[String], files: &mut F) -> Verdict
    ensures { CauseOf (reading (F.held files.old) (F.asked files.old) (F.asked files.new) (F.faults files.old) (F.faults files.new) (F.taken files.new)) (command_of (map string_bytes words.now)) result }
{
    match command_of(words) {
        Some(Command::Lower { target, module }) => judge_lower(alloc, files, target, module),
        Some(
            Command::Run {
                target,
                module,
                schedule,
            },
        ) => judge_run(alloc, files, target, module, schedule),
        Some(Command::Map { target }) => judge_map(alloc, target),
        None => Verdict::Usage,
    }
}
