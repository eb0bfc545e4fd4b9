//! The texts of programs: their assembly, and the reports of their runs.

ghost use Rattle.std.specs.Prelude.{◌≡◌, ◌≤◌, ◌++◌, IfOk, OnOk, length, true};
ghost use Rattle.std.specs.String.{string_bytes};
ghost use Rattle.ax_sched.specs.Plan.{IsPlanOf};
ghost use Rattle.ax_direct_rv.specs.Direct.{is_built};
ghost use Rattle.ax_app.specs.Judged.{JudgesLower, JudgesRun};
ghost use Rattle.ax_run.specs.Run.{HasRun, IsOf};
ghost use Rattle.ax_app.specs.Serve.{IsAssemblyOf, IsTextOf, report_of};

use crate::report_lines::push_report;
use crate::verdict::Verdict;
use ax_check::Accepted;
use ax_check::laws::accepted_can_be_laid_out;
use ax_lower::lower;
use ax_lowered::Lowered;
use ax_module::names_are_ascii;
use ax_run::{Run, prepare};
use ax_sched::{Plan, SchedFault, read_schedule};
use std::alloc::{AllocError, Global};

/// The assembly of a program's image.
fn assembly_of(alloc: Global, accepted: &Accepted) -> Result<String, AllocError>
    requires { is_built accepted.now ≡ true }
    ensures { IfOk result (λ text. IsAssemblyOf accepted.now (string_bytes text)) }
{
    accepted.is_without_faults();
    names_are_ascii();
    let lowered = lower(alloc, accepted)?;
    let text = ax_print::print(alloc, &lowered)?;
    Ok(text)
}

/// What a program that is built comes to as assembly.
pub(crate) fn lower_of(alloc: Global, accepted: &Accepted) -> Verdict
    requires { is_built accepted.now ≡ true }
    ensures { JudgesLower accepted.now result }
{
    match assembly_of(alloc, accepted) {
        Ok(text) => Verdict::Text(text),
        Err(_) => Verdict::Memory,
    }
}

/// Appends the report of a program's run that has gone to its end.
fn push_report_of(out: &mut String, run: &Run, accepted: &Accepted) -> Result<(), AllocError>
    requires ran { HasRun run.now }
    requires program { run.now.program ≡ accepted.now }
    ensures { OnOk result (string_bytes out.new ≡ string_bytes out.old ++ report_of accepted.now run.now.code run.now.plan) }
{
    accepted.is_without_faults();
    accepted_can_be_laid_out();
    names_are_ascii();
    let globals = accepted.module().globals.as_slice();
    push_report(out, run, accepted.target(), globals)?;
    Ok(())
}

/// The report of a run of a lowered program, once `Run::go` was called: its outputs, the numbers of
/// all elements, its processors, the source events that explain it, and its events. Memory is the
/// only refusal.
pub fn report(
    alloc: Global,
    run: &Run,
    lowered: &Lowered,
    accepted: &Accepted,
) -> Result<String, AllocError>
    requires ran { HasRun run.now }
    requires of { IsOf lowered.now.code accepted.now run.now.plan run.now }
    ensures { IfOk result (λ text. string_bytes text ≡ report_of accepted.now lowered.now.code run.now.plan) }
{
    let mut text = String::new(alloc);
    push_report_of(&mut text, run, accepted)?;
    Ok(text)
}

/// The assembly of the program's image, and the report of its run under the plan.
fn text_of(alloc: Global, accepted: &Accepted, plan: &Plan) -> Result<String, AllocError>
    requires built { is_built accepted.now ≡ true }
    requires plan { IsPlanOf accepted.now.source plan.now }
    ensures { IfOk result (λ text. IsTextOf accepted.now plan.now (string_bytes text)) }
{
    accepted.is_without_faults();
    names_are_ascii();
    let lowered = lower(alloc, accepted)?;
    let mut text = ax_print::print(alloc, &lowered)?;
    let mut run = prepare(alloc, &lowered, accepted, plan)?;
    run.go();
    push_report_of(&mut text, &run, accepted)?;
    Ok(text)
}

/// What a schedule file's bytes come to for a program that is built.
pub(crate) fn run_of(alloc: Global, accepted: &Accepted, schedule: &[u8]) -> Verdict
    requires length { length schedule.now ≤ 16777216 }
    requires built { is_built accepted.now ≡ true }
    ensures { JudgesRun accepted.now schedule.now result }
{
    accepted.is_without_faults();
    let plan = match read_schedule(alloc, schedule, accepted.module()) {
        Ok(plan) => plan,
        Err(SchedFault::Bad { line, cause }) => return Verdict::Schedule { line, cause },
        Err(SchedFault::Memory) => return Verdict::Memory,
    };
    match text_of(alloc, accepted, &plan) {
        Ok(text) => Verdict::Text(text),
        Err(_) => Verdict::Memory,
    }
}
