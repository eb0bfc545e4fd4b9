//! The report of a run.

ghost use Rattle.std.specs.Prelude.{◌≡◌, ◌++◌, ◌<◌, ◌≤◌, ◌^◌, OnOk, All, length, map};
ghost use Rattle.std.specs.String.{string_bytes};
ghost use Rattle.ax_module.specs.Names.{IsAscii};
ghost use Rattle.ax_layout.specs.Layout.{CanBeLaidOut, count_in, layout_of};
ghost use Rattle.ax_isa.specs.Run.{Machine};
ghost use Rattle.ax_run.specs.Machine.{Shows};
ghost use Rattle.ax_app.specs.Report.{element_line, element_lines, object_part, processor_part, lock_part, run_report};

use ax_layout::regions::objects_are_apart;
use ax_module::{Name, module};
use ax_print::{
    push_end, push_head, push_held, push_lock, push_machine, push_object, push_outputs,
    push_processor, push_source,
};
use ax_run::Run;
use ax_target::Target;
use std::alloc::AllocError;

/// The line of an element of a global, which there is.
fn push_element(out: &mut String, run: &Run, name: &Name, g: u32, i: u64) -> Result<(), AllocError>
    requires global { g < length run.now.program.layout.spans }
    requires element { i < count_in run.now.program.layout g }
    requires bytes { IsAscii name.now }
    ensures { (m : Machine) → Shows run.now.machine m → OnOk result (string_bytes out.new ≡ string_bytes out.old ++ element_line run.now.program m.noted.storage.mem g name.now i) }
{
    match run.object(g, i) {
        Some(number) => push_object(out, name, i, number),
        None => push_held(out, name, i),
    }
}

/// The lines of a global's elements.
#[tactic(auto, using(crate::proofs::Reports::element_next, crate::proofs::Reports::element_none))]
fn push_elements(
    out: &mut String,
    run: &Run,
    name: &Name,
    g: u32,
    count: u64,
) -> Result<(), AllocError>
    requires global { g < length run.now.program.layout.spans }
    requires count { count ≡ count_in run.now.program.layout g }
    requires bytes { IsAscii name.now }
    ensures { (m : Machine) → Shows run.now.machine m → OnOk result (string_bytes out.new ≡ string_bytes out.old ++ element_lines run.now.program m.noted.storage.mem g name.now 0 count) }
{
    for i in 0..count {
        push_element(out, run, name, g, i)?;
    }
    Ok(())
}

/// The lines of all elements of all globals, which are those of the run's module.
fn push_objects(out: &mut String, run: &Run, globals: &[module::Global]) -> Result<(), AllocError>
    requires globals { globals.now ≡ run.now.program.source.globals }
    requires few { length globals.now < 2 ^ 32 }
    requires bytes { All (λ name. IsAscii name) (map (λ g. g.name) globals.now) }
    requires limits { CanBeLaidOut run.now.program.source }
    requires layout { run.now.program.layout ≡ layout_of run.now.program.source }
    ensures { (m : Machine) → Shows run.now.machine m → OnOk result (string_bytes out.new ≡ string_bytes out.old ++ object_part run.now.program m.noted.storage.mem 0 (map (λ g. g.name) globals.now)) }
{
    objects_are_apart();
    let mut g = 0;
    for global in globals {
        push_elements(out, run, &global.name, g, global.count)?;
        g += 1;
    }
    Ok(())
}

/// The lines of the processors.
#[tactic(auto, using(crate::proofs::Reports::processor_next, crate::proofs::Reports::processor_none))]
fn push_processors(out: &mut String, run: &Run) -> Result<(), AllocError>
    ensures { (m : Machine) → Shows run.now.machine m → OnOk result (string_bytes out.new ≡ string_bytes out.old ++ processor_part run.now.program m 0 (length run.now.plan.entries)) }
{
    for p in 0..run.processors() {
        push_processor(
            out,
            p,
            run.status(p),
            run.place(p),
            run.retired(p),
            run.pending(p),
        )?;
    }
    Ok(())
}

/// The lines of the first lock words that aren't 0.
#[tactic(auto, using(crate::proofs::Reports::lock_next, crate::proofs::Reports::lock_none))]
fn push_locks(out: &mut String, run: &Run, count: u32) -> Result<(), AllocError>
    requires { count ≤ 256 }
    ensures { (m : Machine) → Shows run.now.machine m → OnOk result (string_bytes out.new ≡ string_bytes out.old ++ lock_part m 0 count) }
{
    for i in 0..count {
        push_lock(out, i, run.lock_word(i))?;
    }
    Ok(())
}

/// Appends the report of a run of a module with these globals on a target.
pub(crate) fn push_report(
    out: &mut String,
    run: &Run,
    target: Target,
    globals: &[module::Global],
) -> Result<(), AllocError>
    requires target { target ≡ run.now.program.target }
    requires globals { globals.now ≡ run.now.program.source.globals }
    requires few { length globals.now < 2 ^ 32 }
    requires bytes { All (λ name. IsAscii name) (map (λ g. g.name) globals.now) }
    requires limits { CanBeLaidOut run.now.program.source }
    requires layout { run.now.program.layout ≡ layout_of run.now.program.source }
    ensures { (m : Machine) → Shows run.now.machine m → OnOk result (string_bytes out.new ≡ string_bytes out.old ++ run_report run.now.program (map (λ g. g.name) globals.now) (length run.now.plan.entries) m run.now.machine.sources run.now.machine.events) }
{
    let events = run.machine_schedule();
    push_head(out, target, run.processors(), events.len() as u64)?;
    push_outputs(out, run.outputs())?;
    push_objects(out, run, globals)?;
    push_processors(out, run)?;
    push_locks(out, run, 256)?;
    push_source(out, run.source_schedule())?;
    push_machine(out, events)?;
    push_end(out)
}
