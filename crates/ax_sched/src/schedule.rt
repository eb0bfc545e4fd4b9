//! Schedules as a whole.

ghost use Rattle.std.specs.Prelude.{◌≡◌, ℕ, ◌-◌, ◌^◌, ◌<◌, ◌≤◌, [], length, map, IfOk, MatchResult};
ghost use Rattle.ax_module.specs.WellFormed.{IsModule};
ghost use Rattle.ax_sched.specs.declared.plan.Plan.{Plan};
ghost use Rattle.ax_sched.specs.declared.fault.Cause.{Cause};
ghost use Rattle.ax_sched.specs.Plan.{IsPlanOf};
ghost use Rattle.ax_sched.specs.Lines.{lines_of, kept_lines, words_of};
ghost use Rattle.ax_sched.specs.Schedule.{IsSchedule, IsFirstBad, IsSchedFault, IsBadAt};
ghost use Rattle.ax_sched.specs.Reading.{AnswersAs, FirstAs, fault_at, first_of, items_from, plan_from};

use crate::directive::item_from;
use crate::fault::{Cause, SchedFault, ScheduleStop};
use crate::first_line::first_of;
use crate::line::{kept_lines, lines_of, words_of};
use crate::plan::{Item, Plan};
use ax_module::{Function, Module};
use ax_words::Items;
use std::alloc::Global;

/// A line's stop as the fault of a text.
fn fault_at(line: u32, stop: ScheduleStop) -> SchedFault
    ensures { result ≡ fault_at line stop }
{
    match stop {
        ScheduleStop::Bad(cause) => SchedFault::Bad { line, cause },
        ScheduleStop::Memory => SchedFault::Memory,
    }
}

fn items(alloc: Global, lines: &[(u32, &[u8])], processors: usize) -> Result<Vec<Item>, SchedFault>
    requires { processors ≤ 8 }
    ensures { AnswersAs (λ v. v.items) result (items_from processors [] 0 (map (λ l. (l.0, l.1.now)) lines.now)) }
{
    let mut items = Vec::new(alloc);
    let mut events: u64 = 0;
    for line in lines {
        let words = words_of(alloc, line.1)?;
        let item = match item_from(words.as_slice(), processors, events) {
            Ok(item) => item,
            Err(cause) => {
                return Err(SchedFault::Bad {
                    line: line.0,
                    cause,
                });
            }
        };
        events += item.times();
        items.push(item)?;
    }
    Ok(items)
}

/// The entries that the first line names.
fn entries(
    alloc: Global,
    line: (u32, &[u8]),
    functions: &[Function],
) -> Result<Vec<u32>, SchedFault>
    requires { length functions.now < 2 ^ 32 }
    ensures read { FirstAs (λ v. v.items) result line.entry.0 (first_of (map (λ f. f.name) functions.now) (words_of line.entry.1.now)) }
    ensures few { IfOk result (λ v. (1 ≤ length v.items) × (length v.items ≤ 8)) }
{
    let words = words_of(alloc, line.1)?;
    match first_of(alloc, words.as_slice(), functions) {
        Ok(entries) => Ok(entries),
        Err(stop) => Err(fault_at(line.0, stop)),
    }
}

/// The plan that the lines which are not passed over state, of a text with so many lines.
fn plan_from(
    alloc: Global,
    total: u32,
    lines: &[(u32, &[u8])],
    functions: &[Function],
) -> Result<Plan, SchedFault>
    requires { length functions.now < 2 ^ 32 }
    ensures { AnswersAs (λ p. p) result (plan_from (map (λ f. f.name) functions.now) total (map (λ l. (l.0, l.1.now)) lines.now)) }
{
    let [first, rest @ ..] = lines else {
        return Err(SchedFault::Bad {
            line: total,
            cause: Cause::Syntax,
        });
    };
    let entries = entries(alloc, *first, functions)?;
    let items = items(alloc, rest, entries.len())?;
    Ok(Plan {
        entries: Items::of(entries),
        items: Items::of(items),
    })
}

fn read_lines(alloc: Global, bytes: &[u8], functions: &[Function]) -> Result<Plan, SchedFault>
    requires text { length bytes.now < 2 ^ 32 - 1 }
    requires few { length functions.now < 2 ^ 32 }
    ensures { AnswersAs (λ p. p) result (plan_from (map (λ f. f.name) functions.now) (length (lines_of bytes.now)) (kept_lines bytes.now)) }
{
    let lines = lines_of(alloc, bytes)?;
    let kept = kept_lines(alloc, lines.as_slice())?;
    plan_from(alloc, lines.len() as u32, kept.as_slice(), functions)
}

/// The plan that a schedule states for a module.
///
/// A schedule is lines of words. A blank is a space, a tab or a carriage return; a blank within
/// double quotes parts nothing. Lines without words and lines whose first word begins with `#` are
/// passed over. The first line is `processors` and the names of 1 to 8 functions, as the module's text
/// has them with their `@`; those behind it are `step P N`, `drain P N`, `drop P N`, `link P N`,
/// `round N` and `random SEED N`, with the processor P counted from 0 and all N together at most
/// 1,000,000. Numbers are decimal
/// without leading zeros. The last line feed may be absent.
///
/// `Bad` names the first bad line, counted from 1, and its first cause; a text without a first
/// line is bad behind its last line feed. `Memory` is answered only for want of memory.
pub fn read_schedule(alloc: Global, bytes: &[u8], m: &Module) -> Result<Plan, SchedFault>
    requires text { length bytes.now < 2 ^ 32 - 1 }
    requires module { IsModule m.now }
    // What is answered is what the text states.
    ensures found { IfOk result (IsSchedule bytes.now m.now) }
    // It is a plan of the module.
    ensures plan { IfOk result (IsPlanOf m.now) }
    // What a schedule states is answered, unless memory runs out.
    ensures only { (plan : Plan) → IsSchedule bytes.now m.now plan → MatchResult result (λ p. p ≡ plan) (λ e. e ≡ SchedFault.Memory) }
    // The line that is named is the first bad one, and the cause is its first.
    ensures fault { MatchResult result (λ _. Unit {0}) (IsSchedFault bytes.now m.now) }
    // The first bad line is named with its first cause, unless memory runs out.
    ensures bad { (line : ℕ) (cause : Cause) → IsFirstBad bytes.now m.now line cause → MatchResult result (λ _. ⊥) (IsBadAt line cause) }
{
    read_lines(alloc, bytes, m.functions.as_slice())
}
