//! The first fault of a module, in module order and then by number.

ghost use Rattle.std.specs.Prelude.{◌≡◌, ◌≢◌, ◌<◌, ◌≤◌, ◌+◌, ◌^◌, ℕ, true, false, IfOk, IsTrue, length, None, Some};
ghost use Rattle.std.specs.List.{list_all};
ghost use Rattle.ax_module.specs.declared.module.Module.{Module};
ghost use Rattle.ax_target.specs.declared.target.Target.{Target};
ghost use Rattle.ax_module.specs.Ranges.{is_function_in_range, is_global_in_range, is_inst_in_range};
ghost use Rattle.ax_module.specs.WellFormed.{is_function};
ghost use Rattle.ax_module.specs.declared.module.Function.{Function};
ghost use Rattle.ax_layout.specs.Layout.{LayoutState, layout_of};
ghost use Rattle.ax_access_rules.specs.Alignment.{LaysOut};
ghost use Rattle.ax_rules.specs.Facts.{scope_of};
ghost use Rattle.ax_rules.specs.Limits.{instruction_count};
ghost use Rattle.ax_rules.specs.Parts.{AreParts};
ghost use Rattle.ax_rules.specs.Points.{AtGlobal, AtHead, AtInst, points_of_function};
ghost use Rattle.ax_access_rules.specs.RulesAtPoints.{are_globals_fine, has_fault_at};
ghost use Rattle.ax_check.specs.Facts.{Describes};
ghost use Rattle.ax_check.specs.Faults.{FirstAt, FirstInBlock, FirstInBlocks, FirstInFunctions, FirstInGlobals, FirstRule};
ghost use Rattle.ax_check.specs.First.{FirstBy};
ghost use Rattle.ax_check.specs.Graph.{IsGraph};
ghost use Rattle.ax_check.specs.Ready.{IsFaultHere, IsReady, early_rules, late_rules};

use crate::defined::is_not_defined;
use crate::facts::Facts;
use crate::refusal::Refusal;
use ax_access_rules::alignment::{has_overstated, has_plain_locked};
use ax_access_rules::allocas::has_alloca;
use ax_access_rules::mixed::has_mixed_width;
use ax_access_rules::orders::has_bad_ordering;
use ax_layout::Layout;
use ax_module::{Block, Function, Inst, Module, module};
use ax_rules::calls::is_user_call;
use ax_rules::kind::{has_kind, has_kind_at_head, has_kind_of_global};
use ax_rules::limits::{has_limit, has_limit_at_head, has_limit_of_global};
use ax_rules::width::{
    has_dynamic_shift, has_parameter, has_returned_value, has_width, has_width_at_head,
    has_width_of_global,
};
use ax_rules::{FunctionScope, Parts, Rule};
use ax_target::Target;
use ax_words::{Place, Site};
use std::alloc::{AllocError, Global};

/// What the instructions of one function are checked by.
#[derive(Drop)]
pub struct Setting {
    pub facts: Facts,
    pub scope: FunctionScope,
}

/// The first rule that a global breaks.
#[tactic(auto, using(crate::proofs::Ranges::init_in_range))]
fn rule_at_global(m: &Module, g: usize, variable: &module::Global) -> Option<Rule>
    requires { IsTrue (is_global_in_range variable.now) }
    ensures first { (t : Target) → FirstRule m.now t (AtGlobal g variable.now) result }
    ensures fine { result ≡ None → has_fault_at m.now g variable.now ≡ false }
    ensures few { result ≡ None → g ≢ 256 }
{
    if has_width_of_global(variable) {
        Some(Rule::Width)
    } else if has_kind_of_global(variable) {
        Some(Rule::Kind)
    } else if has_limit_of_global(m.globals.as_slice(), g, variable) {
        Some(Rule::Limit)
    } else {
        None
    }
}

/// The first rule that the head of a function breaks.
fn rule_at_head(k: usize, f: &Function) -> Option<Rule>
    ensures first { (m : Module) (t : Target) → FirstRule m t (AtHead k f.now) result }
    ensures short { result ≡ None → instruction_count f.now ≤ 2048 }
    ensures few { result ≡ None → k ≢ 64 }
{
    if has_width_at_head(f) {
        Some(Rule::Width)
    } else if has_kind_at_head(f) {
        Some(Rule::Kind)
    } else if has_parameter(f) {
        Some(Rule::Parameter)
    } else if has_limit_at_head(k, f) {
        Some(Rule::Limit)
    } else {
        None
    }
}

/// The first of the rules N1 to N7 that an instruction breaks.
fn early_rule(scope: &FunctionScope, parts: &Parts, inst: &Inst) -> Option<Rule>
    requires { AreParts parts.now inst.now }
    ensures { (t : Target) (layout : LayoutState) (f : Function) (b n : ℕ) → FirstBy (IsFaultHere t layout scope.now f (record { block = b; number = n; inst = inst.now })) (λ r. r) early_rules result }
{
    if has_width(parts, inst) {
        return Some(Rule::Width);
    }
    if has_kind(scope, parts, inst) {
        return Some(Rule::Kind);
    }
    if has_dynamic_shift(inst) {
        return Some(Rule::DynamicShift);
    }
    if is_user_call(inst) {
        return Some(Rule::UserCall);
    }
    if has_returned_value(inst) {
        return Some(Rule::Parameter);
    }
    if has_bad_ordering(inst) {
        return Some(Rule::BadOrdering);
    }
    if has_mixed_width(scope, parts, inst) {
        return Some(Rule::MixedWidth);
    }
    None
}

/// The first of the rules N8 to N12 that instruction `number` of block `b` breaks.
fn late_rule(
    alloc: Global,
    t: Target,
    layout: &Layout,
    setting: &Setting,
    f: &Function,
    parts: &Parts,
    b: usize,
    number: usize,
    inst: &Inst,
) -> Result<Option<Rule>, AllocError>
    requires facts { Describes setting.now.facts f.now }
    requires graph { IsGraph f.now }
    requires layout { LaysOut layout.now setting.now.scope }
    requires range { IsTrue (is_inst_in_range inst.now) }
    requires parts { AreParts parts.now inst.now }
    ensures { IfOk result (λ r. FirstBy (IsFaultHere t layout.now setting.now.scope f.now (record { block = b; number = number; inst = inst.now })) (λ r. r) late_rules r) }
{
    if has_overstated(layout, &setting.scope, parts, inst) {
        return Ok(Some(Rule::AlignOverstated));
    }
    if has_plain_locked(layout, &setting.scope, t, inst) {
        return Ok(Some(Rule::PlainLocked));
    }
    if is_not_defined(alloc, &setting.facts, f, parts, b, number, inst)? {
        return Ok(Some(Rule::NotDefined));
    }
    if has_alloca(&setting.scope, parts, b, inst) {
        return Ok(Some(Rule::Alloca));
    }
    if has_limit(parts, inst) {
        return Ok(Some(Rule::Limit));
    }
    Ok(None)
}

/// The first rule that instruction `number` of block `b` breaks.
fn rule_at(
    alloc: Global,
    t: Target,
    layout: &Layout,
    setting: &Setting,
    f: &Function,
    b: usize,
    number: usize,
    inst: &Inst,
) -> Result<Option<Rule>, AllocError>
    requires facts { Describes setting.now.facts f.now }
    requires graph { IsGraph f.now }
    requires layout { LaysOut layout.now setting.now.scope }
    requires range { IsTrue (is_inst_in_range inst.now) }
    ensures { (m : Module) (k : ℕ) → IsReady m layout.now f.now setting.now → IfOk result (λ r. FirstRule m t (AtInst k f.now (record { block = b; number = number; inst = inst.now })) r) }
{
    let parts = Parts::of(alloc, inst)?;
    match early_rule(&setting.scope, &parts, inst) {
        Some(rule) => Ok(Some(rule)),
        None => late_rule(alloc, t, layout, setting, f, &parts, b, number, inst),
    }
}

/// The first fault of a block of function `k`, whose first instruction has the number `start`.
fn first_in_block(
    alloc: Global,
    t: Target,
    layout: &Layout,
    setting: &Setting,
    k: u32,
    f: &Function,
    b: usize,
    start: usize,
    block: &Block,
) -> Result<Option<Refusal>, AllocError>
    requires facts { Describes setting.now.facts f.now }
    requires graph { IsGraph f.now }
    requires layout { LaysOut layout.now setting.now.scope }
    requires range { IsTrue (list_all is_inst_in_range block.now.insts) }
    requires numbers { start + length block.now.insts ≤ 2048 }
    ensures { (m : Module) → IsReady m layout.now f.now setting.now → IfOk result (λ r. FirstInBlock m t k f.now b start block.now.insts r) }
{
    for (i, inst) in block.insts.as_slice().iter().enumerate() {
        if let Some(rule) = rule_at(alloc, t, layout, setting, f, b, start + i, inst)? {
            let site = Site {
                function: k,
                instruction: (start + i) as u32,
            };
            return Ok(Some(Refusal {
                number: rule.number(),
                place: Place::Inst(site),
            }));
        }
    }
    Ok(None)
}

/// The first fault of the instructions of function `k`.
fn first_in_blocks(
    alloc: Global,
    t: Target,
    layout: &Layout,
    setting: &Setting,
    k: u32,
    f: &Function,
) -> Result<Option<Refusal>, AllocError>
    requires facts { Describes setting.now.facts f.now }
    requires graph { IsGraph f.now }
    requires layout { LaysOut layout.now setting.now.scope }
    requires range { IsTrue (is_function_in_range f.now) }
    requires numbers { instruction_count f.now ≤ 2048 }
    ensures { (m : Module) → IsReady m layout.now f.now setting.now → IfOk result (λ r. FirstInBlocks m t k f.now 0 0 f.now.blocks r) }
{
    let mut start = 0;
    for (b, block) in f.blocks.as_slice().iter().enumerate() {
        if let Some(refusal) = first_in_block(alloc, t, layout, setting, k, f, b, start, block)? {
            return Ok(Some(refusal));
        }
        start += block.insts.as_slice().len();
    }
    Ok(None)
}

/// What the instructions of a function are checked by.
#[tactic(auto, using(crate::proofs::Lays::lays_in))]
fn setting_of(
    alloc: Global,
    m: &Module,
    layout: &Layout,
    f: &Function,
) -> Result<Setting, AllocError>
    requires graph { IsGraph f.now }
    requires layout { layout.now ≡ layout_of m.now }
    requires fine { are_globals_fine m.now ≡ true }
    ensures { IfOk result (λ setting. IsReady m.now layout.now f.now setting) }
{
    Ok(Setting {
        facts: Facts::of(alloc, f)?,
        scope: FunctionScope::of(alloc, m, f)?,
    })
}

/// The first fault of function `k`.
#[tactic(auto, using(crate::proofs::Shapes::is_graph))]
fn first_in_function(
    alloc: Global,
    m: &Module,
    t: Target,
    layout: &Layout,
    k: u32,
    f: &Function,
) -> Result<Option<Refusal>, AllocError>
    requires formed { IsTrue (is_function (length m.now.globals) f.now) }
    requires range { IsTrue (is_function_in_range f.now) }
    requires layout { layout.now ≡ layout_of m.now }
    requires fine { are_globals_fine m.now ≡ true }
    ensures first { IfOk result (λ r. FirstAt m.now t (points_of_function k f.now) r) }
    ensures few { IfOk result (λ r. r ≡ None → k ≢ 64) }
{
    if let Some(rule) = rule_at_head(k as usize, f) {
        return Ok(Some(Refusal {
            number: rule.number(),
            place: Place::Head(k),
        }));
    }
    let setting = setting_of(alloc, m, layout, f)?;
    first_in_blocks(alloc, t, layout, &setting, k, f)
}

/// The first fault of the functions of a module.
pub(crate) fn first_in_functions(
    alloc: Global,
    m: &Module,
    t: Target,
    layout: &Layout,
) -> Result<Option<Refusal>, AllocError>
    requires formed { IsTrue (list_all (is_function (length m.now.globals)) m.now.functions) }
    requires range { IsTrue (list_all is_function_in_range m.now.functions) }
    requires layout { layout.now ≡ layout_of m.now }
    requires fine { are_globals_fine m.now ≡ true }
    ensures { IfOk result (λ r. FirstInFunctions m.now t 0 m.now.functions r) }
{
    for (k, f) in m.functions.as_slice().iter().enumerate() {
        if let Some(refusal) = first_in_function(alloc, m, t, layout, k as u32, f)? {
            return Ok(Some(refusal));
        }
    }
    Ok(None)
}

/// The first fault of the globals of a module.
pub(crate) fn first_in_globals(m: &Module) -> Option<Refusal>
    requires { IsTrue (list_all is_global_in_range m.now.globals) }
    ensures first { (t : Target) → FirstInGlobals m.now t 0 m.now.globals result }
    ensures fine { result ≡ None → are_globals_fine m.now ≡ true }
{
    for (g, variable) in m.globals.as_slice().iter().enumerate() {
        if let Some(rule) = rule_at_global(m, g, variable) {
            return Some(Refusal {
                number: rule.number(),
                place: Place::Global(g as u32),
            });
        }
    }
    None
}
