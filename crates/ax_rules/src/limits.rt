//! N12 Limit.

ghost use Rattle.std.specs.Prelude.{◌≡◌, ◌≤◌, ◌<◌, ◌+◌, not, IsTrue, MatchOption, All, sum_by, nat_lt};
ghost use Rattle.std.specs.List.{list_any};
ghost use Rattle.ax_module.specs.Ranges.{is_in_range};
ghost use Rattle.ax_map.specs.Map.{globals_limit};
ghost use Rattle.ax_layout.specs.Layout.{end_of_span, is_alignment, next_multiple, span_after};
ghost use Rattle.ax_rules.specs.Limits.{alignment_in, alloca_bytes, bytes_of_allocas, global_limit_fault, has_many_phis, head_limit_fault, instruction_count, is_beyond, limit_fault, passes_first};
ghost use Rattle.ax_rules.specs.Constants.{fits_type};
ghost use Rattle.ax_rules.specs.Parts.{AreParts};

use crate::constants::fits_type;
use crate::facts::Parts;
use ax_map::{GLOBALS_LIMIT, GLOBALS_START};
use ax_module::{Block, Function, Inst, Operand, Ty, module};

fn is_alignment(align: Option<u64>) -> bool
    ensures { result ≡ is_alignment align }
{
    match align {
        None => true,
        Some(n) => matches!(
            n,
            1 | 2 | 4 | 8 | 16 | 32 | 64 | 128 | 256 | 512 | 1024 | 2048 | 4096
        ),
    }
}

/// The alignment that an instruction states.
#[tactic(auto, unfolding(crate::specs::Limits::alignment_in))]
fn alignment_in(inst: &Inst) -> Option<u64>
    ensures { result ≡ alignment_in inst.now }
{
    match inst {
        Inst::Alloca(_, _, align) | Inst::Load(_, _, align) | Inst::Store(_, _, _, align) => *align,
        Inst::LoadAtomic(_, _, _, align)
        | Inst::StoreAtomic(_, _, _, _, align)
        | Inst::Cmpxchg(_, _, _, _, _, _, _, _, align)
        | Inst::Rmw(_, _, _, _, _, align) => Some(*align),
        _ => None,
    }
}

fn any_beyond(operands: &[(Ty, Operand)]) -> bool
    requires { All (λ o. IsTrue (is_in_range o.1)) operands.now }
    ensures { result ≡ list_any is_beyond operands.now }
{
    operands.iter().any(|(t, v)| !fits_type(*t, *v))
}

/// N12: whether an instruction states an alignment that is no power of two from 1 to 4,096, or has
/// a constant beyond its type.
pub fn has_limit(parts: &Parts, inst: &Inst) -> bool
    requires parts { AreParts parts.now inst.now }
    requires range { All (λ o. IsTrue (is_in_range o.1)) parts.now.operands }
    ensures { result ≡ limit_fault inst.now }
{
    !is_alignment(alignment_in(inst)) || any_beyond(parts.operands.as_slice())
}

/// The next multiple of a number, from an address on; 0 where the number is 0.
fn next_multiple(n: u64, address: u64) -> u128
    ensures { result ≡ next_multiple n address }
{
    if n == 0 {
        return 0;
    }
    u128::from(address).div_ceil(u128::from(n)) * u128::from(n)
}

/// Where a global ends behind what ends at an address.
fn end_behind(end: u64, variable: &module::Global) -> u128
    requires { end ≤ globals_limit }
    ensures { result ≡ end_of_span (span_after end variable.now) }
{
    let bytes = variable.elem.bytes();
    let align = variable.align.unwrap_or(bytes);
    next_multiple(align, end) + u128::from(variable.count) * u128::from(bytes)
}

/// Whether global `g` is the first that ends past the limit, behind what ends at an address.
fn passes_first(end: u64, globals: &[module::Global], g: usize) -> bool
    requires { end ≤ globals_limit }
    ensures { result ≡ passes_first end globals.now g }
{
    match globals {
        [] => false,
        [variable, more @ ..] => {
            let end = end_behind(end, variable);
            if g == 0 {
                end > u128::from(GLOBALS_LIMIT)
            } else {
                end <= u128::from(GLOBALS_LIMIT) && passes_first(end as u64, more, g - 1)
            }
        }
    }
}

fn any_constant_beyond(t: Ty, init: &[Operand]) -> bool
    requires { All (λ v. IsTrue (is_in_range v)) init.now }
    ensures { result ≡ list_any (λ v. not (fits_type t v)) init.now }
{
    init.iter().any(|v| !fits_type(t, *v))
}

/// N12 at global `g`.
pub fn has_limit_of_global(globals: &[module::Global], g: usize, variable: &module::Global) -> bool
    requires { All (λ v. IsTrue (is_in_range v)) variable.now.init }
    ensures { result ≡ global_limit_fault globals.now g variable.now }
{
    variable.count == 0
        || variable.count > 65536
        || !is_alignment(variable.align)
        || any_constant_beyond(variable.elem, variable.init.as_slice())
        || g == 256
        || passes_first(GLOBALS_START, globals, g)
}

fn is_too_long(f: &Function) -> bool
    ensures { result ≡ nat_lt 2048 (instruction_count f.now) }
{
    let mut left: usize = 2048;
    for block in f.blocks.as_slice() {
        if left < block.insts.as_slice().len() {
            return true;
        }
        left -= block.insts.as_slice().len();
    }
    false
}

fn has_many_phis(block: &Block) -> bool
    ensures { result ≡ has_many_phis block.now }
{
    block.insts.as_slice().iter().filter(|i| i.is_phi()).count() > 64
}

fn any_many_phis(blocks: &[Block]) -> bool
    ensures { result ≡ list_any has_many_phis blocks.now }
{
    blocks.iter().any(|b| has_many_phis(b))
}

/// The bytes of an alloca, rounded up to 16.
#[tactic(auto, unfolding(crate::specs::Limits::alloca_bytes))]
fn alloca_bytes(inst: &Inst) -> u128
    ensures { result ≡ alloca_bytes inst.now }
{
    match inst {
        Inst::Alloca(t, count, _) => {
            (u128::from(*count) * u128::from(t.bytes())).div_ceil(16) * 16
        }
        _ => 0,
    }
}

/// What is left of so many bytes behind the allocas of a block. None exactly where they are too
/// few.
fn left_behind(block: &Block, bytes: u128) -> Option<u128>
    ensures { MatchOption result (bytes < sum_by alloca_bytes block.now.insts) (λ left. left + sum_by alloca_bytes block.now.insts ≡ bytes) }
{
    let mut left = bytes;
    for inst in block.insts.as_slice() {
        let taken = alloca_bytes(inst);
        if left < taken {
            return None;
        }
        left -= taken;
    }
    Some(left)
}

fn has_many_bytes(f: &Function) -> bool
    ensures { result ≡ nat_lt 32768 (bytes_of_allocas f.now) }
{
    let mut left: u128 = 32768;
    for block in f.blocks.as_slice() {
        match left_behind(block, left) {
            None => return true,
            Some(less) => left = less,
        }
    }
    false
}

/// N12 at the head of function `k`.
pub fn has_limit_at_head(k: usize, f: &Function) -> bool
    ensures { result ≡ head_limit_fault k f.now }
{
    k == 64 || is_too_long(f) || any_many_phis(f.blocks.as_slice()) || has_many_bytes(f)
}
