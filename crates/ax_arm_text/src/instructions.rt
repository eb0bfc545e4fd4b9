//! The text of each instruction.

ghost use Rattle.std.specs.Prelude.{◌≡◌, ◌++◌, OnOk, codes, decimal, string_bytes};
ghost use Rattle.ax_arm_text.specs.Registers.{register_of, w_name, x_name};
ghost use Rattle.ax_arm_text.specs.Spelling.{base_text, casp_text, extend_text, instr_text, label_text, one, three, two};
ghost use Rattle.ax_arm_text.specs.Words.{condition_text, ending_text, shift_text, size_text};

use crate::operands::{push_access, push_base, push_one, push_three, push_two};
use crate::registers::{register_of, w_name, x_name};
use crate::words::{
    alu_word, barrier_word, condition_word, ending_word, extension_word, lse_word, shift_word,
    size_word,
};
use ax_arm::{ArmInstr, Condition, Ending, Extension, Shift, Size, next_register};
use ax_isa::displaced;
use std::alloc::AllocError;

/// Appends the text of the instruction at a place. A jump names the label of the place that it
/// leads to, and a call its routine. The only error is that memory fails (Arm Architecture
/// Reference Manual for A-profile, the assembler syntax of A64).
#[tactic(auto, unfolding(crate::specs::Spelling::instr_text))]
pub fn push_instr(out: &mut String, place: usize, instr: &ArmInstr) -> Result<(), AllocError>
    ensures { OnOk result (string_bytes out.new ≡ string_bytes out.old ++ instr_text place instr.now) }
{
    match *instr {
        ArmInstr::Constant { rd, n } => push_constant(out, rd, n),
        ArmInstr::Mov { rd, rn } => push_two(out, "mov", x_name(rd), x_name(rn)),
        ArmInstr::MovWord { rd, rn } => push_two(out, "mov", w_name(rd), w_name(rn)),
        ArmInstr::Alu { op, rd, rn, rm } => {
            push_three(out, alu_word(op), x_name(rd), x_name(rn), x_name(rm))
        }
        ArmInstr::Neg { rd, rm } => push_two(out, "neg", x_name(rd), x_name(rm)),
        ArmInstr::Mvn { rd, rm } => push_two(out, "mvn", x_name(rd), x_name(rm)),
        ArmInstr::Shift { op, rd, rn, k } => push_shift(out, op, rd, rn, k),
        ArmInstr::Extend { op, rd, rn } => push_extend(out, op, rd, rn),
        ArmInstr::Cmp { rn, rm } => push_two(out, "cmp", x_name(rn), x_name(rm)),
        ArmInstr::Cset { rd, condition } => {
            push_two(out, "cset", x_name(rd), condition_word(condition))
        }
        ArmInstr::Csel {
            rd,
            rn,
            rm,
            condition,
        } => push_csel(out, rd, rn, rm, condition),
        ArmInstr::Ldr { size, rt, rn, d } => push_access(out, "ldr", size, rt, rn, d),
        ArmInstr::Ldar { size, rt, rn } => push_access(out, "ldar", size, rt, rn, 0),
        ArmInstr::Str { size, rt, rn, d } => push_access(out, "str", size, rt, rn, d),
        ArmInstr::Stlr { size, rt, rn } => push_access(out, "stlr", size, rt, rn, 0),
        ArmInstr::Ldxr { size, rt, rn } => push_linked(out, "ldxr", size, rt, rn),
        ArmInstr::Ldaxr { size, rt, rn } => push_linked(out, "ldaxr", size, rt, rn),
        ArmInstr::Ldxp { rt, rt2, rn } => push_linked_pair(out, "ldxp", rt, rt2, rn),
        ArmInstr::Ldaxp { rt, rt2, rn } => push_linked_pair(out, "ldaxp", rt, rt2, rn),
        ArmInstr::Stxr { size, rs, rt, rn } => push_pair_store(out, "stxr", size, rs, rt, rn),
        ArmInstr::Stlxr { size, rs, rt, rn } => push_pair_store(out, "stlxr", size, rs, rt, rn),
        ArmInstr::Stxp { rs, rt, rt2, rn } => {
            push_pair_store_of_two(out, "stxp", rs, rt, rt2, rn)
        }
        ArmInstr::Stlxp { rs, rt, rt2, rn } => {
            push_pair_store_of_two(out, "stlxp", rs, rt, rt2, rn)
        }
        ArmInstr::Lse {
            op,
            ending,
            size,
            rs,
            rt,
            rn,
        } => push_locked(out, lse_word(op), ending, size, rs, rt, rn),
        ArmInstr::Cas {
            ending,
            size,
            rs,
            rt,
            rn,
        } => push_locked(out, "cas", ending, size, rs, rt, rn),
        ArmInstr::Casp { ending, rs, rt, rn } => push_casp(out, ending, rs, rt, rn),
        ArmInstr::Dmb(barrier) => push_one(out, "dmb", barrier_word(barrier)),
        ArmInstr::B { d } => push_jump(out, place, d),
        ArmInstr::BCond { condition, d } => push_jump_on(out, condition, place, d),
        ArmInstr::Cbz { rt, d } => push_jump_by(out, "cbz", rt, place, d),
        ArmInstr::Cbnz { rt, d } => push_jump_by(out, "cbnz", rt, place, d),
        ArmInstr::Bl { routine, .. } => push_one(out, "bl", routine.name()),
        ArmInstr::Ret => write!(out, "ret"),
        ArmInstr::Svc => write!(out, "svc #0"),
        ArmInstr::Brk => write!(out, "brk #1"),
        ArmInstr::Nop => write!(out, "nop"),
    }
}

fn push_constant(out: &mut String, rd: u8, n: u64) -> Result<(), AllocError>
    ensures { OnOk result (string_bytes out.new ≡ string_bytes out.old ++ codes "ldr " ++ x_name rd ++ codes ", =" ++ decimal n) }
{
    let rd = x_name(rd);
    write!(out, "ldr {rd}, ={n}")
}

fn push_shift(out: &mut String, op: Shift, rd: u8, rn: u8, k: u8) -> Result<(), AllocError>
    ensures { OnOk result (string_bytes out.new ≡ string_bytes out.old ++ two (shift_text op) (x_name rd) (x_name rn) ++ codes ", #" ++ decimal k) }
{
    push_two(out, shift_word(op), x_name(rd), x_name(rn))?;
    write!(out, ", #{k}")
}

fn push_extend(out: &mut String, op: Extension, rd: u8, rn: u8) -> Result<(), AllocError>
    ensures { OnOk result (string_bytes out.new ≡ string_bytes out.old ++ extend_text op rd rn) }
{
    match op {
        Extension::Uxtb | Extension::Uxth => {
            push_two(out, extension_word(op), w_name(rd), w_name(rn))
        }
        Extension::Sxtb | Extension::Sxth | Extension::Sxtw => {
            push_two(out, extension_word(op), x_name(rd), w_name(rn))
        }
    }
}

fn push_csel(
    out: &mut String,
    rd: u8,
    rn: u8,
    rm: u8,
    condition: Condition,
) -> Result<(), AllocError>
    ensures { OnOk result (string_bytes out.new ≡ string_bytes out.old ++ three (codes "csel") (x_name rd) (x_name rn) (x_name rm) ++ codes ", " ++ condition_text condition) }
{
    push_three(out, "csel", x_name(rd), x_name(rn), x_name(rm))?;
    let condition = condition_word(condition);
    write!(out, ", {condition}")
}

fn push_linked(out: &mut String, word: &str, size: Size, rt: u8, rn: u8) -> Result<(), AllocError>
    ensures { OnOk result (string_bytes out.new ≡ string_bytes out.old ++ word.now ++ one (size_text size) (register_of size rt) ++ base_text rn) }
{
    write!(out, "{word}")?;
    push_one(out, size_word(size), register_of(size, rt))?;
    push_base(out, rn)
}

fn push_linked_pair(out: &mut String, word: &str, rt: u8, rt2: u8, rn: u8) -> Result<(), AllocError>
    ensures { OnOk result (string_bytes out.new ≡ string_bytes out.old ++ two word.now (x_name rt) (x_name rt2) ++ base_text rn) }
{
    push_two(out, word, x_name(rt), x_name(rt2))?;
    push_base(out, rn)
}

fn push_pair_store(
    out: &mut String,
    word: &str,
    size: Size,
    rs: u8,
    rt: u8,
    rn: u8,
) -> Result<(), AllocError>
    ensures { OnOk result (string_bytes out.new ≡ string_bytes out.old ++ word.now ++ two (size_text size) (w_name rs) (register_of size rt) ++ base_text rn) }
{
    write!(out, "{word}")?;
    push_two(out, size_word(size), w_name(rs), register_of(size, rt))?;
    push_base(out, rn)
}

/// Appends a pair store of 16 bytes.
fn push_pair_store_of_two(
    out: &mut String,
    word: &str,
    rs: u8,
    rt: u8,
    rt2: u8,
    rn: u8,
) -> Result<(), AllocError>
    ensures { OnOk result (string_bytes out.new ≡ string_bytes out.old ++ three word.now (w_name rs) (x_name rt) (x_name rt2) ++ base_text rn) }
{
    push_three(out, word, w_name(rs), x_name(rt), x_name(rt2))?;
    push_base(out, rn)
}

/// Appends a locked instruction with its order ending.
fn push_locked(
    out: &mut String,
    word: &str,
    ending: Ending,
    size: Size,
    rs: u8,
    rt: u8,
    rn: u8,
) -> Result<(), AllocError>
    ensures { OnOk result (string_bytes out.new ≡ string_bytes out.old ++ word.now ++ ending_text ending ++ two (size_text size) (register_of size rs) (register_of size rt) ++ base_text rn) }
{
    let ending = ending_word(ending);
    write!(out, "{word}{ending}")?;
    push_two(
        out,
        size_word(size),
        register_of(size, rs),
        register_of(size, rt),
    )?;
    push_base(out, rn)
}

/// Appends a compare-and-swap of 16 bytes.
fn push_casp(out: &mut String, ending: Ending, rs: u8, rt: u8, rn: u8) -> Result<(), AllocError>
    ensures { OnOk result (string_bytes out.new ≡ string_bytes out.old ++ casp_text ending rs rt rn) }
{
    write!(out, "casp")?;
    let expected_high = x_name(next_register(rs));
    push_three(
        out,
        ending_word(ending),
        x_name(rs),
        expected_high,
        x_name(rt),
    )?;
    let number_high = x_name(next_register(rt));
    write!(out, ", {number_high}")?;
    push_base(out, rn)
}

fn push_jump(out: &mut String, place: usize, d: i32) -> Result<(), AllocError>
    ensures { OnOk result (string_bytes out.new ≡ string_bytes out.old ++ one (codes "b") (label_text place d)) }
{
    let target = displaced(place as u64, d as i64);
    write!(out, "b .L{target}")
}

/// Appends a jump on a condition.
fn push_jump_on(
    out: &mut String,
    condition: Condition,
    place: usize,
    d: i32,
) -> Result<(), AllocError>
    ensures { OnOk result (string_bytes out.new ≡ string_bytes out.old ++ one (codes "b." ++ condition_text condition) (label_text place d)) }
{
    let condition = condition_word(condition);
    let target = displaced(place as u64, d as i64);
    write!(out, "b.{condition} .L{target}")
}

/// Appends a jump by a register.
fn push_jump_by(
    out: &mut String,
    word: &str,
    rt: u8,
    place: usize,
    d: i32,
) -> Result<(), AllocError>
    ensures { OnOk result (string_bytes out.new ≡ string_bytes out.old ++ two word.now (x_name rt) (label_text place d)) }
{
    let rt = x_name(rt);
    let target = displaced(place as u64, d as i64);
    write!(out, "{word} {rt}, .L{target}")
}
