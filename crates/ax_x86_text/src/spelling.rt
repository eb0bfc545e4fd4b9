//! The spelling of each instruction.

ghost use Rattle.std.specs.Prelude.{◌≡◌, ◌∷◌, [], ◌++◌, codes, decimal, OnOk, string_bytes};
ghost use Rattle.ax_words.specs.Routine.{name_of};
ghost use Rattle.ax_x86_text.specs.Registers.{register_name};
ghost use Rattle.ax_x86_text.specs.Spelling.{access_text, alu_word, condition_code, double_text, extension_word, instr_text, jump_text, load_size, load_word, locked_text, memory_text, narrow_size, shift_word, single_text, suffix, wide_size};

use crate::registers::register_name;
use ax_isa::displaced;
use ax_words::RoutineName;
use ax_x86::{Alu, Condition, Extension, MemoryOperand, Shift, Size, X86Instr};
use std::alloc::AllocError;

/// Appends the instruction that stands at a place, in AT&T's syntax: a jump names the place to
/// which it goes as `.LPLACE`, and a call its routine. The only error is that memory fails.
#[tactic(auto, unfolding(crate::specs::Spelling::instr_text))]
pub fn push_instr(out: &mut String, place: usize, instr: &X86Instr) -> Result<(), AllocError>
    ensures { OnOk result (string_bytes out.new ≡ string_bytes out.old ++ instr_text place instr.now) }
{
    match *instr {
        X86Instr::Movabs { n, to } => push_constant(out, n, to),
        X86Instr::Mov { from, to } => push_double(out, "movq", from, to),
        X86Instr::Alu { op, from, to } => push_double(out, alu_word(op), from, to),
        X86Instr::Neg { to } => push_single(out, "negq", to),
        X86Instr::Not { to } => push_single(out, "notq", to),
        X86Instr::Shift { op, count, to } => push_shift(out, op, count, to),
        X86Instr::Extend { kind, from, to } => push_extension(out, kind, from, to),
        X86Instr::Cmp { right, left } => push_double(out, "cmpq", right, left),
        X86Instr::Setcc { condition, to } => push_set(out, condition, to),
        X86Instr::Cmovcc {
            condition,
            from,
            to,
        } => push_cmov(out, condition, from, to),
        X86Instr::Load { size, memory, to } => push_load(out, size, memory, to),
        X86Instr::Store { size, from, memory } => push_access(out, "mov", size, from, memory),
        X86Instr::Xchg { size, with, memory } => push_access(out, "xchg", size, with, memory),
        X86Instr::LockXadd { size, with, memory } => push_locked(out, "xadd", size, with, memory),
        X86Instr::LockCmpxchg { size, from, memory } => push_locked(
            out, "cmpxchg", size, from, memory,
        ),
        X86Instr::LockCmpxchg16b { memory } => push_wide_exchange(out, memory),
        X86Instr::Mfence => write!(out, "mfence"),
        X86Instr::Jmp { distance } => push_jump(out, "jmp", place, distance),
        X86Instr::Jcc {
            condition,
            distance,
        } => push_branch(out, condition, place, distance),
        X86Instr::Call { routine, .. } => push_call(out, routine),
        X86Instr::Ret => write!(out, "ret"),
        X86Instr::Syscall => write!(out, "syscall"),
        X86Instr::Ud2 => write!(out, "ud2"),
        X86Instr::Nop => write!(out, "nop"),
    }
}

fn push_constant(out: &mut String, n: u64, to: u8) -> Result<(), AllocError>
    ensures { OnOk result (string_bytes out.new ≡ string_bytes out.old ++ codes "movabsq $" ++ decimal n ++ codes ", " ++ register_name Size.Quad to) }
{
    let to = register_name(Size::Quad, to);
    write!(out, "movabsq ${n}, {to}")
}

/// Appends a mnemonic with one register of 64 bits.
fn push_single(out: &mut String, word: &str, to: u8) -> Result<(), AllocError>
    ensures { OnOk result (string_bytes out.new ≡ string_bytes out.old ++ single_text word.now to) }
{
    let to = register_name(Size::Quad, to);
    write!(out, "{word} {to}")
}

/// Appends a mnemonic with two registers of 64 bits.
fn push_double(out: &mut String, word: &str, from: u8, to: u8) -> Result<(), AllocError>
    ensures { OnOk result (string_bytes out.new ≡ string_bytes out.old ++ double_text word.now from to) }
{
    let from = register_name(Size::Quad, from);
    let to = register_name(Size::Quad, to);
    write!(out, "{word} {from}, {to}")
}

fn push_shift(out: &mut String, op: Shift, count: u8, to: u8) -> Result<(), AllocError>
    ensures { OnOk result (string_bytes out.new ≡ string_bytes out.old ++ shift_word op ++ codes " $" ++ decimal count ++ codes ", " ++ register_name Size.Quad to) }
{
    let word = shift_word(op);
    let to = register_name(Size::Quad, to);
    write!(out, "{word} ${count}, {to}")
}

fn push_extension(out: &mut String, kind: Extension, from: u8, to: u8) -> Result<(), AllocError>
    ensures { OnOk result (string_bytes out.new ≡ string_bytes out.old ++ extension_word kind ++ 32 ∷ register_name (narrow_size kind) from ++ codes ", " ++ register_name (wide_size kind) to) }
{
    let word = extension_word(kind);
    let from = register_name(narrow_size(kind), from);
    let to = register_name(wide_size(kind), to);
    write!(out, "{word} {from}, {to}")
}

fn push_set(out: &mut String, condition: Condition, to: u8) -> Result<(), AllocError>
    ensures { OnOk result (string_bytes out.new ≡ string_bytes out.old ++ codes "set" ++ condition_code condition ++ 32 ∷ register_name Size.Byte to) }
{
    let code = condition_code(condition);
    let to = register_name(Size::Byte, to);
    write!(out, "set{code} {to}")
}

fn push_cmov(out: &mut String, condition: Condition, from: u8, to: u8) -> Result<(), AllocError>
    ensures { OnOk result (string_bytes out.new ≡ string_bytes out.old ++ codes "cmov" ++ condition_code condition ++ 32 ∷ register_name Size.Quad from ++ codes ", " ++ register_name Size.Quad to) }
{
    let code = condition_code(condition);
    let from = register_name(Size::Quad, from);
    let to = register_name(Size::Quad, to);
    write!(out, "cmov{code} {from}, {to}")
}

/// Appends a displacement with its base.
fn push_memory(out: &mut String, memory: MemoryOperand) -> Result<(), AllocError>
    ensures { OnOk result (string_bytes out.new ≡ string_bytes out.old ++ memory_text memory) }
{
    let displacement = memory.displacement;
    let base = register_name(Size::Quad, memory.base);
    write!(out, "{displacement}({base})")
}

fn push_load(out: &mut String, size: Size, memory: MemoryOperand, to: u8) -> Result<(), AllocError>
    ensures { OnOk result (string_bytes out.new ≡ string_bytes out.old ++ load_word size ++ 32 ∷ memory_text memory ++ codes ", " ++ register_name (load_size size) to) }
{
    let word = load_word(size);
    let to = register_name(load_size(size), to);
    write!(out, "{word} ")?;
    push_memory(out, memory)?;
    write!(out, ", {to}")
}

/// Appends a mnemonic with the letter of its size, a register of that size and a memory operand.
fn push_access(
    out: &mut String,
    word: &str,
    size: Size,
    r: u8,
    memory: MemoryOperand,
) -> Result<(), AllocError>
    ensures { OnOk result (string_bytes out.new ≡ string_bytes out.old ++ access_text word.now size r memory) }
{
    let letter = suffix(size);
    let r = register_name(size, r);
    write!(out, "{word}{letter} {r}, ")?;
    push_memory(out, memory)
}

/// The same behind the prefix that locks.
fn push_locked(
    out: &mut String,
    word: &str,
    size: Size,
    r: u8,
    memory: MemoryOperand,
) -> Result<(), AllocError>
    ensures { OnOk result (string_bytes out.new ≡ string_bytes out.old ++ locked_text word.now size r memory) }
{
    write!(out, "lock ")?;
    push_access(out, word, size, r, memory)
}

fn push_wide_exchange(out: &mut String, memory: MemoryOperand) -> Result<(), AllocError>
    ensures { OnOk result (string_bytes out.new ≡ string_bytes out.old ++ codes "lock cmpxchg16b " ++ memory_text memory) }
{
    write!(out, "lock cmpxchg16b ")?;
    push_memory(out, memory)
}

fn push_jump(out: &mut String, word: &str, place: usize, distance: i32) -> Result<(), AllocError>
    ensures { OnOk result (string_bytes out.new ≡ string_bytes out.old ++ jump_text word.now place distance) }
{
    let target = displaced(place as u64, distance as i64);
    write!(out, "{word} .L{target}")
}

fn push_branch(
    out: &mut String,
    condition: Condition,
    place: usize,
    distance: i32,
) -> Result<(), AllocError>
    ensures { OnOk result (string_bytes out.new ≡ string_bytes out.old ++ jump_text (106 ∷ condition_code condition) place distance) }
{
    let code = condition_code(condition);
    let target = displaced(place as u64, distance as i64);
    write!(out, "j{code} .L{target}")
}

fn push_call(out: &mut String, routine: RoutineName) -> Result<(), AllocError>
    ensures { OnOk result (string_bytes out.new ≡ string_bytes out.old ++ codes "call " ++ name_of routine) }
{
    let name = routine.name();
    write!(out, "call {name}")
}

fn alu_word(op: Alu) -> &'static str
    ensures { result.now ≡ alu_word op }
{
    match op {
        Alu::Add => "addq",
        Alu::Sub => "subq",
        Alu::And => "andq",
        Alu::Or => "orq",
        Alu::Xor => "xorq",
        Alu::Imul => "imulq",
    }
}

fn shift_word(op: Shift) -> &'static str
    ensures { result.now ≡ shift_word op }
{
    match op {
        Shift::Shl => "shlq",
        Shift::Shr => "shrq",
        Shift::Sar => "sarq",
    }
}

fn extension_word(kind: Extension) -> &'static str
    ensures { result.now ≡ extension_word kind }
{
    match kind {
        Extension::ZeroByte => "movzbq",
        Extension::ZeroWord => "movzwq",
        Extension::ZeroLong => "movl",
        Extension::SignByte => "movsbq",
        Extension::SignWord => "movswq",
        Extension::SignLong => "movslq",
    }
}

/// The size of what is extended.
fn narrow_size(kind: Extension) -> Size
    ensures { result ≡ narrow_size kind }
{
    match kind {
        Extension::ZeroByte | Extension::SignByte => Size::Byte,
        Extension::ZeroWord | Extension::SignWord => Size::Word,
        Extension::ZeroLong | Extension::SignLong => Size::Long,
    }
}

/// The size in which the extended number is named.
fn wide_size(kind: Extension) -> Size
    ensures { result ≡ wide_size kind }
{
    match kind {
        Extension::ZeroLong => Size::Long,
        _ => Size::Quad,
    }
}

fn condition_code(condition: Condition) -> &'static str
    ensures { result.now ≡ condition_code condition }
{
    match condition {
        Condition::Equal => "e",
        Condition::NotEqual => "ne",
        Condition::Below => "b",
        Condition::AboveOrEqual => "ae",
        Condition::BelowOrEqual => "be",
        Condition::Above => "a",
        Condition::Less => "l",
        Condition::GreaterOrEqual => "ge",
        Condition::LessOrEqual => "le",
        Condition::Greater => "g",
    }
}

fn suffix(size: Size) -> &'static str
    ensures { result.now ≡ suffix size }
{
    match size {
        Size::Byte => "b",
        Size::Word => "w",
        Size::Long => "l",
        Size::Quad => "q",
    }
}

fn load_word(size: Size) -> &'static str
    ensures { result.now ≡ load_word size }
{
    match size {
        Size::Byte => "movzbq",
        Size::Word => "movzwq",
        Size::Long => "movl",
        Size::Quad => "movq",
    }
}

/// The size in which a loaded number is named.
fn load_size(size: Size) -> Size
    ensures { result ≡ load_size size }
{
    match size {
        Size::Long => Size::Long,
        _ => Size::Quad,
    }
}
