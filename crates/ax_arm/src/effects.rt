//! What each instruction does, with the numbers that it reads from the registers.

ghost use Rattle.std.specs.Prelude.{◌≡◌, ◌<◌, false, if◌then◌else◌};
ghost use Rattle.ax_isa.specs.Processor.{processor_of};
ghost use Rattle.ax_arm.specs.Effects.{bytes_of, combined, effect_of, extended, holds, jump_if, linked_pair, locked_pair, moved, next_register, operand_of, operation_of, pair_of, shifted};

use crate::instructions::{Alu, ArmInstr, Condition, Extension, Lse, Shift, Size};
use ax_isa::{Back, Change, Cpu, Effect, Rest, Saved, displaced};
use ax_words::RmwOp;

/// A register's number.
fn read(cpu: &Cpu, r: u8) -> u64
    ensures { result ≡ (processor_of cpu.now).regs r }
{
    match cpu.regs.get(r as usize) {
        Some(number) => *number,
        None => 0,
    }
}

pub(crate) fn bytes_of(size: Size) -> u8
    ensures { result ≡ bytes_of size }
{
    match size {
        Size::Byte => 1,
        Size::Half => 2,
        Size::Word => 4,
        Size::Double => 8,
    }
}

fn combined(op: Alu, a: u64, b: u64) -> u64
    ensures { result ≡ combined op a b }
{
    match op {
        Alu::Add => a.wrapping_add(b),
        Alu::Sub => a.wrapping_sub(b),
        Alu::And => a & b,
        Alu::Orr => a | b,
        Alu::Eor => a ^ b,
        Alu::Mul => a.wrapping_mul(b),
    }
}

fn shifted(op: Shift, a: u64, k: u32) -> u64
    requires { k < 64 }
    ensures { result ≡ shifted op a k }
{
    match op {
        Shift::Lsl => a << k,
        Shift::Lsr => a >> k,
        Shift::Asr => (a.cast_signed() >> k).cast_unsigned(),
    }
}

fn extended(op: Extension, a: u64) -> u64
    ensures { result ≡ extended op a }
{
    match op {
        Extension::Uxtb => a % 0x100,
        Extension::Uxth => a % 0x1_0000,
        Extension::Sxtb => (((a % 0x100) as u8).cast_signed() as i64).cast_unsigned(),
        Extension::Sxth => (((a % 0x1_0000) as u16).cast_signed() as i64).cast_unsigned(),
        Extension::Sxtw => (((a % 0x1_0000_0000) as u32).cast_signed() as i64).cast_unsigned(),
    }
}

/// Whether a condition holds of the two numbers last compared.
fn holds(condition: Condition, compared: (u64, u64)) -> bool
    ensures { result ≡ holds condition compared }
{
    let (left, right) = compared;
    match condition {
        Condition::Eq => left == right,
        Condition::Ne => left != right,
        Condition::Lo => left < right,
        Condition::Hs => right <= left,
        Condition::Ls => left <= right,
        Condition::Hi => right < left,
        Condition::Lt => left.cast_signed() < right.cast_signed(),
        Condition::Ge => right.cast_signed() <= left.cast_signed(),
        Condition::Le => left.cast_signed() <= right.cast_signed(),
        Condition::Gt => right.cast_signed() < left.cast_signed(),
    }
}

/// A base with its distance, mod 2^64.
fn moved(a: u64, d: u16) -> u64
    ensures { result ≡ moved a d }
{
    a.wrapping_add(d as u64)
}

fn jump_if(jumps: bool, place: u32, d: i32) -> Effect
    ensures { result ≡ jump_if jumps place d }
{
    if jumps {
        Effect::Jump {
            place: displaced(place as u64, d as i64),
        }
    } else {
        Effect::Nop
    }
}

/// The 16 bytes of two registers, low first.
fn pair_of(cpu: &Cpu, low: u8, high: u8) -> u128
    ensures { result ≡ pair_of ((processor_of cpu.now).regs low) ((processor_of cpu.now).regs high) }
{
    (read(cpu, high) as u128) << 64 | read(cpu, low) as u128
}

/// The register after another, as a pair of registers has it; a number has 5 bits.
pub fn next_register(r: u8) -> u8
    ensures { result ≡ next_register r }
{
    (r % 32 + 1) % 32
}

/// A step of the linked load of 16 bytes.
fn linked_pair(cpu: &Cpu, rt: u8, rt2: u8, rn: u8) -> Effect
    ensures { result ≡ linked_pair (processor_of cpu.now).half rt rt2 ((processor_of cpu.now).regs rn) }
{
    let address = read(cpu, rn);
    if cpu.half {
        load(rt2, moved(address, 8), Size::Double, true)
    } else {
        Effect::LinkHalf { to: rt, address }
    }
}

fn load(to: u8, address: u64, size: Size, ends_half: bool) -> Effect
    ensures { result ≡ Effect.Load to address (bytes_of size) Rest.Zeros ends_half }
{
    Effect::Load {
        to,
        address,
        bytes: bytes_of(size),
        rest: Rest::Zeros,
        ends_half,
    }
}

fn store(address: u64, size: Size, number: u64) -> Effect
    ensures { result ≡ Effect.Store address (bytes_of size) number }
{
    Effect::Store {
        address,
        bytes: bytes_of(size),
        number,
    }
}

fn link(to: u8, address: u64, size: Size) -> Effect
    ensures { result ≡ Effect.Link to address (bytes_of size) Rest.Zeros }
{
    Effect::Link {
        to,
        address,
        bytes: bytes_of(size),
        rest: Rest::Zeros,
    }
}

fn pair_store(to: u8, address: u64, bytes: u8, number: u128) -> Effect
    ensures { result ≡ Effect.PairStore to address bytes number }
{
    Effect::PairStore {
        to,
        address,
        bytes,
        number,
    }
}

fn operation_of(op: Lse) -> RmwOp
    ensures { result ≡ operation_of op }
{
    match op {
        Lse::Swp => RmwOp::Xchg,
        Lse::Ldadd => RmwOp::Add,
        Lse::Ldclr => RmwOp::And,
        Lse::Ldset => RmwOp::Or,
        Lse::Ldeor => RmwOp::Xor,
        Lse::Ldsmax => RmwOp::Max,
        Lse::Ldsmin => RmwOp::Min,
        Lse::Ldumax => RmwOp::UMax,
        Lse::Ldumin => RmwOp::UMin,
    }
}

fn operand_of(op: Lse, number: u64) -> u64
    ensures { result ≡ operand_of op number }
{
    match op {
        Lse::Ldclr => !number,
        _ => number,
    }
}

fn update(op: Lse, number: u64) -> Change
    ensures { result ≡ Change.Update (operation_of op) (operand_of op number) }
{
    Change::Update {
        op: operation_of(op),
        number: operand_of(op, number),
    }
}

fn exchange(expected: u128, number: u128) -> Change
    ensures { result ≡ Change.Exchange expected number false }
{
    Change::Exchange {
        expected,
        number,
        compares: false,
    }
}

fn locked(to: u8, address: u64, size: Size, change: Change) -> Effect
    ensures { result ≡ Effect.Locked to 0 address (bytes_of size) Rest.Zeros change }
{
    Effect::Locked {
        to,
        high: 0,
        address,
        bytes: bytes_of(size),
        rest: Rest::Zeros,
        change,
    }
}

/// The compare-and-swap of 16 bytes.
fn locked_pair(cpu: &Cpu, rs: u8, rt: u8, rn: u8) -> Effect
    ensures { result ≡ locked_pair rs rt ((processor_of cpu.now).regs rn) (processor_of cpu.now).regs }
{
    Effect::Locked {
        to: rs,
        high: next_register(rs),
        address: read(cpu, rn),
        bytes: 16,
        rest: Rest::Zeros,
        change: exchange(
            pair_of(cpu, rs, next_register(rs)),
            pair_of(cpu, rt, next_register(rt)),
        ),
    }
}

/// The register that a condition chooses: rn where it holds, else rm.
fn selected(cpu: &Cpu, condition: Condition, rn: u8, rm: u8) -> u64
    ensures { result ≡ (if holds condition (processor_of cpu.now).compared then (processor_of cpu.now).regs rn else (processor_of cpu.now).regs rm) }
{
    if holds(condition, cpu.compared) {
        read(cpu, rn)
    } else {
        read(cpu, rm)
    }
}

fn compare(left: u64, right: u64) -> Effect
    ensures { result ≡ Effect.Compare left right }
{
    Effect::Compare { left, right }
}

/// A call, which leaves the place after it in register 30.
fn call(place: u32) -> Effect
    ensures { result ≡ Effect.CallTo place (Saved.Register 30) }
{
    Effect::CallTo {
        place: place as u64,
        saved: Saved::Register(30),
    }
}

fn set(to: u8, number: u64) -> Effect
    ensures { result ≡ Effect.Set to number }
{
    Effect::Set { to, number }
}

/// The effect of an instruction, as a function of the registers, the numbers last compared, the
/// half of a linked pair and the place.
#[tactic(auto, unfolding(crate::specs::Effects::effect_of))]
pub(crate) fn effect_of(i: &ArmInstr, cpu: &Cpu) -> Effect
    ensures { result ≡ effect_of i.now (processor_of cpu.now) }
{
    match *i {
        ArmInstr::Constant { rd, n } => set(rd, n),
        ArmInstr::Mov { rd, rn } => set(rd, read(cpu, rn)),
        ArmInstr::MovWord { rd, rn } => set(rd, read(cpu, rn) % 0x1_0000_0000),
        ArmInstr::Alu { op, rd, rn, rm } => set(rd, combined(op, read(cpu, rn), read(cpu, rm))),
        ArmInstr::Neg { rd, rm } => set(rd, 0u64.wrapping_sub(read(cpu, rm))),
        ArmInstr::Mvn { rd, rm } => set(rd, !read(cpu, rm)),
        ArmInstr::Shift { op, rd, rn, k } => set(rd, shifted(op, read(cpu, rn), k as u32 % 64)),
        ArmInstr::Extend { op, rd, rn } => set(rd, extended(op, read(cpu, rn))),
        ArmInstr::Cmp { rn, rm } => compare(read(cpu, rn), read(cpu, rm)),
        ArmInstr::Cset { rd, condition } => set(rd, holds(condition, cpu.compared) as u64),
        ArmInstr::Csel {
            rd,
            rn,
            rm,
            condition,
        } => set(rd, selected(cpu, condition, rn, rm)),
        ArmInstr::Ldr { size, rt, rn, d } => load(rt, moved(read(cpu, rn), d), size, false),
        ArmInstr::Ldar { size, rt, rn } => load(rt, read(cpu, rn), size, false),
        ArmInstr::Str { size, rt, rn, d } => { store(moved(read(cpu, rn), d), size, read(cpu, rt)) }
        ArmInstr::Stlr { size, rt, rn } => store(read(cpu, rn), size, read(cpu, rt)),
        ArmInstr::Ldxr { size, rt, rn } | ArmInstr::Ldaxr { size, rt, rn } => {
            link(rt, read(cpu, rn), size)
        }
        ArmInstr::Ldxp { rt, rt2, rn } | ArmInstr::Ldaxp { rt, rt2, rn } => {
            linked_pair(cpu, rt, rt2, rn)
        }
        ArmInstr::Stxr { size, rs, rt, rn } | ArmInstr::Stlxr { size, rs, rt, rn } => {
            pair_store(rs, read(cpu, rn), bytes_of(size), read(cpu, rt) as u128)
        }
        ArmInstr::Stxp { rs, rt, rt2, rn } | ArmInstr::Stlxp { rs, rt, rt2, rn } => {
            pair_store(rs, read(cpu, rn), 16, pair_of(cpu, rt, rt2))
        }
        ArmInstr::Lse {
            op,
            size,
            rs,
            rt,
            rn,
            ..
        } => locked(rt, read(cpu, rn), size, update(op, read(cpu, rs))),
        ArmInstr::Cas {
            size,
            rs,
            rt,
            rn,
            ..
        } => locked(
            rs,
            read(cpu, rn),
            size,
            exchange(read(cpu, rs) as u128, read(cpu, rt) as u128),
        ),
        ArmInstr::Casp { rs, rt, rn, .. } => locked_pair(cpu, rs, rt, rn),
        ArmInstr::Dmb(_) | ArmInstr::Nop => Effect::Nop,
        ArmInstr::B { d } => jump_if(true, cpu.place, d),
        ArmInstr::BCond { condition, d } => {
            jump_if(holds(condition, cpu.compared), cpu.place, d)
        }
        ArmInstr::Cbz { rt, d } => jump_if(read(cpu, rt) == 0, cpu.place, d),
        ArmInstr::Cbnz { rt, d } => jump_if(read(cpu, rt) != 0, cpu.place, d),
        ArmInstr::Bl { place, .. } => call(place),
        ArmInstr::Ret => Effect::Return {
            back: Back::Place(read(cpu, 30)),
        },
        ArmInstr::Svc => Effect::Output {
            number: read(cpu, 0),
        },
        ArmInstr::Brk => Effect::Trap,
    }
}
