//! The instruction set x86-64: the effect of each instruction.

ghost use Rattle.std.specs.Prelude.{◌≡◌, true, false, ◌+◌, ◌-◌, ◌*◌, ◌%◌, ◌^◌};
ghost use Rattle.std.proofs.Common.{refl};
ghost use Rattle.ax_isa.specs.Processor.{processor_of};
ghost use Rattle.ax_x86.specs.Instructions.{IsInstr, address_of, branch_place, cmov_result, effect_of, rest_of, x86_kind};
ghost use Rattle.ax_x86.specs.Sizes.{size_bytes};
ghost use Rattle.ax_x86.specs.Laws.{effects_fit, never_paired};

use crate::arithmetic::{
    alu_result, complement, extension_result, low_byte_set, negative, shift_result,
};
use crate::conditions::holds;
use crate::instructions::{Condition, MemoryOperand, Size, X86Instr};
use ax_isa::{Back, Change, Cpu, Effect, Isa, Rest, Saved, displaced};
use ax_words::RmwOp;

const RAX: u8 = 0;

const RCX: u8 = 1;

const RDX: u8 = 2;

const RBX: u8 = 3;

const RSP: u8 = 4;

const RDI: u8 = 7;

/// A register's number.
fn read(cpu: &Cpu, r: u8) -> u64
    ensures { result ≡ (processor_of cpu.now).regs r }
{
    match cpu.regs.get(r as usize) {
        Some(number) => *number,
        None => 0,
    }
}

/// The address of a memory operand.
fn address_of(cpu: &Cpu, memory: MemoryOperand) -> u64
    ensures { result ≡ address_of memory (processor_of cpu.now) }
{
    displaced(read(cpu, memory.base), memory.displacement as i64)
}

/// What becomes of the register's other bytes where a locked instruction changes its low ones.
fn rest_of(size: Size) -> Rest
    ensures { result ≡ rest_of size }
{
    match size {
        Size::Byte | Size::Word => Rest::Stays,
        Size::Long | Size::Quad => Rest::Zeros,
    }
}

/// A register gets a number.
fn set_to(to: u8, number: u64) -> Effect
    ensures { result ≡ Effect.Set to number }
{
    Effect::Set { to, number }
}

#[tactic(auto, unfolding(crate::specs::Instructions::effect_of))]
fn load(cpu: &Cpu, size: Size, memory: MemoryOperand, to: u8) -> Effect
    ensures { result ≡ effect_of (X86Instr.Load size memory to) (processor_of cpu.now) }
{
    Effect::Load {
        to,
        address: address_of(cpu, memory),
        bytes: size.bytes(),
        rest: Rest::Zeros,
        ends_half: false,
    }
}

#[tactic(auto, unfolding(crate::specs::Instructions::effect_of))]
fn store(cpu: &Cpu, size: Size, from: u8, memory: MemoryOperand) -> Effect
    ensures { result ≡ effect_of (X86Instr.Store size from memory) (processor_of cpu.now) }
{
    Effect::Store {
        address: address_of(cpu, memory),
        bytes: size.bytes(),
        number: read(cpu, from),
    }
}

/// A locked change of a number of up to 8 bytes, which gives the old one.
fn locked(cpu: &Cpu, size: Size, to: u8, memory: MemoryOperand, change: Change) -> Effect
    ensures { result ≡ Effect.Locked to 0 (address_of memory (processor_of cpu.now)) (size_bytes size) (rest_of size) change }
{
    Effect::Locked {
        to,
        high: 0,
        address: address_of(cpu, memory),
        bytes: size.bytes(),
        rest: rest_of(size),
        change,
    }
}

#[tactic(auto, unfolding(crate::specs::Instructions::effect_of))]
fn xchg(cpu: &Cpu, size: Size, with: u8, memory: MemoryOperand) -> Effect
    ensures { result ≡ effect_of (X86Instr.Xchg size with memory) (processor_of cpu.now) }
{
    let change = Change::Update {
        op: RmwOp::Xchg,
        number: read(cpu, with),
    };
    locked(cpu, size, with, memory, change)
}

#[tactic(auto, unfolding(crate::specs::Instructions::effect_of))]
fn xadd(cpu: &Cpu, size: Size, with: u8, memory: MemoryOperand) -> Effect
    ensures { result ≡ effect_of (X86Instr.LockXadd size with memory) (processor_of cpu.now) }
{
    let change = Change::Update {
        op: RmwOp::Add,
        number: read(cpu, with),
    };
    locked(cpu, size, with, memory, change)
}

#[tactic(auto, unfolding(crate::specs::Instructions::effect_of))]
fn cmpxchg(cpu: &Cpu, size: Size, from: u8, memory: MemoryOperand) -> Effect
    ensures { result ≡ effect_of (X86Instr.LockCmpxchg size from memory) (processor_of cpu.now) }
{
    let change = Change::Exchange {
        expected: read(cpu, RAX) as u128,
        number: read(cpu, from) as u128,
        compares: true,
    };
    locked(cpu, size, RAX, memory, change)
}

/// The number of 16 bytes in two registers.
fn read_pair(cpu: &Cpu, high: u8, low: u8) -> u128
    ensures { result ≡ (processor_of cpu.now).regs low + 2 ^ 64 * (processor_of cpu.now).regs high }
{
    (read(cpu, high) as u128) << 64 | read(cpu, low) as u128
}

#[tactic(auto, unfolding(crate::specs::Instructions::effect_of))]
fn cmpxchg16b(cpu: &Cpu, memory: MemoryOperand) -> Effect
    ensures { result ≡ effect_of (X86Instr.LockCmpxchg16b memory) (processor_of cpu.now) }
{
    Effect::Locked {
        to: RAX,
        high: RDX,
        address: address_of(cpu, memory),
        bytes: 16,
        rest: Rest::Zeros,
        change: Change::Exchange {
            expected: read_pair(cpu, RDX, RAX),
            number: read_pair(cpu, RCX, RBX),
            compares: true,
        },
    }
}

/// The place to which a jump at a condition goes.
fn branch_place(cpu: &Cpu, condition: Condition, distance: i32) -> u64
    ensures { result ≡ branch_place condition distance (processor_of cpu.now) }
{
    if holds(condition, cpu.compared) {
        displaced(cpu.place as u64, distance as i64)
    } else {
        cpu.place as u64 + 1
    }
}

/// A call, which keeps its return place on the stack.
fn call(cpu: &Cpu, place: u32) -> Effect
    ensures { result ≡ Effect.CallTo place (Saved.Stack 4 (((processor_of cpu.now).regs 4 + (2 ^ 64 - 8)) % 2 ^ 64)) }
{
    Effect::CallTo {
        place: place as u64,
        saved: Saved::Stack {
            pointer: RSP,
            address: read(cpu, RSP).wrapping_sub(8),
        },
    }
}

#[tactic(auto, unfolding(crate::specs::Instructions::effect_of))]
fn ret(cpu: &Cpu) -> Effect
    ensures { result ≡ effect_of X86Instr.Ret (processor_of cpu.now) }
{
    Effect::Return {
        back: Back::Stack {
            pointer: RSP,
            address: read(cpu, RSP),
        },
    }
}

/// The number that a move at a condition leaves.
fn cmov_result(cpu: &Cpu, condition: Condition, from: u8, to: u8) -> u64
    ensures { result ≡ cmov_result condition from to (processor_of cpu.now) }
{
    if holds(condition, cpu.compared) {
        read(cpu, from)
    } else {
        read(cpu, to)
    }
}

/// The instruction set x86-64 (Intel SDM, volume 2).
pub struct X86;

impl Isa for X86 {
    type Instr = X86Instr;

    const BUFFERED: bool = true;

    const PAIRS: bool = false;

    ghost BUFFERED = { true };

    ghost PAIRS = { false };

    ghost kind = { x86_kind };

    ghost valid = { IsInstr };

    #[tactic(auto, unfolding(crate::specs::Instructions::effect_of))]
    fn effect(i: &X86Instr, cpu: &Cpu) -> Effect {
        match *i {
            X86Instr::Movabs { n, to } => set_to(to, n),
            X86Instr::Mov { from, to } => set_to(to, read(cpu, from)),
            X86Instr::Alu { op, from, to } => set_to(
                to,
                alu_result(op, read(cpu, to), read(cpu, from)),
            ),
            X86Instr::Neg { to } => set_to(to, negative(read(cpu, to))),
            X86Instr::Not { to } => set_to(to, complement(read(cpu, to))),
            X86Instr::Shift { op, count, to } => set_to(to, shift_result(op, read(cpu, to), count)),
            X86Instr::Extend { kind, from, to } => set_to(
                to,
                extension_result(kind, read(cpu, from)),
            ),
            X86Instr::Cmp { right, left } => Effect::Compare {
                left: read(cpu, left),
                right: read(cpu, right),
            },
            X86Instr::Setcc { condition, to } => set_to(
                to,
                low_byte_set(read(cpu, to), holds(condition, cpu.compared)),
            ),
            X86Instr::Cmovcc {
                condition,
                from,
                to,
            } => set_to(to, cmov_result(cpu, condition, from, to)),
            X86Instr::Load { size, memory, to } => load(cpu, size, memory, to),
            X86Instr::Store { size, from, memory } => store(cpu, size, from, memory),
            X86Instr::Xchg { size, with, memory } => xchg(cpu, size, with, memory),
            X86Instr::LockXadd { size, with, memory } => xadd(cpu, size, with, memory),
            X86Instr::LockCmpxchg { size, from, memory } => cmpxchg(cpu, size, from, memory),
            X86Instr::LockCmpxchg16b { memory } => cmpxchg16b(cpu, memory),
            X86Instr::Mfence => Effect::Fence,
            X86Instr::Jmp { distance } => Effect::Jump {
                place: displaced(cpu.place as u64, distance as i64),
            },
            X86Instr::Jcc {
                condition,
                distance,
            } => Effect::Jump {
                place: branch_place(cpu, condition, distance),
            },
            X86Instr::Call { place, .. } => call(cpu, place),
            X86Instr::Ret => ret(cpu),
            X86Instr::Syscall => Effect::Output {
                number: read(cpu, RDI),
            },
            X86Instr::Ud2 => Effect::Trap,
            X86Instr::Nop => Effect::Nop,
        }
    }

    ghost buffered_of_kind = { refl };

    ghost pairs_of_kind = { refl };

    ghost apart = { λ b. refl };

    ghost paired = { never_paired };

    ghost fits = { effects_fit };
}
