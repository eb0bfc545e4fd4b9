//! What each instruction does.

ghost use Rattle.std.specs.Prelude.{◌≡◌, false, true};
ghost use Rattle.std.proofs.Common.{refl};
ghost use Rattle.std.proofs.lemmas.Bool.{false≢true};
ghost use Rattle.ax_isa.specs.Processor.{processor_of};
ghost use Rattle.ax_rv.specs.Instructions.{IsInstr, load_rest, operation_of, read, rv_kind, size_rest};
ghost use Rattle.ax_rv.specs.Laws.{effects_fit};
ghost use Rattle.ax_rv.specs.Skeleton.{load_bytes, size_bytes, store_bytes};

use crate::arithmetic::{binary_of, holds, immediate_of, shifted, unary_of};
use crate::instructions::{Amo, LoadForm, RvInstr, Size, StoreForm};
use ax_isa::{Back, Change, Cpu, Effect, Isa, Rest, Saved, displaced};
use ax_words::RmwOp;

/// A register's number.
fn read(cpu: &Cpu, r: u8) -> u64
    ensures { result ≡ read r (processor_of cpu.now) }
{
    if r == 0 {
        return 0;
    }
    match cpu.regs.get(r as usize) {
        Some(number) => *number,
        None => 0,
    }
}

pub(crate) fn load_bytes(form: LoadForm) -> u8
    ensures { result ≡ load_bytes form }
{
    match form {
        LoadForm::Byte => 1,
        LoadForm::Half => 2,
        LoadForm::Word => 4,
        LoadForm::Double => 8,
    }
}

fn load_rest(form: LoadForm) -> Rest
    ensures { result ≡ load_rest form }
{
    match form {
        LoadForm::Word => Rest::Signs,
        LoadForm::Byte | LoadForm::Half | LoadForm::Double => Rest::Zeros,
    }
}

pub(crate) fn store_bytes(form: StoreForm) -> u8
    ensures { result ≡ store_bytes form }
{
    match form {
        StoreForm::Byte => 1,
        StoreForm::Half => 2,
        StoreForm::Word => 4,
        StoreForm::Double => 8,
    }
}

pub(crate) fn size_bytes(size: Size) -> u8
    ensures { result ≡ size_bytes size }
{
    match size {
        Size::Word => 4,
        Size::Double => 8,
    }
}

fn size_rest(size: Size) -> Rest
    ensures { result ≡ size_rest size }
{
    match size {
        Size::Word => Rest::Signs,
        Size::Double => Rest::Zeros,
    }
}

fn operation_of(op: Amo) -> RmwOp
    ensures { result ≡ operation_of op }
{
    match op {
        Amo::Swap => RmwOp::Xchg,
        Amo::Add => RmwOp::Add,
        Amo::And => RmwOp::And,
        Amo::Or => RmwOp::Or,
        Amo::Xor => RmwOp::Xor,
        Amo::Max => RmwOp::Max,
        Amo::Min => RmwOp::Min,
        Amo::MaxUnsigned => RmwOp::UMax,
        Amo::MinUnsigned => RmwOp::UMin,
    }
}

/// The instruction set RV64 (RISC-V Unprivileged ISA: RV64I, M and the A extension).
pub struct Rv64;

impl Isa for Rv64 {
    type Instr = RvInstr;

    const BUFFERED: bool = false;

    const PAIRS: bool = true;

    ghost BUFFERED = { false };

    ghost PAIRS = { true };

    ghost kind = { rv_kind };

    ghost valid = { IsInstr };

    fn effect(i: &RvInstr, cpu: &Cpu) -> Effect {
        match *i {
            RvInstr::Li { rd, n } => Effect::Set { to: rd, number: n },
            RvInstr::Unary { op, rd, rs } => Effect::Set {
                to: rd,
                number: unary_of(op, read(cpu, rs)),
            },
            RvInstr::Binary { op, rd, rs1, rs2 } => Effect::Set {
                to: rd,
                number: binary_of(op, read(cpu, rs1), read(cpu, rs2)),
            },
            RvInstr::Shift { op, rd, rs, k } => Effect::Set {
                to: rd,
                number: shifted(op, read(cpu, rs), k % 64),
            },
            RvInstr::Immediate { op, rd, rs, n } => Effect::Set {
                to: rd,
                number: immediate_of(op, read(cpu, rs), n),
            },
            RvInstr::Load { form, rd, d, rs1 } => Effect::Load {
                to: rd,
                address: displaced(read(cpu, rs1), d as i64),
                bytes: load_bytes(form),
                rest: load_rest(form),
                ends_half: false,
            },
            RvInstr::Store { form, rs2, d, rs1 } => Effect::Store {
                address: displaced(read(cpu, rs1), d as i64),
                bytes: store_bytes(form),
                number: read(cpu, rs2),
            },
            RvInstr::LoadReserved { size, rd, rs1, .. } => Effect::Link {
                to: rd,
                address: read(cpu, rs1),
                bytes: size_bytes(size),
                rest: size_rest(size),
            },
            RvInstr::StoreConditional {
                size,
                rd,
                rs2,
                rs1,
                ..
            } => Effect::PairStore {
                to: rd,
                address: read(cpu, rs1),
                bytes: size_bytes(size),
                number: read(cpu, rs2) as u128,
            },
            RvInstr::Amo {
                op,
                size,
                rd,
                rs2,
                rs1,
                ..
            } => Effect::Locked {
                to: rd,
                high: 0,
                address: read(cpu, rs1),
                bytes: size_bytes(size),
                rest: size_rest(size),
                change: Change::Update {
                    op: operation_of(op),
                    number: read(cpu, rs2),
                },
            },
            RvInstr::Fence(_) | RvInstr::Nop => Effect::Nop,
            RvInstr::Jump { distance } => Effect::Jump {
                place: displaced(cpu.place as u64, distance as i64),
            },
            RvInstr::Call { place, .. } => Effect::CallTo {
                place: place as u64,
                saved: Saved::Register(1),
            },
            RvInstr::Ret => Effect::Return {
                back: Back::Place(read(cpu, 1)),
            },
            RvInstr::Branch {
                condition,
                rs1,
                rs2,
                distance,
            } => {
                if holds(condition, read(cpu, rs1), read(cpu, rs2)) {
                    Effect::Jump {
                        place: displaced(cpu.place as u64, distance as i64),
                    }
                } else {
                    Effect::Nop
                }
            }
            RvInstr::Ecall => Effect::Output {
                number: read(cpu, 10),
            },
            RvInstr::Ebreak => Effect::Trap,
        }
    }

    ghost buffered_of_kind = { refl };

    ghost pairs_of_kind = { refl };

    ghost apart = { λ b. absurd (false≢true b) };

    ghost paired = { λ i c h. refl };

    ghost fits = { effects_fit };
}
