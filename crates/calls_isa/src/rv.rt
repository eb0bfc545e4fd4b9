//! Instructions of RV64, each kind of spelling once: most write t0 from t1 and t2.

use ax_rv::{
    Amo, Binary, Condition, Ending, FenceSets, Immediate, LoadForm, RvInstr, Shift, Size,
    StoreForm, Unary,
};
use ax_words::RoutineName;
use std::alloc::{AllocError, Global};

const UNARIES: [Unary; 5] = [
    Unary::Negate,
    Unary::Not,
    Unary::SignExtendWord,
    Unary::IsZero,
    Unary::IsNotZero,
];

const BINARIES: [Binary; 11] = [
    Binary::Add,
    Binary::Subtract,
    Binary::And,
    Binary::Or,
    Binary::Xor,
    Binary::Multiply,
    Binary::ShiftLeft,
    Binary::ShiftRight,
    Binary::ShiftRightSigned,
    Binary::IsLess,
    Binary::IsBelow,
];

const SHIFTS: [Shift; 3] = [Shift::Left, Shift::Right, Shift::RightSigned];

const IMMEDIATES: [Immediate; 2] = [Immediate::And, Immediate::Add];

const LOADS: [LoadForm; 4] = [
    LoadForm::Byte,
    LoadForm::Half,
    LoadForm::Word,
    LoadForm::Double,
];

const STORES: [StoreForm; 4] = [
    StoreForm::Byte,
    StoreForm::Half,
    StoreForm::Word,
    StoreForm::Double,
];

const SIZES: [Size; 2] = [Size::Word, Size::Double];

const ENDINGS: [Ending; 4] = [
    Ending::Plain,
    Ending::Acquire,
    Ending::Release,
    Ending::AcquireRelease,
];

const AMOS: [Amo; 9] = [
    Amo::Swap,
    Amo::Add,
    Amo::And,
    Amo::Or,
    Amo::Xor,
    Amo::Max,
    Amo::Min,
    Amo::MaxUnsigned,
    Amo::MinUnsigned,
];

const CONDITIONS: [Condition; 6] = [
    Condition::Equal,
    Condition::NotEqual,
    Condition::Less,
    Condition::GreaterEqual,
    Condition::Below,
    Condition::AboveEqual,
];

const FENCES: [FenceSets; 4] = [
    FenceSets::ReadBeforeAll,
    FenceSets::AllBeforeWrite,
    FenceSets::AllBeforeAll,
    FenceSets::TotalStoreOrder,
];

/// Of registers alone.
fn push_registers(all: &mut Vec<RvInstr>) -> Result<(), AllocError> {
    for rs in 0..32u8 {
        all.push(RvInstr::Unary {
            op: Unary::Move,
            rd: 5,
            rs,
        })?;
    }
    for op in UNARIES {
        all.push(RvInstr::Unary { op, rd: 5, rs: 6 })?;
    }
    for op in BINARIES {
        all.push(RvInstr::Binary {
            op,
            rd: 5,
            rs1: 6,
            rs2: 7,
        })?;
    }
    Ok(())
}

/// Of numbers.
fn push_numbers(all: &mut Vec<RvInstr>) -> Result<(), AllocError> {
    for n in [0, 0x7fff_ffff_ffff_ffff, 0xffff_ffff_ffff_ffff] {
        all.push(RvInstr::Li { rd: 5, n })?;
    }
    all.push(RvInstr::Li { rd: 0, n: 1 })?;
    for op in SHIFTS {
        for k in [0, 1, 63] {
            all.push(RvInstr::Shift {
                op,
                rd: 5,
                rs: 6,
                k,
            })?;
        }
    }
    for op in IMMEDIATES {
        for n in [-2048, -1, 2047] {
            all.push(RvInstr::Immediate {
                op,
                rd: 5,
                rs: 6,
                n,
            })?;
        }
    }
    Ok(())
}

/// Plain accesses.
fn push_accesses(all: &mut Vec<RvInstr>) -> Result<(), AllocError> {
    for d in [-2048, 0, 2047] {
        for form in LOADS {
            all.push(RvInstr::Load {
                form,
                rd: 5,
                d,
                rs1: 6,
            })?;
        }
        for form in STORES {
            all.push(RvInstr::Store {
                form,
                rs2: 7,
                d,
                rs1: 6,
            })?;
        }
    }
    Ok(())
}

/// Linked loads and pair stores.
fn push_pairs(all: &mut Vec<RvInstr>) -> Result<(), AllocError> {
    for size in SIZES {
        for ending in [Ending::Plain, Ending::Acquire, Ending::AcquireRelease] {
            all.push(RvInstr::LoadReserved {
                size,
                ending,
                rd: 5,
                rs1: 6,
            })?;
        }
        for ending in [Ending::Plain, Ending::Release] {
            all.push(RvInstr::StoreConditional {
                size,
                ending,
                rd: 5,
                rs2: 7,
                rs1: 6,
            })?;
        }
    }
    Ok(())
}

fn push_amos(all: &mut Vec<RvInstr>, op: Amo) -> Result<(), AllocError> {
    for size in SIZES {
        for ending in ENDINGS {
            all.push(RvInstr::Amo {
                op,
                size,
                ending,
                rd: 5,
                rs2: 7,
                rs1: 6,
            })?;
        }
    }
    Ok(())
}

/// Jumps, calls, fences and what ends.
fn push_jumps(all: &mut Vec<RvInstr>) -> Result<(), AllocError> {
    for distance in [i32::MIN, -101, -100, -1, 1, i32::MAX] {
        all.push(RvInstr::Jump { distance })?;
    }
    for condition in CONDITIONS {
        for distance in [-2, 2] {
            all.push(RvInstr::Branch {
                condition,
                rs1: 6,
                rs2: 7,
                distance,
            })?;
        }
    }
    all.push(RvInstr::Call {
        routine: RoutineName::Load16,
        place: 7,
    })?;
    for sets in FENCES {
        all.push(RvInstr::Fence(sets))?;
    }
    all.push(RvInstr::Ret)?;
    all.push(RvInstr::Ecall)?;
    all.push(RvInstr::Ebreak)?;
    all.push(RvInstr::Nop)?;
    Ok(())
}

/// The instructions that rows name.
pub(crate) fn instructions(alloc: Global) -> Result<Vec<RvInstr>, AllocError> {
    let mut all = Vec::new(alloc);
    push_registers(&mut all)?;
    push_numbers(&mut all)?;
    push_accesses(&mut all)?;
    push_pairs(&mut all)?;
    for op in AMOS {
        push_amos(&mut all, op)?;
    }
    push_jumps(&mut all)?;
    Ok(all)
}
