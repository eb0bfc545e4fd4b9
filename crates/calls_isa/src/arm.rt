//! Instructions of AArch64, each kind of spelling once: most write x1 from x2 and x3, or access the
//! bytes at x2.

use ax_arm::{Alu, ArmInstr, Barrier, Condition, Ending, Extension, Lse, Shift, Size};
use ax_words::RoutineName;
use std::alloc::{AllocError, Global};

const ALUS: [Alu; 6] = [Alu::Add, Alu::Sub, Alu::And, Alu::Orr, Alu::Eor, Alu::Mul];

const SHIFTS: [Shift; 3] = [Shift::Lsl, Shift::Lsr, Shift::Asr];

const EXTENSIONS: [Extension; 5] = [
    Extension::Uxtb,
    Extension::Uxth,
    Extension::Sxtb,
    Extension::Sxth,
    Extension::Sxtw,
];

const CONDITIONS: [Condition; 10] = [
    Condition::Eq,
    Condition::Ne,
    Condition::Lo,
    Condition::Hs,
    Condition::Ls,
    Condition::Hi,
    Condition::Lt,
    Condition::Ge,
    Condition::Le,
    Condition::Gt,
];

const SIZES: [Size; 4] = [Size::Byte, Size::Half, Size::Word, Size::Double];

const ENDINGS: [Ending; 4] = [
    Ending::Plain,
    Ending::Acquire,
    Ending::Release,
    Ending::AcquireRelease,
];

const LOCKED: [Lse; 9] = [
    Lse::Swp,
    Lse::Ldadd,
    Lse::Ldclr,
    Lse::Ldset,
    Lse::Ldeor,
    Lse::Ldsmax,
    Lse::Ldsmin,
    Lse::Ldumax,
    Lse::Ldumin,
];

/// Of registers alone.
fn push_registers(all: &mut Vec<ArmInstr>) -> Result<(), AllocError> {
    for rn in 0..32u8 {
        all.push(ArmInstr::Mov { rd: 1, rn })?;
    }
    for rn in 0..31u8 {
        all.push(ArmInstr::MovWord { rd: 1, rn })?;
    }
    for op in ALUS {
        all.push(ArmInstr::Alu {
            op,
            rd: 1,
            rn: 2,
            rm: 3,
        })?;
    }
    for op in EXTENSIONS {
        all.push(ArmInstr::Extend { op, rd: 1, rn: 2 })?;
    }
    all.push(ArmInstr::Neg { rd: 1, rm: 3 })?;
    all.push(ArmInstr::Mvn { rd: 1, rm: 3 })?;
    all.push(ArmInstr::Cmp { rn: 2, rm: 3 })?;
    Ok(())
}

/// Of numbers and conditions.
fn push_numbers(all: &mut Vec<ArmInstr>) -> Result<(), AllocError> {
    for n in [0, 0x7fff_ffff_ffff_ffff, 0xffff_ffff_ffff_ffff] {
        all.push(ArmInstr::Constant { rd: 1, n })?;
    }
    for op in SHIFTS {
        for k in [0, 1, 63] {
            all.push(ArmInstr::Shift {
                op,
                rd: 1,
                rn: 2,
                k,
            })?;
        }
    }
    for condition in CONDITIONS {
        all.push(ArmInstr::Cset { rd: 1, condition })?;
        all.push(ArmInstr::Csel {
            rd: 1,
            rn: 2,
            rm: 3,
            condition,
        })?;
    }
    Ok(())
}

/// The greatest distance of an access.
fn greatest(size: Size) -> u16 {
    match size {
        Size::Byte => 4095,
        Size::Half => 8190,
        Size::Word => 16380,
        Size::Double => 32760,
    }
}

/// Plain accesses, and those with an order.
fn push_accesses(all: &mut Vec<ArmInstr>, size: Size) -> Result<(), AllocError> {
    let (rt, rn) = (1, 2);
    for d in [0, greatest(size)] {
        all.push(ArmInstr::Ldr { size, rt, rn, d })?;
        all.push(ArmInstr::Str { size, rt, rn, d })?;
    }
    let (sp, d) = (31, 8);
    all.push(ArmInstr::Ldr {
        size,
        rt,
        rn: sp,
        d,
    })?;
    all.push(ArmInstr::Ldar { size, rt, rn })?;
    all.push(ArmInstr::Stlr { size, rt, rn })?;
    all.push(ArmInstr::Ldxr { size, rt, rn })?;
    all.push(ArmInstr::Ldaxr { size, rt, rn })?;
    all.push(ArmInstr::Stxr {
        size,
        rs: 4,
        rt,
        rn,
    })?;
    all.push(ArmInstr::Stlxr {
        size,
        rs: 4,
        rt,
        rn,
    })?;
    Ok(())
}

/// Linked loads and pair stores of 16 bytes.
fn push_pairs(all: &mut Vec<ArmInstr>) -> Result<(), AllocError> {
    let (rs, rt, rt2, rn) = (4, 1, 3, 2);
    all.push(ArmInstr::Ldxp { rt, rt2, rn })?;
    all.push(ArmInstr::Ldaxp { rt, rt2, rn })?;
    all.push(ArmInstr::Stxp { rs, rt, rt2, rn })?;
    all.push(ArmInstr::Stlxp { rs, rt, rt2, rn })?;
    Ok(())
}

/// Locked instructions with an order ending: the operand is x3, and the old number comes to x1.
fn push_locked(all: &mut Vec<ArmInstr>, ending: Ending) -> Result<(), AllocError> {
    let (rs, rt, rn) = (3, 1, 2);
    for size in SIZES {
        for op in LOCKED {
            all.push(ArmInstr::Lse {
                op,
                ending,
                size,
                rs,
                rt,
                rn,
            })?;
        }
        all.push(ArmInstr::Cas {
            ending,
            size,
            rs,
            rt,
            rn,
        })?;
    }
    all.push(ArmInstr::Casp {
        ending,
        rs: 4,
        rt: 6,
        rn,
    })?;
    Ok(())
}

/// Jumps, calls, barriers and what ends.
fn push_jumps(all: &mut Vec<ArmInstr>) -> Result<(), AllocError> {
    for d in [i32::MIN, -101, -100, -1, 1, i32::MAX] {
        all.push(ArmInstr::B { d })?;
    }
    for d in [-2, 2] {
        for condition in CONDITIONS {
            all.push(ArmInstr::BCond { condition, d })?;
        }
        all.push(ArmInstr::Cbz { rt: 1, d })?;
        all.push(ArmInstr::Cbnz { rt: 1, d })?;
    }
    all.push(ArmInstr::Bl {
        routine: RoutineName::Load16,
        place: 7,
    })?;
    all.push(ArmInstr::Dmb(Barrier::Ish))?;
    all.push(ArmInstr::Dmb(Barrier::Ishld))?;
    all.push(ArmInstr::Ret)?;
    all.push(ArmInstr::Svc)?;
    all.push(ArmInstr::Brk)?;
    all.push(ArmInstr::Nop)?;
    Ok(())
}

/// The instructions that rows name.
pub(crate) fn instructions(alloc: Global) -> Result<Vec<ArmInstr>, AllocError> {
    let mut all = Vec::new(alloc);
    push_registers(&mut all)?;
    push_numbers(&mut all)?;
    for size in SIZES {
        push_accesses(&mut all, size)?;
    }
    push_pairs(&mut all)?;
    for ending in ENDINGS {
        push_locked(&mut all, ending)?;
    }
    push_jumps(&mut all)?;
    Ok(all)
}
