//! Instructions of x86-64, each kind of spelling once: most write rcx from rdx, or access the bytes
//! at rbp.

use ax_words::RoutineName;
use ax_x86::{Alu, Condition, Extension, MemoryOperand, Shift, Size, X86Instr};
use std::alloc::{AllocError, Global};

const ALUS: [Alu; 6] = [Alu::Add, Alu::Sub, Alu::And, Alu::Or, Alu::Xor, Alu::Imul];

const SHIFTS: [Shift; 3] = [Shift::Shl, Shift::Shr, Shift::Sar];

const EXTENSIONS: [Extension; 6] = [
    Extension::ZeroByte,
    Extension::ZeroWord,
    Extension::ZeroLong,
    Extension::SignByte,
    Extension::SignWord,
    Extension::SignLong,
];

const CONDITIONS: [Condition; 10] = [
    Condition::Equal,
    Condition::NotEqual,
    Condition::Below,
    Condition::AboveOrEqual,
    Condition::BelowOrEqual,
    Condition::Above,
    Condition::Less,
    Condition::GreaterOrEqual,
    Condition::LessOrEqual,
    Condition::Greater,
];

const SIZES: [Size; 4] = [Size::Byte, Size::Word, Size::Long, Size::Quad];

const AT_RBP: MemoryOperand = MemoryOperand {
    displacement: 0,
    base: 5,
};

/// Each register under each of its names.
fn push_names(all: &mut Vec<X86Instr>) -> Result<(), AllocError> {
    for r in 0..16u8 {
        all.push(X86Instr::Mov { from: r, to: 1 })?;
        for size in SIZES {
            all.push(X86Instr::Store {
                size,
                from: r,
                memory: AT_RBP,
            })?;
        }
    }
    for base in [0, 1, 2, 3, 4, 6, 7, 8, 9, 10, 11, 12, 13, 14, 15] {
        all.push(X86Instr::Load {
            size: Size::Quad,
            memory: MemoryOperand {
                displacement: 8,
                base,
            },
            to: 1,
        })?;
    }
    Ok(())
}

/// Of registers alone.
fn push_registers(all: &mut Vec<X86Instr>) -> Result<(), AllocError> {
    for op in ALUS {
        all.push(X86Instr::Alu { op, from: 2, to: 1 })?;
    }
    for kind in EXTENSIONS {
        all.push(X86Instr::Extend {
            kind,
            from: 2,
            to: 1,
        })?;
    }
    for condition in CONDITIONS {
        all.push(X86Instr::Setcc { condition, to: 1 })?;
        all.push(X86Instr::Cmovcc {
            condition,
            from: 2,
            to: 1,
        })?;
    }
    all.push(X86Instr::Neg { to: 1 })?;
    all.push(X86Instr::Not { to: 1 })?;
    all.push(X86Instr::Cmp { right: 2, left: 1 })?;
    Ok(())
}

/// Of numbers.
fn push_numbers(all: &mut Vec<X86Instr>) -> Result<(), AllocError> {
    for n in [0, 0x7fff_ffff_ffff_ffff, 0xffff_ffff_ffff_ffff] {
        all.push(X86Instr::Movabs { n, to: 1 })?;
    }
    for op in SHIFTS {
        for count in [0, 1, 63] {
            all.push(X86Instr::Shift { op, count, to: 1 })?;
        }
    }
    Ok(())
}

/// Accesses at both ends of the displacements, and locked ones.
fn push_accesses(all: &mut Vec<X86Instr>) -> Result<(), AllocError> {
    for size in SIZES {
        for displacement in [i32::MIN, 0, i32::MAX] {
            let memory = MemoryOperand {
                displacement,
                base: 5,
            };
            all.push(X86Instr::Load {
                size,
                memory,
                to: 1,
            })?;
        }
        for displacement in [i32::MIN, i32::MAX] {
            let memory = MemoryOperand {
                displacement,
                base: 5,
            };
            all.push(X86Instr::Store {
                size,
                from: 1,
                memory,
            })?;
        }
    }
    Ok(())
}

fn push_locked(all: &mut Vec<X86Instr>) -> Result<(), AllocError> {
    for size in SIZES {
        all.push(X86Instr::Xchg {
            size,
            with: 1,
            memory: AT_RBP,
        })?;
        all.push(X86Instr::LockXadd {
            size,
            with: 1,
            memory: AT_RBP,
        })?;
        all.push(X86Instr::LockCmpxchg {
            size,
            from: 1,
            memory: AT_RBP,
        })?;
    }
    all.push(X86Instr::LockCmpxchg16b { memory: AT_RBP })?;
    all.push(X86Instr::Mfence)?;
    Ok(())
}

/// Jumps, calls and what ends.
fn push_jumps(all: &mut Vec<X86Instr>) -> Result<(), AllocError> {
    for distance in [i32::MIN, -101, -100, -1, 1, i32::MAX] {
        all.push(X86Instr::Jmp { distance })?;
    }
    for condition in CONDITIONS {
        for distance in [-2, 2] {
            all.push(X86Instr::Jcc {
                condition,
                distance,
            })?;
        }
    }
    all.push(X86Instr::Call {
        routine: RoutineName::Load16,
        place: 7,
    })?;
    all.push(X86Instr::Ret)?;
    all.push(X86Instr::Syscall)?;
    all.push(X86Instr::Ud2)?;
    all.push(X86Instr::Nop)?;
    Ok(())
}

/// The instructions that rows name.
pub(crate) fn instructions(alloc: Global) -> Result<Vec<X86Instr>, AllocError> {
    let mut all = Vec::new(alloc);
    push_names(&mut all)?;
    push_registers(&mut all)?;
    push_numbers(&mut all)?;
    push_accesses(&mut all)?;
    push_locked(&mut all)?;
    push_jumps(&mut all)?;
    Ok(all)
}
