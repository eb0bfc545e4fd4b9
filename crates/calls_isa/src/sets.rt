//! The three instruction sets.

use crate::spelled::{instruction_of, listed};
use ax_arm::Arm;
use ax_isa::{Cpu, Effect, Isa};
use ax_rows::Fault;
use ax_rv::Rv64;
use ax_x86::X86;
use std::alloc::{AllocError, Global};

/// An instruction set.
#[derive(Clone, Copy)]
pub(crate) enum Set {
    Rv,
    X86,
    Arm,
}

/// The set of a word.
pub(crate) fn set_of(word: &str) -> Result<Set, Fault> {
    match word {
        "rv" => Ok(Set::Rv),
        "x86" => Ok(Set::X86),
        "arm" => Ok(Set::Arm),
        _ => Err(Fault::Row),
    }
}

/// Whether stores wait in buffers.
pub(crate) fn is_buffered(set: Set) -> bool {
    match set {
        Set::Rv => Rv64::BUFFERED,
        Set::X86 => X86::BUFFERED,
        Set::Arm => Arm::BUFFERED,
    }
}

/// The effect of the instruction that is spelled so.
pub(crate) fn effect_of(
    alloc: Global,
    set: Set,
    spelling: &str,
    cpu: &Cpu,
) -> Result<Effect, Fault> {
    match set {
        Set::Rv => {
            let all = crate::rv::instructions(alloc)?;
            Ok(Rv64::effect(instruction_of(alloc, all.as_slice(), spelling)?, cpu))
        }
        Set::X86 => {
            let all = crate::x86::instructions(alloc)?;
            Ok(X86::effect(instruction_of(alloc, all.as_slice(), spelling)?, cpu))
        }
        Set::Arm => {
            let all = crate::arm::instructions(alloc)?;
            Ok(Arm::effect(instruction_of(alloc, all.as_slice(), spelling)?, cpu))
        }
    }
}

/// The spellings of a set's instructions.
pub(crate) fn spellings(alloc: Global, set: Set) -> Result<String, AllocError> {
    match set {
        Set::Rv => {
            let all = crate::rv::instructions(alloc)?;
            listed(alloc, all.as_slice())
        }
        Set::X86 => {
            let all = crate::x86::instructions(alloc)?;
            listed(alloc, all.as_slice())
        }
        Set::Arm => {
            let all = crate::arm::instructions(alloc)?;
            listed(alloc, all.as_slice())
        }
    }
}
