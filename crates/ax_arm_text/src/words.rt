//! The words of which mnemonics are made.

ghost use Rattle.std.specs.Prelude.{◌≡◌};
ghost use Rattle.ax_arm_text.specs.Words.{alu_text, barrier_text, condition_text, ending_text, extension_text, lse_text, shift_text, size_text};

use ax_arm::{Alu, Barrier, Condition, Ending, Extension, Lse, Shift, Size};

/// The mnemonic of an operation on two registers.
pub(crate) fn alu_word(op: Alu) -> &'static str
    ensures { result.now ≡ alu_text op }
{
    match op {
        Alu::Add => "add",
        Alu::Sub => "sub",
        Alu::And => "and",
        Alu::Orr => "orr",
        Alu::Eor => "eor",
        Alu::Mul => "mul",
    }
}

/// The mnemonic of a shift.
pub(crate) fn shift_word(op: Shift) -> &'static str
    ensures { result.now ≡ shift_text op }
{
    match op {
        Shift::Lsl => "lsl",
        Shift::Lsr => "lsr",
        Shift::Asr => "asr",
    }
}

/// The mnemonic of an extension.
pub(crate) fn extension_word(op: Extension) -> &'static str
    ensures { result.now ≡ extension_text op }
{
    match op {
        Extension::Uxtb => "uxtb",
        Extension::Uxth => "uxth",
        Extension::Sxtb => "sxtb",
        Extension::Sxth => "sxth",
        Extension::Sxtw => "sxtw",
    }
}

/// A condition.
pub(crate) fn condition_word(condition: Condition) -> &'static str
    ensures { result.now ≡ condition_text condition }
{
    match condition {
        Condition::Eq => "eq",
        Condition::Ne => "ne",
        Condition::Lo => "lo",
        Condition::Hs => "hs",
        Condition::Ls => "ls",
        Condition::Hi => "hi",
        Condition::Lt => "lt",
        Condition::Ge => "ge",
        Condition::Le => "le",
        Condition::Gt => "gt",
    }
}

/// The letter of an access of fewer bytes than a register has.
pub(crate) fn size_word(size: Size) -> &'static str
    ensures { result.now ≡ size_text size }
{
    match size {
        Size::Byte => "b",
        Size::Half => "h",
        Size::Word | Size::Double => "",
    }
}

/// The order ending of an LSE instruction.
pub(crate) fn ending_word(ending: Ending) -> &'static str
    ensures { result.now ≡ ending_text ending }
{
    match ending {
        Ending::Plain => "",
        Ending::Acquire => "a",
        Ending::Release => "l",
        Ending::AcquireRelease => "al",
    }
}

/// The first part of an LSE mnemonic.
pub(crate) fn lse_word(op: Lse) -> &'static str
    ensures { result.now ≡ lse_text op }
{
    match op {
        Lse::Swp => "swp",
        Lse::Ldadd => "ldadd",
        Lse::Ldclr => "ldclr",
        Lse::Ldset => "ldset",
        Lse::Ldeor => "ldeor",
        Lse::Ldsmax => "ldsmax",
        Lse::Ldsmin => "ldsmin",
        Lse::Ldumax => "ldumax",
        Lse::Ldumin => "ldumin",
    }
}

/// What a `dmb` orders.
pub(crate) fn barrier_word(barrier: Barrier) -> &'static str
    ensures { result.now ≡ barrier_text barrier }
{
    match barrier {
        Barrier::Ish => "ish",
        Barrier::Ishld => "ishld",
    }
}
