//! The words of RV64 instructions.

ghost use Rattle.std.specs.Prelude.{◌≡◌};
ghost use Rattle.ax_rv_text.specs.Words.{unary_word, binary_word, shift_word, immediate_word, load_word, store_word, size_word, ending_word, amo_word, fence_word, condition_word};

use ax_rv::{
    Amo, Binary, Condition, Ending, FenceSets, Immediate, LoadForm, Shift, Size, StoreForm, Unary,
};

pub(crate) fn unary_word(op: Unary) -> &'static str
    ensures { result.now ≡ unary_word op }
{
    match op {
        Unary::Move => "mv",
        Unary::Negate => "neg",
        Unary::Not => "not",
        Unary::SignExtendWord => "sext.w",
        Unary::IsZero => "seqz",
        Unary::IsNotZero => "snez",
    }
}

pub(crate) fn binary_word(op: Binary) -> &'static str
    ensures { result.now ≡ binary_word op }
{
    match op {
        Binary::Add => "add",
        Binary::Subtract => "sub",
        Binary::And => "and",
        Binary::Or => "or",
        Binary::Xor => "xor",
        Binary::Multiply => "mul",
        Binary::ShiftLeft => "sll",
        Binary::ShiftRight => "srl",
        Binary::ShiftRightSigned => "sra",
        Binary::IsLess => "slt",
        Binary::IsBelow => "sltu",
    }
}

pub(crate) fn shift_word(op: Shift) -> &'static str
    ensures { result.now ≡ shift_word op }
{
    match op {
        Shift::Left => "slli",
        Shift::Right => "srli",
        Shift::RightSigned => "srai",
    }
}

pub(crate) fn immediate_word(op: Immediate) -> &'static str
    ensures { result.now ≡ immediate_word op }
{
    match op {
        Immediate::And => "andi",
        Immediate::Add => "addi",
    }
}

pub(crate) fn load_word(form: LoadForm) -> &'static str
    ensures { result.now ≡ load_word form }
{
    match form {
        LoadForm::Byte => "lbu",
        LoadForm::Half => "lhu",
        LoadForm::Word => "lw",
        LoadForm::Double => "ld",
    }
}

pub(crate) fn store_word(form: StoreForm) -> &'static str
    ensures { result.now ≡ store_word form }
{
    match form {
        StoreForm::Byte => "sb",
        StoreForm::Half => "sh",
        StoreForm::Word => "sw",
        StoreForm::Double => "sd",
    }
}

pub(crate) fn size_word(size: Size) -> &'static str
    ensures { result.now ≡ size_word size }
{
    match size {
        Size::Word => ".w",
        Size::Double => ".d",
    }
}

pub(crate) fn ending_word(ending: Ending) -> &'static str
    ensures { result.now ≡ ending_word ending }
{
    match ending {
        Ending::Plain => "",
        Ending::Acquire => ".aq",
        Ending::Release => ".rl",
        Ending::AcquireRelease => ".aqrl",
    }
}

pub(crate) fn amo_word(op: Amo) -> &'static str
    ensures { result.now ≡ amo_word op }
{
    match op {
        Amo::Swap => "amoswap",
        Amo::Add => "amoadd",
        Amo::And => "amoand",
        Amo::Or => "amoor",
        Amo::Xor => "amoxor",
        Amo::Max => "amomax",
        Amo::Min => "amomin",
        Amo::MaxUnsigned => "amomaxu",
        Amo::MinUnsigned => "amominu",
    }
}

pub(crate) fn fence_word(sets: FenceSets) -> &'static str
    ensures { result.now ≡ fence_word sets }
{
    match sets {
        FenceSets::ReadBeforeAll => "fence r, rw",
        FenceSets::AllBeforeWrite => "fence rw, w",
        FenceSets::AllBeforeAll => "fence rw, rw",
        FenceSets::TotalStoreOrder => "fence.tso",
    }
}

pub(crate) fn condition_word(condition: Condition) -> &'static str
    ensures { result.now ≡ condition_word condition }
{
    match condition {
        Condition::Equal => "beq",
        Condition::NotEqual => "bne",
        Condition::Less => "blt",
        Condition::GreaterEqual => "bge",
        Condition::Below => "bltu",
        Condition::AboveEqual => "bgeu",
    }
}
