//! The columns of the mapping table as instructions (RISC-V Unprivileged ISA, "Code porting and
//! mapping guidelines", table A.6).

ghost use Rattle.std.specs.Prelude.{◌≡◌, option_to_list};
ghost use Rattle.ax_words.specs.Width.{bytes_of};
ghost use Rattle.ax_emit_rv.specs.Code as emission;
ghost use Rattle.ax_llsc.specs.Loops.{size_of};
ghost use Rattle.ax_llsc.specs.Codes.{amo_of, before_load, before_store, behind_load, ending_of, fence_instr, operand_of};

use ax_rv::{Amo, Ending, FenceSets, LoadForm, RvInstr, Size, StoreForm};
use ax_words::{Order, RmwOp, Width};

// The registers of an operation: its address, what it takes, what it gives, and one that is free.
pub(crate) const ADDRESS: u8 = 10;

pub(crate) const NUMBER: u8 = 11;

pub(crate) const RESULT: u8 = 15;

pub(crate) const FREE: u8 = 5;

/// The fence before a load.
pub(crate) fn before_load(order: Order) -> Option<FenceSets>
    ensures { option_to_list result ≡ before_load order }
{
    match order {
        Order::Unordered | Order::Monotonic | Order::Acquire => None,
        Order::Release | Order::AcqRel => None,
        Order::SeqCst => Some(FenceSets::AllBeforeAll),
    }
}

/// The fence behind a load.
pub(crate) fn behind_load(order: Order) -> Option<FenceSets>
    ensures { option_to_list result ≡ behind_load order }
{
    match order {
        Order::Unordered | Order::Monotonic | Order::Release | Order::AcqRel => None,
        Order::Acquire | Order::SeqCst => Some(FenceSets::ReadBeforeAll),
    }
}

/// The fence before a store.
pub(crate) fn before_store(order: Order) -> Option<FenceSets>
    ensures { option_to_list result ≡ before_store order }
{
    match order {
        Order::Unordered | Order::Monotonic | Order::Acquire | Order::AcqRel => None,
        Order::Release | Order::SeqCst => Some(FenceSets::AllBeforeWrite),
    }
}

/// The instruction of a fence.
pub(crate) fn fence_instr(order: Order) -> RvInstr
    ensures { result ≡ fence_instr order }
{
    match order {
        Order::Unordered | Order::Monotonic => RvInstr::Nop,
        Order::Acquire => RvInstr::Fence(FenceSets::ReadBeforeAll),
        Order::Release => RvInstr::Fence(FenceSets::AllBeforeWrite),
        Order::AcqRel => RvInstr::Fence(FenceSets::TotalStoreOrder),
        Order::SeqCst => RvInstr::Fence(FenceSets::AllBeforeAll),
    }
}

/// The order ending of a read-modify-write.
pub(crate) fn ending_of(order: Order) -> Ending
    ensures { result ≡ ending_of order }
{
    match order {
        Order::Unordered | Order::Monotonic => Ending::Plain,
        Order::Acquire => Ending::Acquire,
        Order::Release => Ending::Release,
        Order::AcqRel | Order::SeqCst => Ending::AcquireRelease,
    }
}

/// The instruction of a read-modify-write: a subtraction adds the number's negative; nand has none.
pub(crate) fn amo_of(op: RmwOp) -> Amo
    ensures { result ≡ amo_of op }
{
    match op {
        RmwOp::Xchg => Amo::Swap,
        RmwOp::Add | RmwOp::Sub => Amo::Add,
        RmwOp::And | RmwOp::Nand => Amo::And,
        RmwOp::Or => Amo::Or,
        RmwOp::Xor => Amo::Xor,
        RmwOp::Max => Amo::Max,
        RmwOp::Min => Amo::Min,
        RmwOp::UMax => Amo::MaxUnsigned,
        RmwOp::UMin => Amo::MinUnsigned,
    }
}

/// The register with its operand.
pub(crate) fn operand_of(op: RmwOp) -> u8
    ensures { result ≡ operand_of op }
{
    match op {
        RmwOp::Sub => 5,
        _ => 11,
    }
}

/// The size of its object.
pub(crate) fn size_of(width: Width) -> Size
    ensures { result ≡ size_of width }
{
    match width {
        Width::W32 => Size::Word,
        _ => Size::Double,
    }
}

pub(crate) fn load_form(width: Width) -> LoadForm
    ensures { result ≡ emission.load_form (bytes_of width) }
{
    match width {
        Width::W8 => LoadForm::Byte,
        Width::W16 => LoadForm::Half,
        Width::W32 => LoadForm::Word,
        Width::W64 | Width::W128 => LoadForm::Double,
    }
}

pub(crate) fn store_form(width: Width) -> StoreForm
    ensures { result ≡ emission.store_form (bytes_of width) }
{
    match width {
        Width::W8 => StoreForm::Byte,
        Width::W16 => StoreForm::Half,
        Width::W32 => StoreForm::Word,
        Width::W64 | Width::W128 => StoreForm::Double,
    }
}
