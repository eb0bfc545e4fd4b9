//! The code of an operation on an object of 1 or 2 bytes.

ghost use Rattle.std.specs.Prelude.{◌≡◌, ◌++◌, OnOk};
ghost use Rattle.ax_mask.specs.Codes.{is_narrow, masked_code};

use crate::exchange::push_exchange;
use crate::updates::push_update;
use ax_emit_rv::Piece;
use ax_words::{Op, Order, Width};
use std::alloc::AllocError;

/// Is an object narrower than the word of a linked load, so that its code is masked?
pub fn is_narrow(width: Width) -> bool
    ensures { result ≡ is_narrow width }
{
    match width {
        Width::W8 | Width::W16 => true,
        _ => false,
    }
}

/// Appends the code of an operation on an object of 1 or 2 bytes, for RV64's way Masked: a loop of a
/// linked load and a pair store of the aligned word of 4 bytes that holds the object (RISC-V
/// Unprivileged ISA: A extension, "Load-Reserved/Store-Conditional Instructions"). The object's
/// address is in register 10, what the operation takes in 11 and 12, what it gives in 15 and 16,
/// extended by zeros. Of operations that don't both read and write nothing is appended. The only error
/// is memory.
pub fn push_masked(
    op: Op,
    width: Width,
    order: Order,
    weak: bool,
    out: &mut Piece,
) -> Result<(), AllocError>
    ensures { OnOk result (out.new.items ≡ out.old.items ++ masked_code op width order weak) }
{
    match op {
        Op::Cmpxchg => push_exchange(out, width, order, weak),
        Op::Rmw(op) => push_update(out, op, width, order),
        _ => Ok(()),
    }
}
