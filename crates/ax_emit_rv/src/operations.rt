//! What makes the code of atomic operations on registers.

ghost use Rattle.std.specs.Prelude.{◌≡◌, ◌++◌, Bool, OnOk};
ghost use Rattle.ax_emit_rv.specs.Code.{Expansion};
ghost use Rattle.ax_words.specs.declared.mark.Op.{Op};
ghost use Rattle.ax_words.specs.declared.order.Order.{Order};
ghost use Rattle.ax_words.specs.declared.width.Width.{Width};

use ax_rv::RvInstr;
use ax_tags::Tag;
use ax_words::{Op, Order, Width};
use std::alloc::AllocError;

/// How atomic operations are done on registers: the address in register 10, what an operation takes
/// in registers 11 to 14, and what it gives in registers 15 to 17.
pub trait OperationEmitter {
    /// The code of each operation.
    ghost expansions: { Self → Op → Width → Order → Bool → Expansion };

    /// Appends the code of an operation that begins at `start`, with its marks. The only error is
    /// memory.
    fn push_operation(
        &self,
        op: Op,
        width: Width,
        order: Order,
        weak: bool,
        start: u32,
        out: &mut Vec<(RvInstr, Tag)>,
    ) -> Result<(), AllocError>
        ensures { OnOk result (out.new.items ≡ out.old.items ++ (expansions self.now op width order weak).piece start) };
}
