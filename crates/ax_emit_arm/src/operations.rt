//! What makes the code of atomic operations on registers.

ghost use Rattle.std.specs.Prelude.{◌≡◌, ◌++◌, Bool, OnOk};
ghost use Rattle.ax_emit_arm.specs.Code.{Expansion};
ghost use Rattle.ax_words.specs.declared.mark.Op.{Op};
ghost use Rattle.ax_words.specs.declared.order.Order.{Order};
ghost use Rattle.ax_words.specs.declared.width.Width.{Width};

use ax_arm::ArmInstr;
use ax_tags::Tag;
use ax_words::{Op, Order, Width};
use std::alloc::AllocError;

/// How atomic operations are done on registers: the address in register 1, what an operation takes
/// in registers 2 to 5, and what it gives in registers 6 to 8.
pub trait OperationEmitter {
    /// The code of each operation.
    ghost expansions: { Self → Op → Width → Order → Bool → Expansion };

    /// Appends the code of an operation that begins at `start`, with its marks. The only error is
    /// memory.
    fn push_operation(
        &self,
        op: Op,
        width: Width,
        order: Order,
        weak: bool,
        start: u32,
        out: &mut Vec<(ArmInstr, Tag)>,
    ) -> Result<(), AllocError>
        ensures { OnOk result (out.new.items ≡ out.old.items ++ (expansions self.now op width order weak).piece start) };
}
