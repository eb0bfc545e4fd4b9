//! The instructions of an operation: its row of the mapping table.

ghost use Rattle.std.specs.Prelude.{◌≡◌, ◌≤◌, IsTrue, length, map};
ghost use Rattle.ax_words.specs.Routine.{name_of};
ghost use Rattle.ax_target.specs.Calls.{listed, routines_of, sized_names};
ghost use Rattle.ax_target.specs.Rows.{has_rows, row_of};

use crate::decision::Way;
use crate::target::Target;
use crate::{arm_rows, calls, rv_rows, x86_rows};
use arrayvec::ArrayVec;
use ax_words::{Mark, Op, Order, Width};

/// The memory, fence and call instructions of an operation that is lowered some way, in order, as
/// the mapping table has them. The order is one that the operation may have; that of a
/// compare-exchange is its two orders merged. The way is one that `decide` gives for the operation
/// and width at some alignment; for another way or order the row means nothing.
pub fn row(t: Target, op: Op, order: Order, width: Width, way: Way) -> ArrayVec<Mark, 6>
    ensures { result.items ≡ row_of t op order width way }
{
    match (way, t) {
        (Way::Sized, _) => calls::sized_row(op, width),
        (Way::Generic, _) => calls::generic_row(op),
        (Way::Inline, Target::X86 { .. }) => x86_rows::inline(op, order, width),
        (Way::CasLoop, Target::X86 { .. }) => x86_rows::compare_loop(width),
        (Way::Inline, Target::Arm { lse: false }) => arm_rows::inline(op, order, width),
        (Way::PairLoop, Target::Arm { lse: false }) => arm_rows::pair_loop(op, order, width),
        (Way::Inline, Target::Arm { lse: true }) => arm_rows::lse_row(op, order, width),
        (Way::CasLoop, Target::Arm { lse: true }) => arm_rows::compare_loop(order, width),
        (Way::Inline, Target::Rv { .. }) => rv_rows::inline(op, order, width),
        (Way::PairLoop, Target::Rv { .. }) => rv_rows::pair_loop(order, width),
        (Way::Masked, Target::Rv { .. }) => rv_rows::pair_loop(order, Width::W32),
        _ => ArrayVec::new(),
    }
}

/// Each operation has a row at each width, in each order that it may have. An unordered access has
/// the row of a monotonic one, and no row has more than three marks.
pub fn rows_hold()
    ensures whole { (t : Target) → IsTrue (has_rows t) }
    ensures unordered { (t : Target) (op : Op) (width : Width) (way : Way) → row_of t op Order.Unordered width way ≡ row_of t op Order.Monotonic width way }
    ensures short { (t : Target) (op : Op) (order : Order) (width : Width) (way : Way) → length (row_of t op order width way) ≤ 3 }
{}

/// The routines of a size have its number at the end of their names (GCC libatomic ABI).
pub fn calls_are_named()
    ensures { (width : Width) → map name_of (listed (routines_of width)) ≡ sized_names width }
{}
