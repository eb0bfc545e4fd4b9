//! The lines of the mapping table.

ghost use Rattle.std.specs.Prelude.{◌≡◌, ◌++◌, codes, flat_map, IfOk, OnOk, string_bytes};
ghost use Rattle.ax_words.specs.Width.{bytes_of};
ghost use Rattle.ax_target.specs.Decisions.{decided};
ghost use Rattle.ax_target.specs.Rows.{access_of};
ghost use Rattle.ax_table.specs.MapText.{is_fence, line_if_legal, lines_of_op, lines_of_width, map_text, op_word, row_text, way_word, width_word};

use crate::marks::push_mark;
use ax_target::{Target, Way, decide, row};
use ax_words::{Access, Mark, Op, Order, RmwOp, Width, legal};
use std::alloc::{AllocError, Global};

/// Loads, stores, compare-exchanges, the read-modify-writes as LLVM lists them, and fences.
const OPERATIONS: [Op; 15] = [
    Op::Load,
    Op::Store,
    Op::Cmpxchg,
    Op::Rmw(RmwOp::Xchg),
    Op::Rmw(RmwOp::Add),
    Op::Rmw(RmwOp::Sub),
    Op::Rmw(RmwOp::And),
    Op::Rmw(RmwOp::Nand),
    Op::Rmw(RmwOp::Or),
    Op::Rmw(RmwOp::Xor),
    Op::Rmw(RmwOp::Max),
    Op::Rmw(RmwOp::Min),
    Op::Rmw(RmwOp::UMax),
    Op::Rmw(RmwOp::UMin),
    Op::Fence,
];

/// The mapping table of a target: for each operation, width and legal order, with the alignment of
/// the width's bytes, a line with the way and the row, `OP WIDTH ORDER WAY ROW`. The only error is
/// that memory fails.
pub fn map_text(alloc: Global, t: Target) -> Result<String, AllocError>
    ensures { IfOk result (λ text. string_bytes text ≡ map_text t) }
{
    let mut text = String::new(alloc);
    push_ops(&mut text, t, &OPERATIONS)?;
    Ok(text)
}

fn push_ops(text: &mut String, t: Target, ops: &[Op]) -> Result<(), AllocError>
    ensures { OnOk result (string_bytes text.new ≡ string_bytes text.old ++ flat_map (lines_of_op t) ops.now) }
{
    for op in ops {
        push_op(text, t, *op)?;
    }
    Ok(())
}

#[tactic(auto, unfolding(crate::specs::MapText::lines_of_op))]
fn push_op(text: &mut String, t: Target, op: Op) -> Result<(), AllocError>
    ensures { OnOk result (string_bytes text.new ≡ string_bytes text.old ++ lines_of_op t op) }
{
    if is_fence(op) {
        return push_width(text, t, op, Width::W8);
    }
    for width in [Width::W8, Width::W16, Width::W32, Width::W64, Width::W128] {
        push_width(text, t, op, width)?;
    }
    Ok(())
}

fn is_fence(op: Op) -> bool
    ensures { result ≡ is_fence op }
{
    matches!(op, Op::Fence)
}

#[tactic(auto, unfolding(crate::specs::MapText::lines_of_width))]
fn push_width(text: &mut String, t: Target, op: Op, width: Width) -> Result<(), AllocError>
    ensures { OnOk result (string_bytes text.new ≡ string_bytes text.old ++ lines_of_width t op width) }
{
    let way = decide(t, op, width, width.bytes() as u64);
    for order in [
        Order::Unordered,
        Order::Monotonic,
        Order::Acquire,
        Order::Release,
        Order::AcqRel,
        Order::SeqCst,
    ] {
        push_line(text, t, op, width, order, way)?;
    }
    Ok(())
}

/// Appends the line of an order, where the operation may have it.
fn push_line(
    text: &mut String,
    t: Target,
    op: Op,
    width: Width,
    order: Order,
    way: Way,
) -> Result<(), AllocError>
    ensures { OnOk result (string_bytes text.new ≡ string_bytes text.old ++ line_if_legal t op width way order) }
{
    if !legal(access(op), order) {
        return Ok(());
    }
    let op_word = op_word(op);
    let width_word = width_word(op, width);
    let order_word = order.word();
    let way_word = way_word(way);
    write!(text, "{op_word} {width_word} {order_word} {way_word} ")?;
    push_row(text, row(t, op, order, width, way).as_slice())?;
    write!(text, "\n")
}

fn push_row(text: &mut String, marks: &[Mark]) -> Result<(), AllocError>
    ensures { OnOk result (string_bytes text.new ≡ string_bytes text.old ++ row_text marks.now) }
{
    let Some((first, rest)) = marks.split_first() else {
        return write!(text, "none");
    };
    push_mark(text, *first)?;
    for mark in rest {
        write!(text, "; ")?;
        push_mark(text, *mark)?;
    }
    Ok(())
}

/// Where the orders of an operation stand.
fn access(op: Op) -> Access
    ensures { result ≡ access_of op }
{
    match op {
        Op::Load => Access::Load,
        Op::Store => Access::Store,
        Op::Cmpxchg => Access::CmpSuccess,
        Op::Rmw(_) => Access::Rmw,
        Op::Fence => Access::Fence,
    }
}

fn op_word(op: Op) -> &'static str
    ensures { result.now ≡ op_word op }
{
    match op {
        Op::Load => "load",
        Op::Store => "store",
        Op::Cmpxchg => "cmpxchg",
        Op::Rmw(operation) => operation.word(),
        Op::Fence => "fence",
    }
}

fn width_word(op: Op, width: Width) -> &'static str
    ensures { result.now ≡ width_word op width }
{
    match (op, width) {
        (Op::Fence, _) => "-",
        (_, Width::W8) => "8",
        (_, Width::W16) => "16",
        (_, Width::W32) => "32",
        (_, Width::W64) => "64",
        (_, Width::W128) => "128",
    }
}

fn way_word(way: Way) -> &'static str
    ensures { result.now ≡ way_word way }
{
    match way {
        Way::Inline => "inline",
        Way::CasLoop => "casloop",
        Way::PairLoop => "pairloop",
        Way::Masked => "masked",
        Way::Sized => "sized",
        Way::Generic => "generic",
    }
}
