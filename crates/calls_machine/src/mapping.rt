//! The mapping table: the way and the row of an operation.

use crate::spelling::push_mark;
use crate::targets::target;
use ax_rows::{Fault, ORDERS, operation, order};
use ax_target::{Op, Target, Way, decide, row};
use ax_words::{Order, Width};
use std::alloc::{AllocError, Global};

/// Alignments round those of the widths.
const ALIGNMENTS: [u64; 8] = [0, 1, 2, 4, 8, 16, 32, u64::MAX];

const WIDTHS: [Width; 5] = [Width::W8, Width::W16, Width::W32, Width::W64, Width::W128];

/// An operation in an order, on an object of a width.
#[derive(Clone, Copy)]
struct Access {
    target: Target,
    op: Op,
    order: Order,
    width: Width,
}

fn op(word: &str) -> Result<Op, Fault> {
    Ok(match word {
        "load" => Op::Load,
        "store" => Op::Store,
        "cmpxchg" => Op::Cmpxchg,
        "fence" => Op::Fence,
        _ => Op::Rmw(operation(word)?),
    })
}

/// The width of so many bits; a fence has none.
fn width(word: &str) -> Result<Width, Fault> {
    match word {
        "8" | "-" => Ok(Width::W8),
        "16" => Ok(Width::W16),
        "32" => Ok(Width::W32),
        "64" => Ok(Width::W64),
        "128" => Ok(Width::W128),
        _ => Err(Fault::Row),
    }
}

fn way_word(way: Way) -> &'static str {
    match way {
        Way::Inline => "inline",
        Way::CasLoop => "casloop",
        Way::PairLoop => "pairloop",
        Way::Masked => "masked",
        Way::Sized => "sized",
        Way::Generic => "generic",
    }
}

/// The way and the row of an access at an alignment.
fn at_alignment(alloc: Global, a: Access, align: u64) -> Result<String, AllocError> {
    let way = decide(a.target, a.op, a.width, align);
    let mut out = String::from_str(alloc, way_word(way))?;
    let marks = row(a.target, a.op, a.order, a.width, way);
    if marks.is_empty() {
        out.push_str(" none")?;
    }
    for (k, mark) in marks.as_slice().iter().enumerate() {
        out.push_str(if k == 0 { " " } else { "; " })?;
        push_mark(&mut out, *mark)?;
    }
    Ok(out)
}

/// The way and the row that an access has at each of the alignments from its width on, or at each
/// below it. A fence has no width.
fn at_each(alloc: Global, a: Access, is_aligned: bool) -> Result<String, Fault> {
    let bytes = a.width.bytes() as u64;
    let mut found: Option<String> = None;
    for align in ALIGNMENTS {
        if matches!(a.op, Op::Fence) || (bytes <= align) == is_aligned {
            let text = at_alignment(alloc, a, align)?;
            match &found {
                Some(first) if *first != text => {
                    return Ok(format!(in alloc; "{first} or {text}")?);
                }
                _ => found = Some(text),
            }
        }
    }
    found.ok_or(Fault::Row)
}

/// The way and the row of an operation, a width and an order at each alignment that is enough.
pub(crate) fn aligned(alloc: Global, name: &str, call: &[&str]) -> Result<String, Fault> {
    let [op_word, bits, order_word] = call else {
        return Err(Fault::Row);
    };
    let access = Access {
        target: target(name)?,
        op: op(op_word)?,
        order: order(order_word)?,
        width: width(bits)?,
    };
    at_each(alloc, access, true)
}

/// The way and the row of an operation in each order and at each width, where the alignment is less.
pub(crate) fn unaligned(alloc: Global, name: &str, op_word: &str) -> Result<String, Fault> {
    let (target, op) = (target(name)?, op(op_word)?);
    let mut found: Option<String> = None;
    for width in WIDTHS {
        for order in ORDERS {
            let access = Access {
                target,
                op,
                order,
                width,
            };
            let text = at_each(alloc, access, false)?;
            match &found {
                Some(first) if *first != text => {
                    return Ok(format!(in alloc; "{first} or {text}")?);
                }
                _ => found = Some(text),
            }
        }
    }
    found.ok_or(Fault::Row)
}
