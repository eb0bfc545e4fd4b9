//! Orders, routines, and the list type.

use ax_rows::{Fault, ORDERS, order};
use ax_words::{Access, Items, Order, RoutineName, abi_number, from_abi, legal, merged};
use std::alloc::{AllocError, Global};

const ACCESSES: [(&str, Access); 6] = [
    ("load", Access::Load),
    ("store", Access::Store),
    ("fence", Access::Fence),
    ("rmw", Access::Rmw),
    ("success", Access::CmpSuccess),
    ("failure", Access::CmpFailure),
];

/// The orders that may stand in an access.
fn legal_in(alloc: Global, word: &str) -> Result<String, Fault> {
    let found = ACCESSES.iter().copied().find(|access| access.0 == word);
    let (_, access) = found.ok_or(Fault::Row)?;
    let mut out = String::new(alloc);
    for order in ORDERS {
        if legal(access, order) {
            if !out.is_empty() {
                out.push_str(" ")?;
            }
            out.push_str(order.word())?;
        }
    }
    Ok(out)
}

fn merged_word(success: Order, failure: Order) -> Result<&'static str, Fault> {
    if matches!(success, Order::Unordered) || matches!(failure, Order::Unordered) {
        return Err(Fault::Row);
    }
    Ok(merged(success, failure).word())
}

/// The numbers of the words as a list.
fn listed(alloc: Global, words: &[&str]) -> Result<String, Fault> {
    let mut numbers = Vec::new(alloc);
    for word in words {
        numbers.push(word.parse::<u64>()?)?;
    }
    let items = Items::of(numbers);
    let mut out = format!(in alloc; "{} items:", items.as_slice().len())?;
    for number in items.as_slice() {
        write!(out, " {number}")?;
    }
    Ok(out)
}

fn text(alloc: Global, word: Option<&str>) -> Result<String, AllocError> {
    String::from_str(alloc, word.unwrap_or("none"))
}

/// What the calls of orders, routines and lists answer.
pub(crate) fn answer(alloc: Global, words: &[&str]) -> Result<String, Fault> {
    match words {
        ["legal", access] => legal_in(alloc, access),
        ["merged", success, failure] => {
            let word = merged_word(order(success)?, order(failure)?)?;
            Ok(String::from_str(alloc, word)?)
        }
        ["abi_number", word] => Ok(abi_number(order(word)?).to_string(alloc)?),
        ["from_abi", n] => {
            let found = from_abi(n.parse::<u64>()?);
            Ok(text(alloc, found.map(|order| order.word()))?)
        }
        ["routine", name] => match RoutineName::named(name.as_bytes()) {
            Some(routine) => Ok(routine.number().to_string(alloc)?),
            None => Ok(text(alloc, None)?),
        },
        ["name", n] => {
            let found = RoutineName::of_number(n.parse::<u32>()?);
            Ok(text(alloc, found.map(|routine| routine.name()))?)
        }
        ["items", numbers @ ..] => listed(alloc, numbers),
        _ => Err(Fault::Row),
    }
}
