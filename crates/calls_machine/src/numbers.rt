//! The arithmetic of the source machine's numbers.

ghost use Rattle.std.specs.Prelude.{◌≤◌, IfOk};

use ax_module::{BinOp, Cast, Pred, Ty};
use ax_rows::{Fault, number, operation};
use ax_values::{bits, compare, compute, convert, index, update, wrapped};
use std::alloc::Global;

const BINARIES: [BinOp; 9] = [
    BinOp::Add,
    BinOp::Sub,
    BinOp::Mul,
    BinOp::And,
    BinOp::Or,
    BinOp::Xor,
    BinOp::Shl,
    BinOp::Lshr,
    BinOp::Ashr,
];

const CONDITIONS: [Pred; 10] = [
    Pred::Eq,
    Pred::Ne,
    Pred::Ugt,
    Pred::Uge,
    Pred::Ult,
    Pred::Ule,
    Pred::Sgt,
    Pred::Sge,
    Pred::Slt,
    Pred::Sle,
];

const CASTS: [Cast; 3] = [Cast::Zext, Cast::Sext, Cast::Trunc];

/// A number of bits.
fn bits_in(word: &str) -> Result<u32, Fault>
    ensures { IfOk result (λ n. n ≤ 128) }
{
    let bits = word.parse::<u32>()?;
    if bits <= 128 {
        Ok(bits)
    } else {
        Err(Fault::Row)
    }
}

fn computed(op: &str, n: u32, a: u128, b: u128) -> Result<u128, Fault>
    requires { n ≤ 128 }
{
    let found = BINARIES.iter().copied().find(|binary| binary.word() == op);
    Ok(compute(found.ok_or(Fault::Row)?, n, a, b))
}

fn compared(condition: &str, n: u32, a: u128, b: u128) -> Result<bool, Fault>
    requires { n ≤ 128 }
{
    let found = CONDITIONS
        .iter()
        .copied()
        .find(|pred| pred.word() == condition);
    Ok(compare(found.ok_or(Fault::Row)?, n, a, b))
}

fn converted(cast: &str, from: u32, to: u32, a: u128) -> Result<u128, Fault>
    requires from { from ≤ 128 }
    requires to { to ≤ 128 }
{
    let found = CASTS.iter().copied().find(|c| c.word() == cast);
    Ok(convert(found.ok_or(Fault::Row)?, from, to, a))
}

fn indexed(n: u32, a: u128) -> Result<u128, Fault> {
    let ty = Ty::of_bits(n);
    if bits(ty) <= 128 {
        Ok(index(ty, a))
    } else {
        Err(Fault::Row)
    }
}

/// What the calls of numbers answer.
pub(crate) fn answer(alloc: Global, words: &[&str]) -> Result<String, Fault> {
    let found = match words {
        ["compute", op, n, a, b] => computed(op, bits_in(n)?, number(a)?, number(b)?)?,
        ["update", op, n, old, v] => {
            update(bits_in(n)?, operation(op)?, number(old)?, number(v)?)
        }
        ["compare", condition, n, a, b] => {
            let holds = compared(condition, bits_in(n)?, number(a)?, number(b)?)?;
            return Ok(holds.to_string(alloc)?);
        }
        ["convert", cast, from, to, a] => {
            converted(cast, bits_in(from)?, bits_in(to)?, number(a)?)?
        }
        ["wrapped", n, a] => wrapped(bits_in(n)?, a.parse::<i128>()?),
        ["index", n, a] => indexed(bits_in(n)?, number(a)?)?,
        _ => return Err(Fault::Row),
    };
    Ok(format!(in alloc; "{found:#x}")?)
}
