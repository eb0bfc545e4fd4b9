//! When conditions hold.

ghost use Rattle.std.specs.Prelude.{◌≡◌};
ghost use Rattle.ax_x86.specs.Conditions.{holds};

use crate::instructions::Condition;
use ax_isa::signed;

/// Whether a condition holds of the pair last compared.
pub(crate) fn holds(condition: Condition, compared: (u64, u64)) -> bool
    ensures { result ≡ holds condition compared.0 compared.1 }
{
    let (left, right) = compared;
    match condition {
        Condition::Equal => left == right,
        Condition::NotEqual => left != right,
        Condition::Below => left < right,
        Condition::AboveOrEqual => left >= right,
        Condition::BelowOrEqual => left <= right,
        Condition::Above => left > right,
        Condition::Less => signed(left) < signed(right),
        Condition::GreaterOrEqual => !(signed(left) < signed(right)),
        Condition::LessOrEqual => !(signed(right) < signed(left)),
        Condition::Greater => signed(right) < signed(left),
    }
}
