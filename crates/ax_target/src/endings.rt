//! Orders as they show in instructions.

ghost use Rattle.std.specs.Prelude.{◌≡◌, ◌≤◌, length};
ghost use Rattle.ax_words.specs.Width.{bytes_of};
ghost use Rattle.ax_target.specs.Endings.{acquires as acquires_of, endings, releases as releases_of, with_ending};

use arrayvec::ArrayVec;
use ax_words::{Mark, MarkCode, Order, Width};

/// The codes of an instruction whose name ends in its order.
#[derive(Clone, Copy)]
pub(crate) struct Codes {
    pub(crate) plain: MarkCode,
    pub(crate) acquire: MarkCode,
    pub(crate) release: MarkCode,
    pub(crate) both: MarkCode,
}

impl Codes {
    pub(crate) fn of(plain: MarkCode, acquire: MarkCode, release: MarkCode, both: MarkCode) -> Codes
        ensures { result ≡ endings plain acquire release both }
    {
        Codes {
            plain,
            acquire,
            release,
            both,
        }
    }

    /// The code with an order's ending.
    pub(crate) fn with(self, order: Order) -> MarkCode
        ensures { result ≡ with_ending order self }
    {
        match order {
            Order::Unordered | Order::Monotonic => self.plain,
            Order::Acquire => self.acquire,
            Order::Release => self.release,
            Order::AcqRel | Order::SeqCst => self.both,
        }
    }
}

pub(crate) fn acquires(order: Order) -> bool
    ensures { result ≡ acquires_of order }
{
    matches!(order, Order::Acquire | Order::AcqRel | Order::SeqCst)
}

pub(crate) fn releases(order: Order) -> bool
    ensures { result ≡ releases_of order }
{
    matches!(order, Order::Release | Order::AcqRel | Order::SeqCst)
}

/// The mark of an access to an object of a width.
pub(crate) fn access(code: MarkCode, width: Width) -> Mark
    ensures { result ≡ Mark.Memory code (bytes_of width) }
{
    Mark::Memory {
        code,
        bytes: width.bytes() as u8,
    }
}

pub(crate) fn row_from(marks: &[Mark]) -> ArrayVec<Mark, 6>
    requires { length marks.now ≤ 6 }
    ensures { result.items ≡ marks.now }
{
    let mut row = ArrayVec::new();
    for mark in marks {
        row.push(*mark);
    }
    row
}
