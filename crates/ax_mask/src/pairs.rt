//! The order endings of a linked load and its pair store (RISC-V Unprivileged ISA, "Code porting and
//! mapping guidelines", table A.6).

ghost use Rattle.std.specs.Prelude.{◌≡◌};
ghost use Rattle.ax_mask.specs.Pairs.{link_ending, store_ending};

use ax_rv::Ending;
use ax_words::Order;

/// The order ending of a linked load.
pub fn link_ending(order: Order) -> Ending
    ensures { result ≡ link_ending order }
{
    match order {
        Order::Unordered | Order::Monotonic | Order::Release => Ending::Plain,
        Order::Acquire | Order::AcqRel => Ending::Acquire,
        Order::SeqCst => Ending::AcquireRelease,
    }
}

/// The order ending of its pair store.
pub fn store_ending(order: Order) -> Ending
    ensures { result ≡ store_ending order }
{
    match order {
        Order::Unordered | Order::Monotonic | Order::Acquire => Ending::Plain,
        Order::Release | Order::AcqRel | Order::SeqCst => Ending::Release,
    }
}
