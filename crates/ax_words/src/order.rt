//! The memory orders of LLVM's atomic instructions and their numbers in library calls.

ghost use Rattle.std.specs.Prelude.{◌≡◌, ◌≢◌, ◌≤◌, ◌↔◌, IsSome, IfSome, Some};
ghost use Rattle.ax_words.specs.Orders.{IsJoin, merged_order, is_legal, abi_of, order_of_abi, order_word};

/// A memory order (LLVM Language Reference, "Atomic Memory Ordering Constraints").
#[derive(Clone, Copy)]
pub enum Order {
    Unordered,
    Monotonic,
    Acquire,
    Release,
    AcqRel,
    SeqCst,
}

impl Order {
    /// The order's word in LLVM's text.
    pub fn word(self) -> &'static str
        ensures { result.now ≡ order_word self }
    {
        match self {
            Order::Unordered => "unordered",
            Order::Monotonic => "monotonic",
            Order::Acquire => "acquire",
            Order::Release => "release",
            Order::AcqRel => "acq_rel",
            Order::SeqCst => "seq_cst",
        }
    }
}

/// Where an order stands: in a load, a store, a fence, a read-modify-write, or as one of the two
/// orders of a compare-exchange.
#[derive(Clone, Copy)]
pub enum Access {
    Load,
    Store,
    Fence,
    Rmw,
    CmpSuccess,
    CmpFailure,
}

/// Whether the order may stand there (LLVM Language Reference, `load`, `store`, `fence`,
/// `atomicrmw` and `cmpxchg`).
pub fn legal(access: Access, order: Order) -> bool
    ensures { result ≡ is_legal access order }
{
    match access {
        Access::Load => !matches!(order, Order::Release | Order::AcqRel),
        Access::Store => !matches!(order, Order::Acquire | Order::AcqRel),
        Access::Fence => !matches!(order, Order::Unordered | Order::Monotonic),
        Access::Rmw | Access::CmpSuccess => !matches!(order, Order::Unordered),
        Access::CmpFailure => { matches!(order, Order::Monotonic | Order::Acquire | Order::SeqCst) }
    }
}

/// The order of a compare-exchange as one step: the weakest that is at least both of its orders.
pub fn merged(success: Order, failure: Order) -> Order
    requires success { success ≢ Order.Unordered }
    requires failure { failure ≢ Order.Unordered }
    ensures least { IsJoin success failure result }
    ensures value { result ≡ merged_order success failure }
{
    match (success, failure) {
        (Order::SeqCst, _) | (_, Order::SeqCst) => Order::SeqCst,
        (Order::Acquire, Order::Release) | (Order::Release, Order::Acquire) => Order::AcqRel,
        (Order::AcqRel, _) | (_, Order::AcqRel) => Order::AcqRel,
        (Order::Monotonic, other) | (other, _) => other,
    }
}

/// The number that stands for the order in a call of libatomic (GCC libatomic ABI).
pub fn abi_number(order: Order) -> u64
    ensures { result ≡ abi_of order }
{
    match order {
        Order::Unordered | Order::Monotonic => 0,
        Order::Acquire => 2,
        Order::Release => 3,
        Order::AcqRel => 4,
        Order::SeqCst => 5,
    }
}

/// The order that a number stands for in a call of libatomic. Consume, number 1, is taken as
/// acquire. None exactly where `n` is above 5.
pub fn from_abi(n: u64) -> Option<Order>
    ensures some { IsSome result ↔ (n ≤ 5) }
    ensures consume { n ≡ 1 → result ≡ Some Order.Acquire }
    ensures number { n ≢ 1 → IfSome result (λ order. abi_of order ≡ n) }
    ensures ordered { result ≢ Some Order.Unordered }
    ensures value { result ≡ order_of_abi n }
{
    match n {
        0 => Some(Order::Monotonic),
        1 | 2 => Some(Order::Acquire),
        3 => Some(Order::Release),
        4 => Some(Order::AcqRel),
        5 => Some(Order::SeqCst),
        _ => None,
    }
}
