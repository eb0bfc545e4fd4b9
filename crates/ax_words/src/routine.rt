//! The names of libatomic's routines.

ghost use Rattle.std.specs.Prelude.{◌≡◌, ◌<◌, ◌↔◌, IsSome, IfSome, slice_get};
ghost use Rattle.ax_words.specs.declared.routine.RoutineName.{RoutineName};
ghost use Rattle.ax_words.specs.Routine.{all_routines, name_of, number_of, routine_named};

/// A routine of libatomic (GCC libatomic ABI): for each size the ten calls of that size, and then
/// the calls that take the size as an argument.
#[derive(Clone, Copy)]
pub enum RoutineName {
    Load1,
    Store1,
    Exchange1,
    CompareExchange1,
    FetchAdd1,
    FetchSub1,
    FetchAnd1,
    FetchOr1,
    FetchXor1,
    FetchNand1,
    Load2,
    Store2,
    Exchange2,
    CompareExchange2,
    FetchAdd2,
    FetchSub2,
    FetchAnd2,
    FetchOr2,
    FetchXor2,
    FetchNand2,
    Load4,
    Store4,
    Exchange4,
    CompareExchange4,
    FetchAdd4,
    FetchSub4,
    FetchAnd4,
    FetchOr4,
    FetchXor4,
    FetchNand4,
    Load8,
    Store8,
    Exchange8,
    CompareExchange8,
    FetchAdd8,
    FetchSub8,
    FetchAnd8,
    FetchOr8,
    FetchXor8,
    FetchNand8,
    Load16,
    Store16,
    Exchange16,
    CompareExchange16,
    FetchAdd16,
    FetchSub16,
    FetchAnd16,
    FetchOr16,
    FetchXor16,
    FetchNand16,
    Load,
    Store,
    Exchange,
    CompareExchange,
    IsLockFree,
}

/// The routines in order, each with its name and its number.
macro_rules! routines {
    ($column:ident $arguments:tt) => {
        $column! { $arguments
            (Load1, "__atomic_load_1", 0),
            (Store1, "__atomic_store_1", 1),
            (Exchange1, "__atomic_exchange_1", 2),
            (CompareExchange1, "__atomic_compare_exchange_1", 3),
            (FetchAdd1, "__atomic_fetch_add_1", 4),
            (FetchSub1, "__atomic_fetch_sub_1", 5),
            (FetchAnd1, "__atomic_fetch_and_1", 6),
            (FetchOr1, "__atomic_fetch_or_1", 7),
            (FetchXor1, "__atomic_fetch_xor_1", 8),
            (FetchNand1, "__atomic_fetch_nand_1", 9),
            (Load2, "__atomic_load_2", 10),
            (Store2, "__atomic_store_2", 11),
            (Exchange2, "__atomic_exchange_2", 12),
            (CompareExchange2, "__atomic_compare_exchange_2", 13),
            (FetchAdd2, "__atomic_fetch_add_2", 14),
            (FetchSub2, "__atomic_fetch_sub_2", 15),
            (FetchAnd2, "__atomic_fetch_and_2", 16),
            (FetchOr2, "__atomic_fetch_or_2", 17),
            (FetchXor2, "__atomic_fetch_xor_2", 18),
            (FetchNand2, "__atomic_fetch_nand_2", 19),
            (Load4, "__atomic_load_4", 20),
            (Store4, "__atomic_store_4", 21),
            (Exchange4, "__atomic_exchange_4", 22),
            (CompareExchange4, "__atomic_compare_exchange_4", 23),
            (FetchAdd4, "__atomic_fetch_add_4", 24),
            (FetchSub4, "__atomic_fetch_sub_4", 25),
            (FetchAnd4, "__atomic_fetch_and_4", 26),
            (FetchOr4, "__atomic_fetch_or_4", 27),
            (FetchXor4, "__atomic_fetch_xor_4", 28),
            (FetchNand4, "__atomic_fetch_nand_4", 29),
            (Load8, "__atomic_load_8", 30),
            (Store8, "__atomic_store_8", 31),
            (Exchange8, "__atomic_exchange_8", 32),
            (CompareExchange8, "__atomic_compare_exchange_8", 33),
            (FetchAdd8, "__atomic_fetch_add_8", 34),
            (FetchSub8, "__atomic_fetch_sub_8", 35),
            (FetchAnd8, "__atomic_fetch_and_8", 36),
            (FetchOr8, "__atomic_fetch_or_8", 37),
            (FetchXor8, "__atomic_fetch_xor_8", 38),
            (FetchNand8, "__atomic_fetch_nand_8", 39),
            (Load16, "__atomic_load_16", 40),
            (Store16, "__atomic_store_16", 41),
            (Exchange16, "__atomic_exchange_16", 42),
            (CompareExchange16, "__atomic_compare_exchange_16", 43),
            (FetchAdd16, "__atomic_fetch_add_16", 44),
            (FetchSub16, "__atomic_fetch_sub_16", 45),
            (FetchAnd16, "__atomic_fetch_and_16", 46),
            (FetchOr16, "__atomic_fetch_or_16", 47),
            (FetchXor16, "__atomic_fetch_xor_16", 48),
            (FetchNand16, "__atomic_fetch_nand_16", 49),
            (Load, "__atomic_load", 50),
            (Store, "__atomic_store", 51),
            (Exchange, "__atomic_exchange", 52),
            (CompareExchange, "__atomic_compare_exchange", 53),
            (IsLockFree, "__atomic_is_lock_free", 54),
        }
    };
}

macro_rules! name_by {
    (($routine:expr) $(($variant:ident, $name:literal, $number:literal),)*) => {
        match $routine { $(RoutineName::$variant => $name,)* }
    };
}

macro_rules! number_by {
    (($routine:expr) $(($variant:ident, $name:literal, $number:literal),)*) => {
        match $routine { $(RoutineName::$variant => $number,)* }
    };
}

macro_rules! routine_by {
    (($number:expr) $(($variant:ident, $name:literal, $place:literal),)*) => {
        match $number { $($place => Some(RoutineName::$variant),)* _ => None }
    };
}

impl RoutineName {
    /// The routines in order.
    pub const ALL: [RoutineName; 55] = [
        RoutineName::Load1,
        RoutineName::Store1,
        RoutineName::Exchange1,
        RoutineName::CompareExchange1,
        RoutineName::FetchAdd1,
        RoutineName::FetchSub1,
        RoutineName::FetchAnd1,
        RoutineName::FetchOr1,
        RoutineName::FetchXor1,
        RoutineName::FetchNand1,
        RoutineName::Load2,
        RoutineName::Store2,
        RoutineName::Exchange2,
        RoutineName::CompareExchange2,
        RoutineName::FetchAdd2,
        RoutineName::FetchSub2,
        RoutineName::FetchAnd2,
        RoutineName::FetchOr2,
        RoutineName::FetchXor2,
        RoutineName::FetchNand2,
        RoutineName::Load4,
        RoutineName::Store4,
        RoutineName::Exchange4,
        RoutineName::CompareExchange4,
        RoutineName::FetchAdd4,
        RoutineName::FetchSub4,
        RoutineName::FetchAnd4,
        RoutineName::FetchOr4,
        RoutineName::FetchXor4,
        RoutineName::FetchNand4,
        RoutineName::Load8,
        RoutineName::Store8,
        RoutineName::Exchange8,
        RoutineName::CompareExchange8,
        RoutineName::FetchAdd8,
        RoutineName::FetchSub8,
        RoutineName::FetchAnd8,
        RoutineName::FetchOr8,
        RoutineName::FetchXor8,
        RoutineName::FetchNand8,
        RoutineName::Load16,
        RoutineName::Store16,
        RoutineName::Exchange16,
        RoutineName::CompareExchange16,
        RoutineName::FetchAdd16,
        RoutineName::FetchSub16,
        RoutineName::FetchAnd16,
        RoutineName::FetchOr16,
        RoutineName::FetchXor16,
        RoutineName::FetchNand16,
        RoutineName::Load,
        RoutineName::Store,
        RoutineName::Exchange,
        RoutineName::CompareExchange,
        RoutineName::IsLockFree,
    ];

    /// The routine's name as the ABI spells it.
    #[tactic(auto, unfolding(crate::specs::Routine::name_of))]
    pub fn name(self) -> &'static str
        ensures { result.now ≡ name_of self }
    {
        routines!(name_by(self))
    }

    /// The routine's number, which is its place in the order, counted from 0.
    #[tactic(auto, unfolding(crate::specs::Routine::number_of))]
    pub fn number(self) -> u32
        ensures value { result ≡ number_of self }
        ensures below { result < 55 }
    {
        routines!(number_by(self))
    }

    /// The routine of a number. None exactly where there is none.
    #[tactic(auto, unfolding(crate::specs::Routine::number_of))]
    pub fn of_number(number: u32) -> Option<RoutineName>
        ensures some { IsSome result ↔ (number < 55) }
        ensures number { IfSome result (λ routine. number_of routine ≡ number) }
    {
        routines!(routine_by(number))
    }

    /// The routine of a name. None exactly where no routine has that name.
    pub fn named(text: &[u8]) -> Option<RoutineName>
        ensures value { result ≡ routine_named text.now }
        ensures spelled { IfSome result (λ routine. name_of routine ≡ text.now) }
    {
        RoutineName::ALL
            .iter()
            .copied()
            .find(|routine| routine.name().as_bytes() == text)
    }
}

/// Each routine stands at its number in the order, and its name names it alone.
#[tactic(auto, unfolding(crate::specs::Routine::name_of, crate::specs::Routine::number_of))]
pub fn routines_differ()
    ensures numbers { (routine : RoutineName) → slice_get all_routines (number_of routine) ≡ Some routine }
    ensures names { (routine : RoutineName) → routine_named (name_of routine) ≡ Some routine }
{}
