//! A list of items, seen by contracts as that list and nothing else.

ghost use Rattle.std.specs.Prelude.{◌≡◌};

use std::marker::Model;

/// A `Vec` that contracts see as the list of its items.
///
/// The types of the other crates keep their lists in it, so that two of their values are equal
/// where their contents are equal, whatever memory the lists take.
#[derive(Drop)]
pub struct Items<T> {
    items: Vec<T>,
}

impl<T> Model for Items<T> {
    ghost use Rattle.std.specs.Prelude.{List};
    ghost use Rattle.std.specs.Coded.{coded_list};

    ghost Value = { List T };

    ghost coded = { coded_list T.code };

    ghost view = { λ it. it.items.items };
}

impl<T> Items<T> {
    /// The list of the items of a `Vec`, which it takes over.
    pub fn of(items: Vec<T>) -> Items<T>
        ensures { result ≡ items.items }
    {
        Items { items }
    }

    /// The items as a slice.
    pub fn as_slice(&self) -> &[T]
        ensures { result.now ≡ self.now }
    {
        self.items.as_slice()
    }
}
