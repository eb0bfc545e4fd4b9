//! The stores of a processor that wait.

ghost use Rattle.std.specs.Prelude.{◌≡◌, ◌<◌, ◌-◌, ◌++◌, ◌∷◌, [], drop, take, slice_index, IfOk};
ghost use Rattle.ax_source_run.specs.SourceAccess.{newest, written_out};
ghost use Rattle.ax_cells.specs.Shapes.{cells_of, shapes_of};
ghost use Rattle.ax_cells.specs.PendingState.{HaveCells, counts_for};

use crate::arrays::Arrays;
use crate::newest_stores::NewestStores;
use ax_module::module;
use std::alloc::{AllocError, Global};
use std::marker::Model;

/// A store that waits: the element of a global, and the number.
///
/// Contracts see it as a `PendingStore` of the source machine.
#[derive(Clone, Copy)]
pub struct Waiting {
    global: u32,
    element: u128,
    number: u128,
}

impl Model for Waiting {
    ghost use Rattle.ax_source_run.specs.SourceState.{PendingStore};

    ghost Value = { PendingStore };

    ghost view = { λ w. record { global = w.global; element = w.element; number = w.number } };

    ghost inverse = { λ s. record { global = s.global; element = s.element; number = s.number } };
}

impl Waiting {
    /// A store of a number to an element of the global at a position. The element is its index.
    pub fn new(global: u32, element: u128, number: u128) -> Waiting
        ensures { result ≡ record { global = global; element = element; number = number } }
    {
        Waiting {
            global,
            element,
            number,
        }
    }
}

/// The stores that wait, the oldest first, and memory for so many more.
///
/// Contracts see it as a `PendingState`: the stores, for how many more there is room, and how many
/// elements each global has.
///
/// Those before `head` wait no longer: the newest store to an element waits exactly where its place,
/// which `newest` has, is above `head`.
#[derive(Drop)]
pub struct Pending {
    stores: Vec<Waiting>,
    head: usize,
    room: u64,
    newest: NewestStores,
}

impl Model for Pending {
    ghost use Rattle.std.specs.Prelude.{◌+◌, ◌≤◌, drop};
    ghost use Rattle.std.specs.Vec.{vec_len, vec_capacity};
    ghost use Rattle.ax_cells.specs.PendingState.{PendingState};
    ghost use Rattle.ax_cells.specs.NewestStores.{AreNewest, counts_of};

    ghost Value = { PendingState };

    ghost view = { λ p. record { stores = drop p.head p.stores.items; room = p.room; counts = counts_of p.newest } };

    ghost invariant = { λ p. (p.head ≤ vec_len p.stores) × (vec_len p.stores + p.room ≤ vec_capacity p.stores) × AreNewest p.newest p.stores.items };
}

impl Pending {
    /// No store, and memory for `room` stores to elements of these globals. With room for none it
    /// takes no memory; it fails only where there is no memory.
    #[tactic(auto, using(crate::proofs::NewestStores::empty))]
    pub fn with_room(
        alloc: Global,
        room: u64,
        globals: &[module::Global],
    ) -> Result<Pending, AllocError>
        ensures { IfOk result (λ p. p ≡ record { stores = []; room = room; counts = counts_for room globals.now }) }
    {
        let stores = Vec::with_capacity(alloc, room as usize)?;
        let named = if room == 0 { &[] } else { globals };
        let newest = NewestStores::none(alloc, named)?;
        Ok(Pending {
            stores,
            head: 0,
            room,
            newest,
        })
    }

    /// One more store waits, behind all others, and uses up the room of one. The caller sees to it that
    /// there is room and that its global has the element. It takes no memory and never fails.
    #[tactic(auto, using(crate::proofs::NewestStores::pushed))]
    pub fn push(&mut self, store: Waiting)
        requires room { 0 < self.old.room }
        requires element { store.element < slice_index self.old.counts store.global }
        ensures { self.new ≡ record self.old { stores = self.old.stores ++ store ∷ []; room = self.old.room - 1 } }
    {
        self.stores.push_reserved(store);
        let place = self.stores.len();
        self.newest.set(store.global, store.element, place);
        self.room -= 1;
    }

    /// Lets the oldest store reach its element in `globals`, which are the arrays of the globals by
    /// their positions; where none waits, nothing happens. The room stays.
    #[tactic(auto, using(crate::proofs::Stores::oldest))]
    pub fn drain(&mut self, globals: &mut Arrays)
        requires { HaveCells (shapes_of globals.old) self.old.stores }
        ensures stores { self.new.stores ≡ drop 1 self.old.stores }
        ensures numbers { cells_of globals.new ≡ written_out (take 1 self.old.stores) (cells_of globals.old) }
        ensures shapes { shapes_of globals.new ≡ shapes_of globals.old }
        ensures room { self.new.room ≡ self.old.room }
        ensures counts { self.new.counts ≡ self.old.counts }
    {
        if let Some(store) = self.stores.get(self.head) {
            globals.set(u128::from(store.global), store.element, store.number);
            self.head += 1;
        }
    }

    /// Lets all stores reach their elements in `globals`, the oldest first, so that none waits. The
    /// room stays.
    #[tactic(auto, using(crate::proofs::Stores::written))]
    pub fn write_out(&mut self, globals: &mut Arrays)
        requires { HaveCells (shapes_of globals.old) self.old.stores }
        ensures stores { self.new.stores ≡ [] }
        ensures numbers { cells_of globals.new ≡ written_out self.old.stores (cells_of globals.old) }
        ensures shapes { shapes_of globals.new ≡ shapes_of globals.old }
        ensures room { self.new.room ≡ self.old.room }
        ensures counts { self.new.counts ≡ self.old.counts }
    {
        write_stores(&self.stores[self.head..], globals);
        self.head = self.stores.len();
    }

    /// The number of the newest store that waits for an element of a global, and `number` where none
    /// does. Its time doesn't grow with the stores.
    #[tactic(auto, using(crate::proofs::NewestStores::looked_up))]
    pub fn newest(&self, global: u32, element: u128, number: u128) -> u128
        ensures { result ≡ newest global element self.now.stores number }
    {
        let place = self.newest.place(global, element);
        if place > self.head {
            self.stores[place - 1].number
        } else {
            number
        }
    }
}

/// Stores reach their elements, in order.
#[tactic(auto, using(crate::proofs::Stores::written))]
fn write_stores(stores: &[Waiting], globals: &mut Arrays)
    requires { HaveCells (shapes_of globals.old) stores.now }
    ensures numbers { cells_of globals.new ≡ written_out stores.now (cells_of globals.old) }
    ensures shapes { shapes_of globals.new ≡ shapes_of globals.old }
{
    for store in stores {
        globals.set(u128::from(store.global), store.element, store.number);
    }
}
