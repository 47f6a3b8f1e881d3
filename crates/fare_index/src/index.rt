ghost use Rattle.std.specs.Prelude.{◌≡◌, ◌+◌, ◌<◌, true, IfOk, length, drop, map, slice_index_or};
ghost use Rattle.std.specs.List.{list_all, position_from};
ghost use Rattle.fare_index.specs.Key.{same_key};

use crate::groups::Groups;
use crate::hashed::hashes_of;
use crate::key::Key;
use crate::keyed::Keyed;
use crate::places::{Places, places_of, seek};
use fare_ports::NoMemory;
use std::alloc::Global;
use std::marker::{Model, Sync};
use std::thread::Threads;

/// Items, each of which is found by its key. It is seen as their list.
#[derive(Drop)]
pub struct Index<T: Keyed> {
    items: Vec<T>,
    places: Places,
}

impl<T: Keyed> Model for Index<T> {
    ghost use Rattle.std.specs.Prelude.{List};
    ghost use Rattle.fare_index.specs.Index.{IsIndexed};

    ghost Value = { List T };

    ghost view = { λ i. i.items.items };

    ghost invariant = { λ i. IsIndexed T.key_of T.holds_of i.items.items i.places };
}

impl<T: Keyed + Drop> Index<T> {
    /// The index of a list of items, whose keys are hashed on all processors.
    pub fn of<R: Threads + Sync>(rt: &R, alloc: Global, items: Vec<T>) -> Result<Index<T>, NoMemory>
        ensures { IfOk result (λ index. index ≡ items.items) }
    {
        let hashes = hashes_of(rt, alloc, items.as_slice())?;
        let places = places_of(alloc, hashes.as_slice())?;
        Ok(Index { items, places })
    }

    /// The items, in their order.
    pub fn items(&self) -> &[T]
        ensures items { result.now ≡ self.now }
        ensures by_type { list_all T.holds_of self.now ≡ true }
    {
        self.items.as_slice()
    }

    /// The first place of a key; nothing where no item has it.
    pub fn first(&self, key: &Key) -> Option<usize>
        ensures { result ≡ position_from (λ one. same_key key.now (T.key_of one)) 0 self.now }
    {
        let slot = self.places.slots.of(key);
        seek(
            self.items.as_slice(),
            &self.places,
            key,
            0,
            self.places.heads[slot],
        )
    }

    /// The first place of the key of the item at a place, found at once where that is the place.
    pub fn first_at(&self, place: usize) -> Option<usize>
        requires { place < length self.now }
        ensures { (d : T) → result
            ≡ position_from (λ one. same_key (T.key_of (slice_index_or self.now place d)) (T.key_of one)) 0 self.now }
    {
        if self.places.leads[place + 1] {
            return Some(place);
        }
        self.first(&self.items[place].key())
    }

    /// The next place of the key of the item at a place; nothing where the key doesn't come again.
    pub fn next(&self, place: usize) -> Option<usize>
        requires { place < length self.now }
        ensures { (d : T) → result
            ≡ position_from (λ one. same_key (T.key_of (slice_index_or self.now place d)) (T.key_of one)) (place + 1)
            (drop (place + 1) self.now) }
    {
        seek(
            self.items.as_slice(),
            &self.places,
            &self.items[place].key(),
            place + 1,
            self.places.links[place],
        )
    }

    /// The keys of the items in groups.
    pub fn groups(&self) -> Groups<'_, T>
        ensures { result.keys ≡ map T.key_of self.now }
    {
        Groups::of(self.items.as_slice(), &self.places)
    }
}
