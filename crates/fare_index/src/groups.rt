//! Keys in groups: keys that are the same are in one group. Whoever asks something of each key, beside those that are
//! the same, goes through each group from its first place on: so each place is read once, and nothing is looked up.

ghost use Rattle.std.specs.Prelude.{◌≡◌, ◌↔◌, ◌+◌, ◌<◌, IsTrue, Some, length, map, drop, slice_index_or};
ghost use Rattle.std.specs.List.{position_from};
ghost use Rattle.fare_index.specs.declared.key.Key.{Key};
ghost use Rattle.fare_index.specs.Groups.{group_of, is_in_group};
ghost use Rattle.fare_index.specs.Places.{ArePlaces};

use crate::keyed::Keyed;
use crate::places::Places;
use std::marker::Model;

/// The keys of an index in groups, of which some have no key. A group may have a few keys that aren't the same.
#[derive(Drop)]
pub struct Groups<'a, T: Keyed> {
    items: &'a [T],
    places: &'a Places,
}

impl<'a, T: Keyed> Model for Groups<'a, T> {
    ghost use Rattle.std.specs.Prelude.{map};
    ghost use Rattle.fare_index.specs.Groups.{Grouped};
    ghost use Rattle.fare_index.specs.Places.{ArePlaces};

    ghost Value = { Grouped };

    ghost view = { λ g. record { keys = map T.key_of g.items.now; slots = g.places.now.slots } };

    ghost invariant = { λ g. ArePlaces (map T.key_of g.items.now) g.places.now };
}

impl<'a, T: Keyed> Groups<'a, T> {
    /// The groups of the keys of items by the places of their slots.
    pub(crate) fn of(items: &'a [T], places: &'a Places) -> Groups<'a, T>
        requires { ArePlaces (map T.key_of items.now) places.now }
        ensures { result.keys ≡ map T.key_of items.now }
    {
        Groups { items, places }
    }

    /// Whether a place is the first of its group.
    pub fn leads(&self, place: usize) -> bool
        requires { place < length self.now.keys }
        ensures { (d : Key) → IsTrue result ↔ (position_from
            (is_in_group self.now (group_of self.now (slice_index_or self.now.keys place d))) 0 self.now.keys
            ≡ Some place) }
    {
        self.places.leads[place + 1]
    }

    /// The next place of the group of the key at a place.
    pub fn behind(&self, place: usize) -> Option<usize>
        requires { place < length self.now.keys }
        ensures { (d : Key) → result ≡ position_from
            (is_in_group self.now (group_of self.now (slice_index_or self.now.keys place d)))
            (place + 1) (drop (place + 1) self.now.keys) }
    {
        match self.places.links[place].place() {
            None => None,
            Some(place) => Some(place as usize),
        }
    }
}
