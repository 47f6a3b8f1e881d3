//! The places of the keys of a list: the first place of each slot, and after each place the next one of its slot. They
//! are made in one pass from the back over the hashes of the keys, in which no two keys are compared; only a look-up
//! compares keys. Where a slot gets so many places that look-ups would be slow, they are made once more by other slots.

ghost use Rattle.std.specs.Prelude.{ℕ, List, ◌≡◌, ◌≢◌, ◌+◌, ◌<◌, ◌≤◌, true, false, IfOk, Some};
ghost use Rattle.std.specs.Prelude.{length, drop, map, slice_index_or};
ghost use Rattle.std.specs.List.{position_from};
ghost use Rattle.fare_index.specs.declared.key.Key.{Key};
ghost use Rattle.fare_index.specs.Hashed.{hash_of};
ghost use Rattle.fare_index.specs.Key.{same_key};
ghost use Rattle.fare_index.specs.Slots.{share_slot, slot_count};
ghost use Rattle.fare_index.specs.Places.{ArePlaces, LeadsOn};

use crate::crowd::Crowd;
use crate::key::Key;
use crate::keyed::Keyed;
use crate::link::Link;
use crate::slots::Slots;
use fare_ports::NoMemory;
use std::alloc::Global;

/// The slots of keys, the first place of each slot, and for each place the next of its slot and whether it leads, which
/// the first of each slot does.
#[derive(Drop)]
pub(crate) struct Places {
    pub(crate) slots: Slots,
    pub(crate) heads: Vec<Link>,
    pub(crate) links: Vec<Link>,
    pub(crate) leads: Vec<bool>,
}

/// Notes that the place of a link isn't the first of its slot. A link to nothing is noted like any other: a branch here
/// would wait for the first place of the slot, and the slots of the keys before it would be read one behind the other.
fn follow(leads: &mut Vec<bool>, later: Link)
    ensures same_length { length leads.new.items ≡ length leads.old.items }
    ensures leads { (k : ℕ) → slice_index_or leads.new.items (k + 1) false ≡ true → LeadsOn leads.old.items later k }
    ensures others { (k : ℕ) → later ≢ Some k →
        slice_index_or leads.new.items (k + 1) false ≡ slice_index_or leads.old.items (k + 1) false }
{
    let number = later.number();
    if number < leads.len() {
        leads[number] = false;
    }
}

/// The places of a list of keys, by the slots of their hashes, and how they crowd. Each hash is known before the pass, so
/// that a place waits only for its slot.
fn places_by(alloc: Global, hashes: &[u64], slots: Slots) -> Result<(Places, Crowd), NoMemory>
    requires in_links { length hashes.now ≤ u32.MAX }
    requires some_slot { 0 < slot_count slots }
    ensures { (keys : List Key) → hashes.now ≡ map hash_of keys → IfOk result (λ made. ArePlaces keys made.0) }
{
    let mut crowd = Crowd::new(alloc, hashes.len())?;
    let mut heads = vec![in alloc; Link::none(); slots.count()]?;
    let mut links = vec![in alloc; Link::none(); hashes.len()]?;
    let mut leads = vec![in alloc; true; hashes.len() + 1]?;
    for place in (0..hashes.len()).rev() {
        let slot = slots.by(hashes[place]);
        let later = heads[slot];
        follow(&mut leads, later);
        crowd.note(place, later);
        links[place] = later;
        heads[slot] = Link::to(place as u32);
    }
    let places = Places {
        slots,
        heads,
        links,
        leads,
    };
    Ok((places, crowd))
}

/// The places of a list of keys, by their hashes. A list whose length doesn't fit 32 bits is answered as want of
/// memory.
pub(crate) fn places_of(alloc: Global, hashes: &[u64]) -> Result<Places, NoMemory>
    ensures { (keys : List Key) → hashes.now ≡ map hash_of keys → IfOk result (ArePlaces keys) }
{
    if hashes.len() > u32::MAX as usize {
        return Err(NoMemory);
    }
    let (places, crowd) = places_by(alloc, hashes, Slots::hashed(hashes.len()))?;
    if crowd.is_too_great() {
        let (ranked, _) = places_by(alloc, hashes, Slots::ranked(alloc, hashes)?)?;
        return Ok(ranked);
    }
    Ok(places)
}

/// The first place of a key from a place on, by the first place of its slot from there on.
pub(crate) fn seek<T: Keyed>(
    items: &[T],
    places: &Places,
    key: &Key,
    from: usize,
    first: Link,
) -> Option<usize>
    requires places { ArePlaces (map T.key_of items.now) places.now }
    requires within { from ≤ length items.now }
    requires first { first
        ≡ position_from (share_slot places.now.slots key.now) from (drop from (map T.key_of items.now)) }
    ensures { result ≡ position_from (same_key key.now) from (drop from (map T.key_of items.now)) }
{
    let mut at = first;
    while let Some(place) = at.place() {
        if items[place as usize].has(key) {
            return Some(place as usize);
        }
        at = places.links[place as usize];
    }
    None
}
