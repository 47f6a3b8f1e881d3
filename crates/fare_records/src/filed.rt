//! Records with the places of their keys.

ghost use Rattle.std.specs.Prelude.{◌≡◌, ◌+◌, ◌<◌, true, find, map, IfOk, IfSome, length, drop, slice_index_or};
ghost use Rattle.std.specs.List.{list_all, position_from};
ghost use Rattle.std.specs.Option.{option_copied};
ghost use Rattle.fare_records.specs.declared.record.Record.{Record};
ghost use Rattle.fare_records.specs.Keyed.{has_amount_in_range, own_key, has_own_key, IsAmong, HasKeyAt};

use crate::guesses::Guesses;
use crate::record::Record;
use fare_index::{Groups, Index, Key, Keyed};
use fare_ports::NoMemory;
use std::alloc::Global;
use std::marker::{Model, Sync};
use std::thread::Threads;

/// A list of records in which each is found by its key. It is seen as the list.
#[derive(Drop)]
pub struct Filed {
    index: Index<Record>,
    guesses: Guesses,
}

impl Model for Filed {
    ghost use Rattle.std.specs.Prelude.{List};
    ghost use Rattle.fare_records.specs.declared.record.Record.{Record};

    ghost Value = { List Record };

    ghost view = { λ f. f.index };
}

impl Filed {
    /// The records with the places of their keys.
    pub fn of<R: Threads + Sync>(
        rt: &R,
        alloc: Global,
        records: Vec<Record>,
    ) -> Result<Filed, NoMemory>
        ensures { IfOk result (λ filed. filed ≡ records.items) }
    {
        let index = Index::of(rt, alloc, records)?;
        let guesses = Guesses::of(rt, alloc, index.items())?;
        Ok(Filed { index, guesses })
    }

    /// The records, in their order.
    pub fn records(&self) -> &[Record]
        ensures records { result.now ≡ self.now }
        ensures amounts { list_all has_amount_in_range self.now ≡ true }
    {
        self.index.items()
    }

    /// The record at the place where that of a key may stand; it may be any other.
    pub fn guess(&self, key: &Key) -> Option<&Record>
        ensures { IfSome result (λ one. IsAmong self.now one.now) }
    {
        self.records().get(self.guesses.place(key))
    }

    /// Whether the record at a place is there and has a key.
    fn stands_at(&self, place: usize, key: &Key) -> bool
        ensures { result ≡ true → HasKeyAt self.now place key.now }
    {
        match self.records().get(place) {
            None => false,
            Some(one) => one.has(key),
        }
    }

    /// The place of the first record with a key, found at once where it stands where it may.
    fn first_guessed(&self, key: &Key) -> Option<usize>
        ensures { result ≡ position_from (has_own_key key.now) 0 self.now }
    {
        let guess = self.guesses.place(key);
        if self.stands_at(guess, key) {
            return self.first_at(guess);
        }
        self.index.first(key)
    }

    /// The place of the first record with a key. A city's code and a rule's id take longer to hash than to guess by, a
    /// pair of cities doesn't.
    pub fn first(&self, key: &Key) -> Option<usize>
        ensures { result ≡ position_from (has_own_key key.now) 0 self.now }
    {
        match key {
            Key::City(_) | Key::Rule(_) => self.first_guessed(key),
            _ => self.index.first(key),
        }
    }

    /// The first place of a record with the key of the record at a place.
    pub fn first_at(&self, place: usize) -> Option<usize>
        requires { place < length self.now }
        ensures { (d : Record) → result
            ≡ position_from (has_own_key (own_key (slice_index_or self.now place d))) 0 self.now }
    {
        self.index.first_at(place)
    }

    /// The next place of a record with the key of the record at a place.
    pub fn next(&self, place: usize) -> Option<usize>
        requires { place < length self.now }
        ensures { (d : Record) → result ≡ position_from
            (has_own_key (own_key (slice_index_or self.now place d))) (place + 1) (drop (place + 1) self.now) }
    {
        self.index.next(place)
    }

    /// The places of the records, in groups by their keys.
    pub fn groups(&self) -> Groups<'_, Record>
        ensures { result.keys ≡ map own_key self.now }
    {
        self.index.groups()
    }

    /// The first record with a key.
    pub fn find(&self, key: &Key) -> Option<&Record>
        ensures { option_copied result ≡ find (has_own_key key.now) self.now }
    {
        match self.first(key) {
            None => None,
            Some(place) => Some(&self.records()[place]),
        }
    }
}
