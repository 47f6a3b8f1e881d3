//! Where the record of a city or a rule may stand: a guess, which whoever takes it looks up in the records.

ghost use Rattle.std.specs.Prelude.{◌≡◌, ◌+◌, ◌*◌, ◌%◌, ◌^◌};
ghost use Rattle.std.specs.List.{fold};
ghost use Rattle.fare_records.specs.Spelling.{spelled_city, spelled_rule};

use crate::record::Record;
use fare_codes::{City, RuleId};
use fare_index::{FEWEST_APART, Key};
use fare_ports::NoMemory;
use rayon::prelude::*;
use std::alloc::{AllocError, Global};
use std::hash::{Hash, Hasher};
use std::marker::Sync;
use std::thread::Threads;

/// As many slots as three letters of five bits have, so that no two cities share one. A shorter edition has at least as
/// many as it has records.
const MOST_SLOTS: usize = 32_768;

/// A short edition has as many, so that few of its rules share a slot with another or with a city.
const FEWEST_SLOTS: usize = 512;

/// How many bits of a slot's number three letters fill.
const SLOT_BITS: u32 = 15;

/// The numbers of letters differ by less than this.
const LETTERS: u64 = 32;

/// An odd number near 2^64 divided by the golden ratio: in a product with it each bit of a number counts in the first.
const MIXING: u64 = 0x9E37_79B9_7F4A_7C15;

/// A place for each slot, of which a city or a rule has one. One that shares its slot is found by its key.
#[derive(Drop)]
pub(crate) struct Guesses {
    places: Vec<u32>,
}

/// A city or a rule in a share of the records: the number by which its slot is found, and its place in the share.
#[derive(Clone, Copy)]
struct Told {
    number: u64,
    place: u32,
}

/// The letters of a code as the digits of a number. Unlike by a hash, cities whose letters are near one another have
/// slots near one another, so the slots of an edition's cities fill few lines of a cache.
#[derive(Drop)]
struct Spelling {
    number: u64,
}

impl Hasher for Spelling {
    ghost use Rattle.fare_records.specs.declared.guesses.TheConstants.{LETTERS};

    ghost write = { λ s bytes. record {
      number = fold (λ n byte. ((n * LETTERS) % 2 ^ 64 + byte) % 2 ^ 64) s.number bytes;
    } };

    ghost finish = { λ s. s.number };

    fn finish(&self) -> u64 {
        self.number
    }

    fn write(&mut self, bytes: &[u8]) {
        for byte in bytes {
            self.number = self.number.wrapping_mul(LETTERS).wrapping_add(*byte as u64);
        }
    }
}

/// The number that the characters of a rule's id spell, with zeros behind them.
#[tactic(auto, unfolding(crate::specs::Spelling::spelled_rule))]
pub fn spelled_rule(id: RuleId) -> u64
    ensures { result ≡ spelled_rule id }
{
    let mut spelling = Spelling { number: 0 };
    id.hash(&mut spelling);
    spelling.finish()
}

/// The number that the letters of a city spell.
#[tactic(auto, unfolding(crate::specs::Spelling::spelled_city))]
pub fn spelled_city(city: City) -> u64
    ensures { result ≡ spelled_city city }
{
    let mut spelling = Spelling { number: 0 };
    city.hash(&mut spelling);
    spelling.finish()
}

/// The bits of a number that three letters fill, in which those that they overflow into count too.
fn folded(number: u64) -> u64 {
    number ^ (number >> SLOT_BITS)
}

/// The first bits of a number that is mixed: short ids have zeros behind them, so their last bits are the same.
fn mixed(number: u64) -> u64 {
    number.wrapping_mul(MIXING) >> (u64::BITS - SLOT_BITS)
}

/// The number by which the slot of a key is found; nothing where it is neither a city's nor a rule's.
fn spelled(key: &Key) -> Option<u64> {
    match key {
        Key::City(city) => Some(folded(spelled_city(*city))),
        Key::Rule(id) => Some(mixed(spelled_rule(*id))),
        _ => None,
    }
}

/// The number of the key of a record; nothing where it files neither a city nor a rule.
fn spelled_of(one: &Record) -> Option<u64> {
    match one {
        Record::City(city) => Some(folded(spelled_city(city.code))),
        Record::Rule(filed) => Some(mixed(spelled_rule(filed.rule().id))),
        _ => None,
    }
}

/// The slot of a number among so many, a power of two.
fn slot_of(number: u64, slots: usize) -> usize {
    number as usize & (slots.max(1) - 1)
}

/// The cities and the rules in a share of the records.
fn told_in(alloc: Global, share: &[Record]) -> Result<Vec<Told>, AllocError> {
    let mut told = Vec::new(alloc);
    for (place, one) in (0..u32::MAX).zip(share.iter()) {
        if let Some(number) = spelled_of(one) {
            told.push(Told { number, place })?;
        }
    }
    Ok(told)
}

impl Guesses {
    /// The places of the cities and the rules among some records, which are gone through on all processors. Places that
    /// don't fit 32 bits are left out.
    pub(crate) fn of<R: Threads + Sync>(
        rt: &R,
        alloc: Global,
        records: &[Record],
    ) -> Result<Guesses, NoMemory> {
        let slots = records
            .len()
            .max(FEWEST_SLOTS)
            .min(MOST_SLOTS)
            .next_power_of_two();
        let mut guesses = Guesses {
            places: vec![in alloc; 0; slots]?,
        };
        let shares: Vec<Result<Vec<Told>, AllocError>> = records
            .par_chunks(FEWEST_APART)
            .with_min_len(1)
            .map(|share: &[Record]| -> Result<Vec<Told>, AllocError> { told_in(alloc, share) })
            .collect(rt, alloc)?;
        let mut first = 0u32;
        for told in shares {
            guesses.note(first, told?.as_slice());
            first = first.saturating_add(FEWEST_APART as u32);
        }
        Ok(guesses)
    }

    /// Notes the places of those that were found in a share of the records, by the place of its first.
    fn note(&mut self, first: u32, told: &[Told]) {
        let slots = self.places.len();
        for one in told {
            if let Some(slot) = self.places.get_mut(slot_of(one.number, slots)) {
                *slot = first.saturating_add(one.place);
            }
        }
    }

    /// Where the record of a key may stand. Nothing is known of the answer: it is a guess, which is looked up, and a
    /// wrong one costs a look-up by key. Keys that share a slot cost no more than that.
    pub(crate) fn place(&self, key: &Key) -> usize {
        match spelled(key) {
            None => usize::MAX,
            Some(number) => match self.places.get(slot_of(number, self.places.len())) {
                Some(place) => *place as usize,
                None => usize::MAX,
            },
        }
    }
}
