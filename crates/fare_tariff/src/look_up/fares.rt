//! Fares, by their record numbers and their keys.

ghost use Rattle.std.specs.Prelude.{◌≡◌, ◌+◌, ◌-◌, ◌<◌, ◌≤◌, length, nat_le, IfSome, OnSome, IsSomeAnd, option_map};
ghost use Rattle.std.specs.Prelude.{option_and_then, position, slice_get, if◌then◌else◌, None};
ghost use Rattle.std.specs.Option.{option_copied};
ghost use Rattle.fare_tariff.specs.Filed.{IsFiledFare, IsFareOn, IsFareBetween};
ghost use Rattle.fare_tariff.specs.Lookup.{fare_in, has_key, is_fare_on, is_fare_between, number_at, numbers_from};
ghost use Rattle.fare_tariff.specs.Lookup.{fare_number, fare_at, nth_fare, next_fare};

use crate::edition::Edition;
use crate::look_up::seek::{Sought, first_fare};
use fare_codes::{City, FARE_LIMIT, Indicator, MonthDay};
use fare_index::Key;
use fare_records::{
    FareKey, FareRec, Filed, MOST_FARES_BETWEEN, MOST_PLACES, MOST_RECORDS, Record, same_rules,
};

impl Edition {
    /// The record number of the fare with this key whose season holds a day; nothing means that no record has the key
    /// on that day.
    pub fn fare(&self, key: &FareKey, on: MonthDay) -> Option<u32>
        ensures number { result ≡ fare_number self.now key.now on }
        ensures filed { IfSome result (λ number. IsSomeAnd (fare_at self.now number) (IsFareOn key.now on)) }
    {
        fare_number(self.filed(), key, on)
    }

    /// The fare that the record of a number files; nothing where it files none.
    pub fn fare_at(&self, number: u32) -> Option<&FareRec>
        ensures fare { option_copied result ≡ fare_at self.now number }
        ensures filed { IfSome result (λ fare. IsFiledFare self.now fare.now) }
        ensures in_limit { OnSome result (number ≤ MOST_RECORDS + 1) }
        ensures in_range { IfSome result (λ fare. fare.now.amount < FARE_LIMIT) }
    {
        fare_record(self.records(), number)
    }

    /// The record number of the `k`-th fare, from 0 and in the order of the records, from a city to another for an
    /// indicator; nothing where there are no more. There are at most 64.
    pub fn nth_fare(&self, from: City, to: City, ind: Indicator, k: u32) -> Option<u32>
        ensures number { result ≡ nth_fare self.now from to ind k }
        ensures filed { IfSome result (λ number. IsSomeAnd (fare_at self.now number) (IsFareBetween from to ind)) }
        ensures few { OnSome result (k < MOST_FARES_BETWEEN) }
    {
        nth_fare_number(self.filed(), from, to, ind, k)
    }

    /// The record number of the next fare, in the order of the records, with the cities and the indicator of the fare
    /// that the record of a number files; nothing where there is no more, and where that record files none.
    pub fn next_fare(&self, number: u32) -> Option<u32>
        ensures { result ≡ next_fare self.now number }
    {
        match self.fare_at(number) {
            None => None,
            Some(_) => number_at(self.filed().next(number as usize - 2)),
        }
    }
}

/// The fare that a record files, if any.
fn fare_in(one: &Record) -> Option<&FareRec>
    ensures fare { option_copied result ≡ fare_in one.now }
    ensures in_range { IfSome result (λ fare. fare.now.amount < FARE_LIMIT) }
{
    match one {
        Record::Fare(filed) => {
            let _ = &filed.amount;
            Some(filed)
        }
        _ => None,
    }
}

/// The fare that the record of a number files.
fn fare_record(records: &[Record], number: u32) -> Option<&FareRec>
    ensures fare { option_copied result ≡ (if nat_le 2 number
        then option_and_then fare_in (slice_get records.now (number - 2)) else None) }
    ensures in_range { IfSome result (λ fare. fare.now.amount < FARE_LIMIT) }
{
    if number < 2 {
        return None;
    }
    match records.get(number as usize - 2) {
        None => None,
        Some(one) => fare_in(one),
    }
}

/// Whether a fare has a key. The fares that are asked mostly share the cities and the indicator, so these come last.
#[tactic(auto, using(crate::proofs::KeyTests::terms_first))]
pub(crate) fn has_key(key: &FareKey, fare: &FareRec) -> bool
    ensures { result ≡ has_key key.now fare.now }
{
    fare.carrier.is(key.carrier)
        && fare.class.is(key.class)
        && fare.kind.is(key.kind)
        && same_rules(&fare.rule, &key.rule)
        && fare.from.is(key.from)
        && fare.to.is(key.to)
        && fare.ind.is(key.ind)
}

/// The record number of the record at a place.
pub(crate) fn number_at(place: Option<usize>) -> Option<u32>
    requires { IfSome place (λ at. at < MOST_PLACES) }
    ensures { result ≡ option_map number_at place }
{
    match place {
        Some(at) => Some(at as u32 + 2),
        None => None,
    }
}

/// The record number of the fare with a key whose season holds a day.
fn fare_number(filed: &Filed, key: &FareKey, on: MonthDay) -> Option<u32>
    requires { length filed.now ≤ MOST_RECORDS }
    ensures { result ≡ option_map number_at (position (is_fare_on key.now on) filed.now) }
{
    number_at(first_fare(filed, key, &Sought::On(on)))
}

/// The place of the `k`-th fare, from 0, of a city, another and an indicator.
pub(crate) fn nth_place(
    filed: &Filed,
    from: City,
    to: City,
    ind: Indicator,
    k: u32,
) -> Option<usize>
    ensures place { result ≡ slice_get (numbers_from (is_fare_between from to ind) 0 filed.now) k }
    ensures within { IfSome result (λ place. place < length filed.now) }
{
    let mut left = k;
    let mut at = filed.first(&Key::Fares(from, to, ind));
    while let Some(place) = at {
        if left == 0 {
            return Some(place);
        }
        left -= 1;
        at = filed.next(place);
    }
    None
}

/// The record number of the `k`-th fare, from 0, of a city, another and an indicator.
#[tactic(auto, using(crate::proofs::Places::numbered))]
fn nth_fare_number(filed: &Filed, from: City, to: City, ind: Indicator, k: u32) -> Option<u32>
    requires { length filed.now ≤ MOST_RECORDS }
    ensures { result ≡ slice_get (numbers_from (is_fare_between from to ind) 2 filed.now) k }
{
    number_at(nth_place(filed, from, to, ind, k))
}
