//! Mileages of unordered pairs of cities.

ghost use Rattle.std.specs.Prelude.{◌≡◌, ◌<◌, ◌≤◌, IfSome};
ghost use Rattle.fare_tariff.specs.Lookup.{first_some, greatest, mpm_in, tpm_in, allowance_in, mpm, tpm, allowance};
ghost use Rattle.fare_records.specs.Keyed.{extra_miles};

use crate::edition::Edition;
use fare_codes::{City, Indicator};
use fare_index::Key;
use fare_records::{Filed, MOST_MILES, Record, same_pairs};

impl Edition {
    /// The maximum permitted mileage of an unordered pair of cities and an indicator; nothing means that no record has
    /// them as its key.
    pub fn mpm(&self, a: City, b: City, ind: Indicator) -> Option<u32>
        ensures miles { result ≡ mpm self.now a b ind }
        ensures above_zero { IfSome result (λ miles. 0 < miles) }
        ensures in_range { IfSome result (λ miles. miles ≤ MOST_MILES) }
    {
        permitted_miles(self.filed(), a, b, ind)
    }

    /// The ticketed point mileage of an unordered pair of cities; nothing means that no record has it as its key.
    pub fn tpm(&self, a: City, b: City) -> Option<u32>
        ensures miles { result ≡ tpm self.now a b }
        ensures above_zero { IfSome result (λ miles. 0 < miles) }
        ensures in_range { IfSome result (λ miles. miles ≤ MOST_MILES) }
    {
        ticketed_miles(self.filed(), a, b)
    }

    /// The greatest extra mileage allowance of an unordered pair of cities and an indicator that is filed for every way
    /// or by way of one of these cities; 0 where there is none.
    pub fn allowance(&self, a: City, b: City, ind: Indicator, via: &[City]) -> u32
        ensures miles { result ≡ allowance self.now a b ind via.now }
        ensures in_range { result ≤ MOST_MILES }
    {
        greatest_allowance(self.filed(), a, b, ind, via)
    }
}

/// The miles that a record permits between two cities for an indicator.
pub(crate) fn mpm_in(a: City, b: City, ind: Indicator, one: &Record) -> Option<u32>
    ensures miles { result ≡ mpm_in a b ind one.now }
    ensures in_range { IfSome result (λ miles. miles ≤ MOST_MILES) }
{
    match one {
        Record::Mpm(filed) => {
            if same_pairs(filed.from, filed.to, a, b) && filed.ind.is(ind) {
                Some(filed.miles)
            } else {
                None
            }
        }
        _ => None,
    }
}

/// The maximum permitted mileage of an unordered pair of cities and an indicator.
#[tactic(auto, using(crate::proofs::FoundByKey::mpm_found))]
fn permitted_miles(filed: &Filed, a: City, b: City, ind: Indicator) -> Option<u32>
    ensures miles { result ≡ first_some (mpm_in a b ind) filed.now }
    ensures in_range { IfSome result (λ miles. miles ≤ MOST_MILES) }
{
    match filed.find(&Key::permitted(a, b, ind)) {
        None => None,
        Some(one) => mpm_in(a, b, ind, one),
    }
}

/// The ticketed point miles that a record files between two cities.
pub(crate) fn tpm_in(a: City, b: City, one: &Record) -> Option<u32>
    ensures miles { result ≡ tpm_in a b one.now }
    ensures in_range { IfSome result (λ miles. miles ≤ MOST_MILES) }
{
    match one {
        Record::Tpm(filed) => {
            if same_pairs(filed.from, filed.to, a, b) {
                Some(filed.miles)
            } else {
                None
            }
        }
        _ => None,
    }
}

/// The ticketed point mileage of an unordered pair of cities.
#[tactic(auto, using(crate::proofs::FoundByKey::tpm_found))]
fn ticketed_miles(filed: &Filed, a: City, b: City) -> Option<u32>
    ensures miles { result ≡ first_some (tpm_in a b) filed.now }
    ensures in_range { IfSome result (λ miles. miles ≤ MOST_MILES) }
{
    match filed.find(&Key::ticketed(a, b)) {
        None => None,
        Some(one) => tpm_in(a, b, one),
    }
}

/// The extra miles that a record allows, where it has a key.
fn extra_miles(key: &Key, one: &Record) -> u32
    ensures miles { result ≡ extra_miles key.now one.now }
    ensures in_range { result ≤ MOST_MILES }
{
    match one {
        Record::Ema(filed) => {
            if *key == Key::extra(filed.from, filed.to, filed.ind, filed.via) {
                filed.miles
            } else {
                0
            }
        }
        _ => 0,
    }
}

/// The greatest extra miles that records with a key allow.
fn greatest_extra(filed: &Filed, key: &Key) -> u32
    ensures miles { result ≡ greatest (extra_miles key.now) filed.now }
    ensures in_range { result ≤ MOST_MILES }
{
    let mut most = 0u32;
    let mut at = filed.first(key);
    while let Some(place) = at {
        most = most.max(extra_miles(key, &filed.records()[place]));
        at = filed.next(place);
    }
    most
}

/// The greatest extra mileage allowance of an unordered pair of cities and an indicator by way of some cities.
fn greatest_allowance(filed: &Filed, a: City, b: City, ind: Indicator, cities: &[City]) -> u32
    ensures miles { result ≡ greatest (allowance_in a b ind cities.now) filed.now }
    ensures in_range { result ≤ MOST_MILES }
{
    let mut most = greatest_extra(filed, &Key::extra(a, b, ind, None));
    for city in cities {
        most = most.max(greatest_extra(filed, &Key::extra(a, b, ind, Some(*city))));
    }
    most
}
