//! The miles of a drill.

ghost use Rattle.std.specs.Prelude.{◌≡◌, ◌+◌, ◌-◌, ◌<◌, ◌≤◌, ◌++◌, OnOk, length, map, min, take, vec_capacity, vec_len};
ghost use Rattle.std.specs.List.{enumerate_from, range_with_len};
ghost use Rattle.fare_drill.specs.Cities.{extra_city};
ghost use Rattle.fare_drill.specs.Miles.{NumberPair, pairs, pairs_from, permitted, ticketed, extra_miles};

use crate::cities::city;
use crate::pair::Pair;
use fare_codes::{City, Indicator};
use fare_ports::NoMemory;
use fare_tariff::{MileRec, PairRec, Record};

/// Appends the permitted miles of pairs of cities.
#[tactic(auto, using(crate::proofs::Growing::listed_more))]
pub(crate) fn push_permitted(records: &mut Vec<Record>, pairs: &[Pair]) -> Result<(), NoMemory>
    ensures { OnOk result (records.new.items ≡ records.old.items ++ map permitted pairs.now) }
{
    for pair in pairs {
        records.push(permitted(*pair))?;
    }
    Ok(())
}

/// Appends the ticketed point miles of pairs of cities.
#[tactic(auto, using(crate::proofs::Growing::listed_more))]
pub(crate) fn push_ticketed(records: &mut Vec<Record>, pairs: &[Pair]) -> Result<(), NoMemory>
    ensures { OnOk result (records.new.items ≡ records.old.items ++ map ticketed pairs.now) }
{
    for pair in pairs {
        records.push(ticketed(*pair))?;
    }
    Ok(())
}

/// Appends the miles between the first so many pairs of the extra cities.
pub(crate) fn push_extra_miles(
    records: &mut Vec<Record>,
    cities: &[City],
    extra: usize,
) -> Result<(), NoMemory>
    requires { cities.now ≡ map extra_city (range_with_len 0 (length cities.now)) }
    ensures { OnOk result (records.new.items
        ≡ records.old.items ++ map extra_miles (enumerate_from 0 (take extra (pairs (length cities.now))))) }
{
    records.reserve(extra)?;
    let mut number = 0;
    for first in 0..cities.len() {
        number = push_miles_from(records, cities, first, number, extra);
    }
    Ok(())
}

/// Appends the miles between an extra city and each later one, numbered from `start` on, as long as the numbers are
/// below `end`. There is room for them. The result is the number behind theirs.
fn push_miles_from(
    records: &mut Vec<Record>,
    cities: &[City],
    first: usize,
    start: usize,
    end: usize,
) -> usize
    requires cities { cities.now ≡ map extra_city (range_with_len 0 (length cities.now)) }
    requires one { first < length cities.now }
    requires numbers { start ≤ end }
    requires room { vec_len records.old + (end - start) ≤ vec_capacity records.old }
    ensures records { records.new.items ≡ records.old.items
        ++ map extra_miles (enumerate_from start (take (end - start) (pairs_from (length cities.now) first))) }
    ensures number { result ≡ min end (start + (length cities.now - (first + 1))) }
    ensures room { vec_len records.new + (end - result) ≤ vec_capacity records.new }
{
    let count = (end - start).min(cities.len() - first - 1);
    for k in 0..count {
        let miles = extra_miles(start + k, cities[first], cities[first + 1 + k]);
        records.push_reserved(miles);
    }
    start + count
}

/// The permitted miles of a pair of cities: 120 for each step of distance.
fn permitted(pair: Pair) -> Record
    ensures { result ≡ permitted pair }
{
    Record::Mpm(MileRec {
        from: city(pair.first),
        to: city(pair.second),
        ind: Indicator::EH,
        miles: 120 * (pair.second - pair.first),
    })
}

/// The ticketed point miles of a pair of cities: 100 for each step of distance.
fn ticketed(pair: Pair) -> Record
    ensures { result ≡ ticketed pair }
{
    Record::Tpm(PairRec {
        from: city(pair.first),
        to: city(pair.second),
        miles: 100 * (pair.second - pair.first),
    })
}

/// The ticketed point miles of the pair of extra cities that has a number among them.
fn extra_miles(number: usize, from: City, to: City) -> Record
    ensures { (p : NumberPair) → from ≡ extra_city p.first → to ≡ extra_city p.second
        → result ≡ extra_miles (number, p) }
{
    Record::Tpm(PairRec {
        from,
        to,
        miles: 1 + (number % 9_999) as u32,
    })
}
