//! What parts cost at least, part by part and unit by unit.

ghost use Rattle.std.specs.Prelude.{◌≡◌, ℕ, ◌+◌, ◌*◌, ◌<◌, ◌≤◌, length, slice_index, sum_by};
ghost use Rattle.fare_trip.specs.Itinerary.{count};
ghost use Rattle.fare_rules.specs.Construction.{greatest_unit, places};
ghost use Rattle.fare_component.specs.Table.{IsInBounds};
ghost use Rattle.fare_lawful.specs.Advance.{Advances};
ghost use Rattle.fare_lawful.specs.Places.{IsPlace};
ghost use Rattle.fare_bounds.specs.Covers.{least_cost};
ghost use Rattle.fare_rules.specs.Numbers.{numbers};
ghost use Rattle.fare_floors.specs.Costs.{AreFloorsBefore, AreUnitFloors};
ghost use Rattle.fare_floors.specs.Costs.{or_nothing, fare_least, part_least, unit_least, unit_floor, units_floor};

use fare_bounds::{COST_LIMIT, least_cost};
use fare_component::{Entry, Table};
use fare_rules::Part;
use fare_units::{MOST_PARTS, part_at, shut_price, start_of};

/// One more than the greatest number of a unit: one for each of the parts, and a new one.
pub(crate) const MOST_UNITS: usize = 18;

/// What a unit costs at least is no more than this: as much as `MOST_PARTS` parts.
pub(crate) const UNIT_LIMIT: u64 = 32_000_000_000;

/// What an entry costs at least; 0 where nothing is known.
pub(crate) fn entry_least(entry: &Entry) -> u64
    requires { IsInBounds entry.now }
    ensures value { result ≡ or_nothing (least_cost entry.now) }
    ensures bound { result < COST_LIMIT }
{
    match least_cost(entry) {
        None => 0,
        Some(cost) => cost,
    }
}

/// What a fare costs at least for a span; 0 where it may not be used there.
fn fare_least(table: &Table, a: usize, b: usize, fare: u32) -> u64
    requires rises { a < b }
    requires within { b ≤ count table.now.trip }
    ensures value { result ≡ or_nothing (fare_least table.now.edition table.now.trip a b fare) }
    ensures bound { result < COST_LIMIT }
{
    for entry in table.entries(a, b) {
        if entry.fare == fare {
            return entry_least(entry);
        }
    }
    0
}

/// What a part costs at least.
fn part_least(table: &Table, parts: &[Part], k: usize) -> u64
    requires advances { Advances table.now.trip parts.now }
    requires place { IsPlace parts.now k }
    ensures value { result ≡ part_least table.now.edition table.now.trip parts.now k }
    ensures bound { result < COST_LIMIT }
{
    let part = part_at(parts, k);
    fare_least(
        table,
        start_of(table.trip(), parts, k),
        part.end as usize,
        part.fare,
    )
}

/// What the parts of a unit cost at least.
#[tactic(auto, using(crate::proofs::SumLemmas::own_sum_next, crate::proofs::SumLemmas::own_sum_over, crate::proofs::SumLemmas::own_sum_done), unfolding(fare_rules::specs::Construction::own))]
fn unit_least(table: &Table, parts: &[Part], unit: usize) -> u64
    requires advances { Advances table.now.trip parts.now }
    requires few { length parts.now ≤ MOST_PARTS }
    ensures value { result ≡ unit_least table.now.edition table.now.trip parts.now unit }
    ensures bound { result ≤ UNIT_LIMIT }
{
    let mut total = 0;
    for k in 1..parts.len() + 1 {
        if part_at(parts, k).unit as usize != unit {
            continue;
        }
        total += part_least(table, parts, k);
    }
    total
}

/// What a unit costs at least: its price where no part can come to it any more, and else what its parts cost at least.
#[tactic(auto, using(crate::proofs::ShutLemmas::floor_of_shut, crate::proofs::ShutLemmas::floor_of_open))]
fn unit_floor(table: &Table, parts: &[Part], unit: usize) -> u64
    requires advances { Advances table.now.trip parts.now }
    requires few { length parts.now ≤ MOST_PARTS }
    ensures value { result ≡ unit_floor table.now.edition table.now.trip parts.now unit }
    ensures bound { result ≤ UNIT_LIMIT }
{
    match shut_price(table, parts, unit) {
        None => unit_least(table, parts, unit),
        Some(price) => price,
    }
}

/// What some parts cost at least, whose greatest unit is given.
#[tactic(auto, using(fare_rules::proofs::NumberLemmas::sum_next, fare_rules::proofs::NumberLemmas::sum_done))]
pub(crate) fn units_floor(table: &Table, parts: &[Part], greatest: usize) -> u64
    requires advances { Advances table.now.trip parts.now }
    requires few { length parts.now ≤ MOST_PARTS }
    requires greatest { greatest ≡ greatest_unit parts.now (places parts.now) }
    requires few_units { greatest ≤ MOST_PARTS }
    ensures value { result ≡ units_floor table.now.edition table.now.trip parts.now }
    ensures bound { result ≤ 16 * UNIT_LIMIT }
{
    let mut total = 0;
    for unit in 1..greatest + 1 {
        total += unit_floor(table, parts, unit);
    }
    total
}

/// What each unit of some parts costs at least, by its number.
pub(crate) fn floors_of(table: &Table, parts: &[Part]) -> [u64; MOST_UNITS]
    requires advances { Advances table.now.trip parts.now }
    requires few { length parts.now ≤ MOST_PARTS }
    ensures { AreUnitFloors table.now.edition table.now.trip parts.now result }
{
    let mut floors = [0; MOST_UNITS];
    for unit in 1..MOST_UNITS {
        floors[unit] = unit_floor(table, parts, unit);
    }
    floors
}

/// The same by those of the parts without their last one: its unit alone is looked at anew.
pub(crate) fn floors_after(
    table: &Table,
    parts: &[Part],
    before: &[u64; MOST_UNITS],
) -> [u64; MOST_UNITS]
    requires advances { Advances table.now.trip parts.now }
    requires few { length parts.now ≤ MOST_PARTS }
    requires before { AreFloorsBefore table.now.edition table.now.trip parts.now before.now }
    ensures { AreUnitFloors table.now.edition table.now.trip parts.now result }
{
    let last = part_at(parts, parts.len()).unit as usize;
    let unit = last.min(MOST_UNITS - 1);
    let mut floors = *before;
    floors[unit] = unit_floor(table, parts, unit);
    floors
}

/// What the units up to a number cost at least.
pub(crate) fn spent_on(floors: &[u64; MOST_UNITS], greatest: usize) -> u64
    requires { greatest ≤ MOST_PARTS }
    ensures { (cost : ℕ → ℕ) → ((unit : ℕ) → 1 ≤ unit → unit ≤ greatest → slice_index floors.now unit ≡ cost unit)
        → result ≤ sum_by cost (numbers 1 (greatest + 1)) }
{
    let mut total: u64 = 0;
    for unit in 1..greatest + 1 {
        total = total.saturating_add(floors[unit]);
    }
    total
}
