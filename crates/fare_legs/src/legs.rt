//! Legs: what the parts from a point of a trip cost at least, by what a part is in its unit.

ghost use Rattle.std.specs.Prelude.{◌≡◌, ◌≤◌, ◌++◌, ◌∷◌, [], List, option_map};
ghost use Rattle.fare_trip.specs.Itinerary.{count};
ghost use Rattle.fare_component.specs.declared.table.entry.Entry.{Entry};
ghost use Rattle.fare_bounds.specs.Covers.{hundredths_of};
ghost use Rattle.fare_legs.specs.Costs.{half_cost, single_cost};
ghost use Rattle.fare_legs.specs.Legs.{AreLeastOf, AreLegsBehind, AreLegsOf};

use crate::barred::{is_barred, unless};
use crate::floor::{Floor, NOTHING, lesser};
use fare_bounds::begin_after;
use fare_component::{Amount, Entry, Table};
use fare_rules::MOST_POINTS;
use fare_tariff::Edition;

/// What a part costs at least, by what it is in its unit.
#[derive(Clone, Copy)]
struct Least {
    /// A one way fare, alone in it.
    alone: Floor,
    /// The first of its parts.
    first: Floor,
    /// The last of its parts.
    last: Floor,
}

/// What the parts from a point cost at least, by the points where they end, for each that a part is in its unit.
#[derive(Clone, Copy)]
pub struct LegRows {
    /// A one way fare, alone in it.
    pub alone: [Floor; MOST_POINTS],
    /// The first of its parts.
    pub first: [Floor; MOST_POINTS],
    /// The last of its parts.
    pub last: [Floor; MOST_POINTS],
}

impl LegRows {
    /// What the last part of a unit costs at least, by the points where it ends.
    pub fn last_row(&self) -> [Floor; MOST_POINTS]
        ensures { result ≡ self.now.last }
    {
        self.last
    }
}

/// The hundredths of a component amount.
fn hundredths_of(found: &Option<Amount>) -> Option<u64>
    ensures { result ≡ option_map hundredths_of found.now }
{
    match found {
        None => None,
        Some(found) => Some(found.amount.hundredths()),
    }
}

/// What a part alone in its unit costs with an entry.
fn single_cost(entry: &Entry) -> Option<u64>
    ensures { result ≡ single_cost entry.now }
{
    match entry.single {
        None => None,
        Some(price) => Some(price.hundredths()),
    }
}

/// What a part of a unit of half round trips costs with an entry, by one of its amounts.
pub fn half_cost(entry: &Entry, found: &Option<Amount>) -> Option<u64>
    ensures { result ≡ half_cost entry.now (option_map hundredths_of found.now) }
{
    if entry.single.is_some() {
        None
    } else {
        hundredths_of(found)
    }
}

/// What a part costs at least by some entries, where it is known by all but the last, unless its fare is barred.
fn lesser_with(edition: &Edition, barred: &[u32], least: Least, entry: &Entry) -> Least
    ensures { (entries : List Entry) → AreLeastOf edition.now barred.now entries least
        → AreLeastOf edition.now barred.now (entries ++ entry.now ∷ []) result }
{
    let out_of_use = is_barred(edition, barred, entry.fare);
    let alone = unless(out_of_use, single_cost(entry));
    let first = unless(out_of_use, half_cost(entry, &entry.out));
    let last = unless(out_of_use, half_cost(entry, &entry.back));
    Least {
        alone: lesser(least.alone, Floor::of(alone)),
        first: lesser(least.first, Floor::of(first)),
        last: lesser(least.last, Floor::of(last)),
    }
}

/// What a part costs at least by some entries, unless its fare is barred.
fn cheapest(edition: &Edition, barred: &[u32], entries: &[Entry]) -> Least
    ensures { AreLeastOf edition.now barred.now entries.now result }
{
    let mut least = Least {
        alone: NOTHING,
        first: NOTHING,
        last: NOTHING,
    };
    for entry in entries {
        least = lesser_with(edition, barred, least, entry);
    }
    least
}

/// The least that the parts from a point cost, unless their fares are barred.
fn legs(table: &Table, barred: &[u32], a: usize) -> LegRows
    requires { a ≤ count table.now.trip }
    ensures { AreLegsOf table.now.edition table.now.trip barred.now a result }
{
    let count = table.trip().count();
    let none = [NOTHING; MOST_POINTS];
    let mut legs = LegRows {
        alone: none,
        first: none,
        last: none,
    };
    for b in a + 1..count + 1 {
        let least = cheapest(table.edition(), barred, table.entries(a, b));
        legs.alone[b] = least.alone;
        legs.first[b] = least.first;
        legs.last[b] = least.last;
    }
    legs
}

/// The least that the parts behind each point cost, unless their fares are barred.
pub fn legs_behind(table: &Table, barred: &[u32]) -> [LegRows; MOST_POINTS]
    ensures { AreLegsBehind table.now.edition table.now.trip barred.now result }
{
    let trip = table.trip();
    let none = LegRows {
        alone: [NOTHING; MOST_POINTS],
        first: [NOTHING; MOST_POINTS],
        last: [NOTHING; MOST_POINTS],
    };
    let mut rows = [none; MOST_POINTS];
    for i in 0..trip.count() {
        rows[i] = legs(table, barred, begin_after(trip, i));
    }
    rows
}
