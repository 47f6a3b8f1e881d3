//! Owed: what a unit of two parts that closes costs at least behind its first part. A round trip costs as much again, and
//! a circle trip no less than twice the reference to where its first part ends.

ghost use Rattle.std.specs.Prelude.{◌≡◌, ℕ, ◌<◌, ◌≤◌, true, false};
ghost use Rattle.fare_trip.specs.Itinerary.{count};
ghost use Rattle.fare_rules.specs.Indicator.{indicator};
ghost use Rattle.fare_bounds.specs.Covers.{rest_at};
ghost use Rattle.fare_component.specs.Table.{entries_of};
ghost use Rattle.fare_legs.specs.Costs.{IsUpTo, is_same_city};
ghost use Rattle.fare_legs.specs.Least.{IsUnderEach};
ghost use Rattle.fare_legs.specs.Owed.{AreOwed, owed_above, owed_by, reference_over};

use crate::floor::{Floor, NOTHING, greater, lesser, number_at};
use crate::legs::half_cost;
use fare_codes::{Indicator, Nuc};
use fare_component::{Entry, Table};
use fare_points::{indicator, reference};
use fare_rules::MOST_POINTS;
use fare_trip::Trip;

/// The reference of a fare over a span of an indicator, from the city where that begins to the one where it ends.
fn reference_over(table: &Table, a: usize, b: usize, ind: Indicator, number: u32) -> Option<Nuc>
    requires rises { a < b }
    requires within { b ≤ count table.now.trip }
    requires ind { ind ≡ indicator table.now.edition table.now.trip a b }
    ensures { result ≡ reference_over table.now.edition table.now.trip a b number }
{
    let (edition, trip) = (table.edition(), table.trip());
    let sectors = trip.count();
    prove!(b <= sectors);
    let Some(fare) = edition.fare_at(number) else {
        return None;
    };
    let on = trip.sector(a + 1).day;
    reference(edition, trip.point(a), trip.point(b), ind, fare, on)
}

/// What a unit owes behind a first part that costs so much: as much again, or what twice the reference to where it ends
/// is above it, whichever is less.
fn owed_above(out: u64, reference: Option<Nuc>) -> u64
    ensures { result ≡ owed_above out reference }
{
    match reference {
        None => 0,
        Some(amount) => out.min((2 * amount.hundredths()).saturating_sub(out)),
    }
}

/// What a unit owes behind a first part with an entry of a span; nothing where that can't be one.
fn owed_by(table: &Table, a: usize, b: usize, ind: Indicator, entry: &Entry) -> Option<u64>
    requires rises { a < b }
    requires within { b ≤ count table.now.trip }
    requires ind { ind ≡ indicator table.now.edition table.now.trip a b }
    ensures { result ≡ owed_by table.now.edition table.now.trip a b entry.now }
{
    match half_cost(entry, &entry.out) {
        None => None,
        Some(out) => Some(owed_above(out, reference_over(table, a, b, ind, entry.fare))),
    }
}

/// What a unit owes at least behind a first part over a span.
fn least_owed(table: &Table, a: usize, b: usize) -> Floor
    requires rises { a < b }
    requires within { b ≤ count table.now.trip }
    ensures { IsUnderEach (owed_by table.now.edition table.now.trip a b)
        (entries_of table.now.edition table.now.trip a b) result }
{
    let ind = indicator(table.edition(), table.trip(), a, b);
    let mut least = NOTHING;
    for entry in table.entries(a, b) {
        least = lesser(least, Floor::of(owed_by(table, a, b, ind, entry)));
    }
    least
}

/// Whether the city of a point comes again behind another.
fn comes_again(trip: &Trip, a: usize, stand: usize) -> bool
    requires city { a ≤ count trip.now }
    requires stand { stand < count trip.now }
    ensures { result ≡ false → (home : ℕ) → stand < home → home ≤ count trip.now
        → is_same_city trip.now a home ≡ false }
{
    let count = trip.count();
    prove!(a <= count);
    for home in stand + 1..count + 1 {
        if trip.point(home).is(trip.point(a)) {
            return true;
        }
    }
    false
}

/// A row by the points where a unit closes, lowered to a number behind a point where its city comes again.
fn lowered_in(
    trip: &Trip,
    row: &[Floor; MOST_POINTS],
    a: usize,
    stand: usize,
    number: Floor,
) -> [Floor; MOST_POINTS]
    requires city { a ≤ count trip.now }
    requires stand { stand < count trip.now }
    ensures kept { (home most : ℕ) → IsUpTo most (rest_at row.now home) → IsUpTo most (rest_at result home) }
    ensures here { (home most : ℕ) → stand < home → home ≤ count trip.now → is_same_city trip.now a home ≡ true
        → IsUpTo most number → IsUpTo most (rest_at result home) }
{
    let count = trip.count();
    prove!(a <= count);
    let mut lowered = *row;
    for home in stand + 1..count + 1 {
        if trip.point(home).is(trip.point(a)) {
            lowered[home] = lesser(number_at(&lowered, home), number);
        }
    }
    lowered
}

/// What a unit of two parts owes at least behind its first part, which ends at a point, by the points where it closes.
pub fn owed_from(table: &Table, stand: usize) -> [Floor; MOST_POINTS]
    requires { stand < count table.now.trip }
    ensures { AreOwed table.now.edition table.now.trip stand (rest_at result) }
{
    let trip = table.trip();
    let _sectors = trip.count();
    let mut row = [NOTHING; MOST_POINTS];
    for a in 0..stand {
        if comes_again(trip, a, stand) {
            row = lowered_in(trip, &row, a, stand, least_owed(table, a, stand));
        }
    }
    row
}

/// What the second part of a unit costs at least by where it ends: no less than what is owed.
pub fn raised(row: &[Floor; MOST_POINTS], owed: &[Floor; MOST_POINTS]) -> [Floor; MOST_POINTS]
    ensures { (home x y cost : ℕ) → IsUpTo x (rest_at row.now home) → IsUpTo y (rest_at owed.now home) → x ≤ cost
        → y ≤ cost → IsUpTo cost (rest_at result home) }
{
    let mut raised = [NOTHING; MOST_POINTS];
    for home in 0..MOST_POINTS {
        let here = number_at(row, home);
        let least = number_at(owed, home);
        raised[home] = greater(here, least);
    }
    raised
}
