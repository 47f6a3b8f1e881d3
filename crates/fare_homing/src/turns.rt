//! Turns: what the circle minima of a trip may be, by the references of its fares.

ghost use Rattle.std.specs.Prelude.{◌≤◌, ◌<◌};
ghost use Rattle.fare_trip.specs.Itinerary.{count};

use fare_component::Table;
use fare_legs::Ceiling;
use fare_points::reference;
use fare_trip::Trip;

/// Whether a unit may begin in the city of a point at another or before it.
fn has_begun(trip: &Trip, home: usize, a: usize) -> bool
    requires home { home ≤ count trip.now }
    requires start { a ≤ count trip.now }
{
    let count = trip.count();
    prove!(home <= count);
    prove!(a <= count);
    for start in 0..a + 1 {
        if trip.point(start).is(trip.point(home)) {
            return true;
        }
    }
    false
}

/// The greater of a number and twice the reference of a fare from the city of a point to where its part ends, where
/// that is no more than a ceiling.
fn greater_turn(
    table: &Table,
    ceiling: Ceiling,
    a: usize,
    b: usize,
    home: usize,
    number: u32,
    greatest: u64,
) -> u64
    requires rises { a < b }
    requires within { b ≤ count table.now.trip }
    requires home { home ≤ count table.now.trip }
{
    let (edition, trip) = (table.edition(), table.trip());
    let sectors = trip.count();
    prove!(b <= sectors);
    prove!(home <= sectors);
    let Some(fare) = edition.fare_at(number) else {
        return greatest;
    };
    let on = trip.sector(a + 1).day;
    let found = reference(
        edition,
        trip.point(home),
        trip.point(b),
        ceiling.indicator,
        fare,
        on,
    );
    match found {
        Some(amount) if 2 * amount.hundredths() <= ceiling.price => {
            greatest.max(2 * amount.hundredths())
        }
        _ => greatest,
    }
}

/// The greatest for the parts over a span, in units that come home behind it.
fn greatest_over(table: &Table, ceiling: Ceiling, a: usize, b: usize, greatest: u64) -> u64
    requires rises { a < b }
    requires within { b ≤ count table.now.trip }
{
    let trip = table.trip();
    let count = trip.count();
    prove!(b <= count);
    let mut most = greatest;
    for home in b + 1..count + 1 {
        if !has_begun(trip, home, a) {
            continue;
        }
        for entry in table.entries(a, b) {
            most = greater_turn(table, ceiling, a, b, home, entry.fare, most);
        }
    }
    most
}

/// The greatest number up to a ceiling that is twice the reference of a part between the first and the last of a unit,
/// from the city where the unit comes home; 0 where there is none.
pub fn greatest_turn(table: &Table, ceiling: Ceiling) -> u64 {
    let count = table.trip().count();
    let mut greatest = 0;
    for a in 0..count {
        for b in a + 1..count + 1 {
            greatest = greatest_over(table, ceiling, a, b, greatest);
        }
    }
    greatest
}
