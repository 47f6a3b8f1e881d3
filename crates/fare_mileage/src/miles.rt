//! The ticketed miles of a span, and the extra mileage allowance that is taken from them.

ghost use Rattle.std.specs.Prelude.{◌≡◌, ◌<◌, ◌≤◌, IfSome};
ghost use Rattle.fare_trip.specs.Itinerary.{count};
ghost use Rattle.fare_rules.specs.Span.{interior_cities};
ghost use Rattle.fare_rules.specs.Mileage.{sector_miles, has_no_tpm, miles_of_sector, first_without_tpm};
ghost use Rattle.fare_rules.specs.Mileage.{sum_of_miles, allowance_of};
ghost use Rattle.fare_mileage.specs.Miles.{AreInRange, AreMiles, miles_at};

use arrayvec::ArrayVec;
use fare_codes::{City, Indicator, MOST_SECTORS};
use fare_rules::MOST_POINTS;
use fare_tariff::{Edition, MOST_MILES};
use fare_trip::Trip;

/// The ticketed point mileage of a sector.
fn sector_miles(edition: &Edition, trip: &Trip, number: usize) -> Option<u32>
    requires from_one { 1 ≤ number }
    requires within { number ≤ count trip.now }
    ensures value { result ≡ sector_miles edition.now trip.now number }
    ensures bound { IfSome result (λ miles. miles ≤ MOST_MILES) }
{
    edition.tpm(trip.point(number - 1), trip.point(number))
}

/// The ticketed point mileages of the sectors of a trip from point `a` to point `b`, by their numbers.
#[tactic(auto, using(crate::proofs::Known::in_range_put))]
pub fn miles_between(
    edition: &Edition,
    trip: &Trip,
    a: usize,
    b: usize,
) -> [Option<u32>; MOST_POINTS]
    requires within { b ≤ count trip.now }
    ensures miles { AreMiles edition.now trip.now a b result }
    ensures in_range { AreInRange result }
{
    let count = trip.count();
    prove!(b <= count);
    let mut miles = [None; MOST_POINTS];
    for i in a..b {
        miles[i + 1] = sector_miles(edition, trip, i + 1);
    }
    miles
}

/// Whether a sector has no ticketed point mileage.
fn has_no_tpm(
    edition: &Edition,
    trip: &Trip,
    miles: &[Option<u32>; MOST_POINTS],
    number: usize,
) -> bool
    requires within { number < MOST_POINTS }
    requires known { miles_at miles.now number ≡ sector_miles edition.now trip.now number }
    ensures { result ≡ has_no_tpm edition.now trip.now number }
{
    let _edition = edition;
    let _trip = trip;
    miles[number].is_none()
}

/// The ticketed point mileage of a sector, 0 where it has none.
fn miles_of_sector(
    edition: &Edition,
    trip: &Trip,
    miles: &[Option<u32>; MOST_POINTS],
    number: usize,
) -> u32
    requires within { number < MOST_POINTS }
    requires known { miles_at miles.now number ≡ sector_miles edition.now trip.now number }
    requires in_range { AreInRange miles.now }
    ensures value { result ≡ miles_of_sector edition.now trip.now number }
    ensures bound { result ≤ MOST_MILES }
{
    let _edition = edition;
    let _trip = trip;
    match miles[number] {
        None => 0,
        Some(found) => found,
    }
}

/// The number of the first sector of a span that has no ticketed point mileage.
#[tactic(auto, using(fare_rules::proofs::NumberLemmas::find_next, fare_rules::proofs::NumberLemmas::find_done))]
pub(crate) fn first_without_tpm(
    edition: &Edition,
    trip: &Trip,
    miles: &[Option<u32>; MOST_POINTS],
    a: usize,
    b: usize,
) -> Option<u32>
    requires short { b ≤ MOST_SECTORS }
    requires miles { AreMiles edition.now trip.now a b miles.now }
    ensures { result ≡ first_without_tpm edition.now trip.now a b }
{
    for i in a..b {
        if has_no_tpm(edition, trip, miles, i + 1) {
            return Some(i as u32 + 1);
        }
    }
    None
}

/// The sum of the ticketed point mileages of a span.
#[tactic(auto, using(fare_rules::proofs::NumberLemmas::sum_next, fare_rules::proofs::NumberLemmas::sum_done), unfolding(fare_rules::specs::Mileage::sum_of_miles))]
pub(crate) fn sum_of_miles(
    edition: &Edition,
    trip: &Trip,
    miles: &[Option<u32>; MOST_POINTS],
    a: usize,
    b: usize,
) -> u32
    requires short { b ≤ MOST_SECTORS }
    requires miles { AreMiles edition.now trip.now a b miles.now }
    requires in_range { AreInRange miles.now }
    ensures { result ≡ sum_of_miles edition.now trip.now a b }
{
    let mut sum = 0;
    for i in a..b {
        sum += miles_of_sector(edition, trip, miles, i + 1);
    }
    sum
}

/// The cities of the interior points of a span.
#[tactic(auto, using(crate::proofs::Cities::cities_next, crate::proofs::Cities::cities_done))]
fn interior_cities(trip: &Trip, a: usize, b: usize) -> ArrayVec<City, MOST_SECTORS>
    requires rises { a < b }
    requires within { b ≤ count trip.now }
    requires short { b ≤ MOST_SECTORS }
    ensures { result.items ≡ interior_cities trip.now a b }
{
    let mut cities = ArrayVec::new();
    for i in a + 1..b {
        cities.push(trip.point(i));
    }
    cities
}

/// The extra mileage allowance of a span for an indicator.
pub(crate) fn allowance_of(
    edition: &Edition,
    trip: &Trip,
    a: usize,
    b: usize,
    ind: Indicator,
) -> u32
    requires rises { a < b }
    requires within { b ≤ count trip.now }
    requires short { b ≤ MOST_SECTORS }
    ensures { result ≡ allowance_of edition.now trip.now a b ind }
{
    let via = interior_cities(trip, a, b);
    edition.allowance(trip.point(a), trip.point(b), ind, via.as_slice())
}
