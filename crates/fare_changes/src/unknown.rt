//! The points of a trip that neither of two editions knows.

ghost use Rattle.std.specs.Prelude.{◌≡◌, ◌≤◌};
ghost use Rattle.fare_trip.specs.Itinerary.{count};
ghost use Rattle.fare_changes.specs.Compared.{is_unknown, unknown_place};

use fare_codes::City;
use fare_tariff::Edition;
use fare_trip::Trip;

/// Whether neither edition has a record of the city of a point.
fn is_unknown(old: &Edition, new: &Edition, trip: &Trip, i: usize) -> bool
    requires { i ≤ count trip.now }
    ensures { result ≡ is_unknown old.now new.now trip.now i }
{
    let city = trip.point(i);
    old.city(city).is_none() && new.city(city).is_none()
}

/// The city of the first point that has no record in either edition; nothing exactly where each has one in one of them.
#[tactic(auto, using(fare_rules::proofs::NumberLemmas::find_next, fare_rules::proofs::NumberLemmas::find_done), unfolding(crate::specs::Compared::unknown_place))]
pub(crate) fn unknown_place(old: &Edition, new: &Edition, trip: &Trip) -> Option<City>
    ensures { result ≡ unknown_place old.now new.now trip.now }
{
    let points = trip.count() + 1;
    for i in 0..points {
        if is_unknown(old, new, trip, i) {
            return Some(trip.point(i));
        }
    }
    None
}
