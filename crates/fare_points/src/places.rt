ghost use Rattle.std.specs.Prelude.{◌≡◌, ◌≤◌, is_none};
ghost use Rattle.fare_trip.specs.Itinerary.{count};
ghost use Rattle.fare_rules.specs.Span.{is_unplaced, placed};

use fare_codes::City;
use fare_tariff::Edition;
use fare_trip::Trip;

/// Whether an edition has no record of the city of a point.
fn is_unplaced(edition: &Edition, trip: &Trip, i: usize) -> bool
    requires within { i ≤ count trip.now }
    ensures { result ≡ is_unplaced edition.now trip.now i }
{
    edition.city(trip.point(i)).is_none()
}

/// The city of the first point of a trip that has no record in an edition; nothing exactly where every point has one.
#[tactic(auto, using(fare_rules::proofs::NumberLemmas::find_next, fare_rules::proofs::NumberLemmas::find_done), unfolding(fare_rules::specs::Span::placed))]
pub fn placed(edition: &Edition, trip: &Trip) -> Option<City>
    ensures { result ≡ placed edition.now trip.now }
{
    let points = trip.count() + 1;
    for i in 0..points {
        if is_unplaced(edition, trip, i) {
            return Some(trip.point(i));
        }
    }
    None
}
