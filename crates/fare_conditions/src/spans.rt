//! What a span must be to be a component, and how many stopovers and transfers it has.

ghost use Rattle.std.specs.Prelude.{◌≡◌, ◌<◌, ◌≤◌, length};
ghost use Rattle.fare_trip.specs.Itinerary.{count};
ghost use Rattle.fare_rules.specs.Span.{holds_surface, stopovers, transfers};
ghost use Rattle.fare_rules.specs.ComponentAmount.{is_repeated, repeats_city};

use fare_trip::Trip;

/// Whether a span holds a surface sector.
#[tactic(auto, using(fare_rules::proofs::NumberLemmas::any_next, fare_rules::proofs::NumberLemmas::any_done))]
pub fn holds_surface(trip: &Trip, a: usize, b: usize) -> bool
    requires within { b ≤ count trip.now }
    ensures { result ≡ holds_surface trip.now a b }
{
    for i in a..b {
        if trip.sector(i + 1).surface {
            return true;
        }
    }
    false
}

/// Whether a point is the city of an earlier point of a span that begins at another.
#[tactic(auto, using(fare_rules::proofs::NumberLemmas::any_next, fare_rules::proofs::NumberLemmas::any_done))]
fn is_repeated(trip: &Trip, a: usize, i: usize) -> bool
    requires within { i ≤ count trip.now }
    ensures { result ≡ is_repeated trip.now a i }
{
    for j in a..i {
        if trip.point(i).is(trip.point(j)) {
            return true;
        }
    }
    false
}

/// Whether two points of a span are one city.
#[tactic(auto, using(fare_rules::proofs::NumberLemmas::any_next, fare_rules::proofs::NumberLemmas::any_done), unfolding(fare_rules::specs::ComponentAmount::repeats_city))]
pub fn repeats_city(trip: &Trip, a: usize, b: usize) -> bool
    requires within { b ≤ count trip.now }
    ensures { result ≡ repeats_city trip.now a b }
{
    let count = trip.count();
    prove!(b <= count);
    for i in a..b + 1 {
        if is_repeated(trip, a, i) {
            return true;
        }
    }
    false
}

/// How many interior stopovers a span has.
#[tactic(auto, using(crate::proofs::Counts::count_next, crate::proofs::Counts::count_done))]
pub(crate) fn stopovers(trip: &Trip, a: usize, b: usize) -> u32
    requires rises { a < b }
    requires within { b ≤ count trip.now }
    ensures { result ≡ length (stopovers trip.now a b) }
{
    let count = trip.count();
    prove!(b <= count);
    let mut found = 0;
    for i in a + 1..b {
        if trip.sector(i).stop {
            found += 1;
        }
    }
    found
}

/// How many interior transfers a span has.
#[tactic(auto, using(crate::proofs::Counts::count_next, crate::proofs::Counts::count_done))]
pub(crate) fn transfers(trip: &Trip, a: usize, b: usize) -> u32
    requires rises { a < b }
    requires within { b ≤ count trip.now }
    ensures { result ≡ length (transfers trip.now a b) }
{
    let count = trip.count();
    prove!(b <= count);
    let mut found = 0;
    for i in a + 1..b {
        if !trip.sector(i).stop {
            found += 1;
        }
    }
    found
}
