ghost use Rattle.std.specs.Prelude.{◌≡◌, ◌+◌, ◌<◌, ◌≤◌, slice_index, EachIndex};
ghost use Rattle.fare_trip.specs.Itinerary.{count};
ghost use Rattle.fare_rules.specs.Indicator.{indicator, indicator_of};
ghost use Rattle.fare_points.specs.Stretch.{AreIndicatorsFrom};

use crate::crossings::Crossings;
use crate::stretch::Stretch;
use fare_codes::Indicator;
use fare_rules::MOST_POINTS;
use fare_tariff::Edition;
use fare_trip::Trip;

/// The global indicator of the sectors of a trip from point `a` to point `b`, by the oceans that they cross.
pub fn indicator(edition: &Edition, trip: &Trip, a: usize, b: usize) -> Indicator
    requires rises { a < b }
    requires within { b ≤ count trip.now }
    ensures { result ≡ indicator edition.now trip.now a b }
{
    let mut stretch = Stretch::at(edition, trip, a);
    for i in a..b {
        stretch = stretch.next(edition, trip, a, i);
    }
    stretch.indicator(edition, trip, a, b)
}

/// The global indicators of the spans of a trip from point `a` to each later one up to point `b`, by the points where
/// they end.
pub fn indicators_from(
    edition: &Edition,
    trip: &Trip,
    a: usize,
    b: usize,
) -> [Indicator; MOST_POINTS]
    requires rises { a < b }
    requires within { b ≤ count trip.now }
    ensures { AreIndicatorsFrom edition.now trip.now a (b + 1) result }
{
    let count = trip.count();
    prove!(b <= count);
    let mut row = [Indicator::WH; MOST_POINTS];
    let mut stretch = Stretch::at(edition, trip, a);
    for j in a..b {
        stretch = stretch.next(edition, trip, a, j);
        row[j + 1] = stretch.indicator(edition, trip, a, j + 1);
    }
    row
}

/// The global indicator of some sectors of a trip, which need not be a span, by the oceans that they cross.
#[tactic(auto, using(crate::proofs::Scans::any_more, crate::proofs::Scans::any_all, crate::proofs::Scans::every_more, crate::proofs::Scans::every_all), unfolding(fare_rules::specs::Indicator::indicator_of))]
pub fn indicator_of(edition: &Edition, trip: &Trip, sectors: &[usize]) -> Indicator
    requires from_one { EachIndex sectors.now (λ k. 1 ≤ slice_index sectors.now k) }
    requires within { EachIndex sectors.now (λ k. slice_index sectors.now k ≤ count trip.now) }
    ensures { result ≡ indicator_of edition.now trip.now sectors.now }
{
    let mut met = Crossings::none();
    for number in sectors {
        met = met.and(Crossings::of(edition, trip, *number));
    }
    met.indicator()
}
