ghost use Rattle.std.specs.Prelude.{◌≡◌, ◌<◌, ◌≤◌, ◌*◌, IfSome, None, if◌then◌else◌};
ghost use Rattle.fare_trip.specs.Itinerary.{count};
ghost use Rattle.fare_rules.specs.Span.{is_stopover};
ghost use Rattle.fare_rules.specs.Indicator.{indicator};
ghost use Rattle.fare_rules.specs.Backhaul.{reference_to, greatest_reference, minimum_above, backhaul};

use crate::indicators::indicators_from;
use crate::references::reference;
use fare_codes::{FARE_LIMIT, Indicator, Nuc, greater};
use fare_tariff::{Edition, FareRec};
use fare_trip::Trip;

/// The reference from the start of a component to a point, whose indicator is this, on the day of the component's first
/// sector.
fn reference_to(
    edition: &Edition,
    trip: &Trip,
    ind: Indicator,
    a: usize,
    j: usize,
    fare: &FareRec,
) -> Option<Nuc>
    requires rises { a < j }
    requires within { j ≤ count trip.now }
    requires indicator { ind ≡ indicator edition.now trip.now a j }
    ensures value { result ≡ reference_to edition.now trip.now a fare.now j }
    ensures bound { IfSome result (λ amount. amount < FARE_LIMIT) }
{
    let on = trip.sector(a + 1).day;
    reference(edition, trip.point(a), trip.point(j), ind, fare, on)
}

/// The reference from the start of a component to a point, whose indicator is this, where that is a stopover.
fn reference_to_stopover(
    edition: &Edition,
    trip: &Trip,
    ind: Indicator,
    a: usize,
    j: usize,
    fare: &FareRec,
) -> Option<Nuc>
    requires rises { a < j }
    requires within { j ≤ count trip.now }
    requires indicator { ind ≡ indicator edition.now trip.now a j }
    ensures value { result ≡ (if is_stopover trip.now j then reference_to edition.now trip.now a fare.now j else None) }
    ensures bound { IfSome result (λ amount. amount < FARE_LIMIT) }
{
    if trip.sector(j).stop {
        reference_to(edition, trip, ind, a, j, fare)
    } else {
        None
    }
}

/// The greatest reference from the start of a component to an interior stopover.
#[tactic(auto, using(crate::proofs::Ranges::greatest_next, crate::proofs::Ranges::greatest_none, fare_rules::proofs::NumberLemmas::greater_grouped), unfolding(fare_rules::specs::Backhaul::greatest_reference))]
fn greatest_reference(
    edition: &Edition,
    trip: &Trip,
    a: usize,
    b: usize,
    fare: &FareRec,
) -> Option<Nuc>
    requires rises { a < b }
    requires within { b ≤ count trip.now }
    ensures value { result ≡ greatest_reference edition.now trip.now a b fare.now }
    ensures bound { IfSome result (λ amount. amount < FARE_LIMIT) }
{
    let count = trip.count();
    prove!(b <= count);
    let inds = indicators_from(edition, trip, a, b);
    let mut greatest = None;
    for j in a + 1..b {
        let found = reference_to_stopover(edition, trip, inds[j], a, j, fare);
        greatest = greater(greatest, found);
    }
    greatest
}

/// The minimum of a lower and a higher amount: the higher one and their difference; nothing where it isn't higher.
pub fn minimum_above(low: Nuc, high: Nuc) -> Option<Nuc>
    requires low { low < FARE_LIMIT }
    requires high { high < FARE_LIMIT }
    ensures value { result ≡ minimum_above low high }
    ensures bound { IfSome result (λ minimum. minimum < 2 * FARE_LIMIT) }
{
    let (low, high) = (low.hundredths(), high.hundredths());
    if low < high {
        Some(Nuc::new(high + (high - low)))
    } else {
        None
    }
}

/// The backhaul minimum of a one way fare from point `a` to point `b`: where a reference from `a` to an interior
/// stopover is above the fare's amount, the greatest one and its difference from the amount; nothing exactly where
/// none is above it.
#[tactic(auto, unfolding(fare_rules::specs::Backhaul::backhaul))]
pub fn backhaul(edition: &Edition, trip: &Trip, a: usize, b: usize, fare: &FareRec) -> Option<Nuc>
    requires rises { a < b }
    requires within { b ≤ count trip.now }
    ensures value { result ≡ backhaul edition.now trip.now a b fare.now }
    ensures bound { IfSome result (λ minimum. minimum < 2 * FARE_LIMIT) }
{
    let high = greatest_reference(edition, trip, a, b, fare)?;
    minimum_above(fare.amount.nuc(), high)
}
