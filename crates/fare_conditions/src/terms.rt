//! Whether the terms of a fare's rule hold for a span. A rule that isn't filed has no terms, and none hold.

ghost use Rattle.std.specs.Prelude.{◌≡◌, ◌<◌, ◌≤◌, ◌&&◌, Some};
ghost use Rattle.fare_trip.specs.Itinerary.{count};
ghost use Rattle.fare_rules.specs.Terms.{allows_surcharge, terms_of_fare, stops_hold, transfers_hold, advance_days};
ghost use Rattle.fare_rules.specs.Terms.{advance_holds};
ghost use Rattle.fare_rules.specs.ComponentAmount.{is_allowed};
ghost use Rattle.fare_conditions.specs.Spans.{IsSpan};

use crate::span::Span;
use crate::spans::{stopovers, transfers};
use fare_tariff::{Edition, FareRec, Terms};
use fare_trip::Trip;

/// The terms of a fare.
pub fn terms_of_fare(edition: &Edition, fare: &FareRec) -> Option<Terms>
    ensures { result ≡ terms_of_fare edition.now fare.now }
{
    edition.terms(fare.rule)
}

/// Whether the interior stopovers of a span are not more than the rule of a fare allows; false where that rule
/// isn't filed.
#[tactic(auto, unfolding(fare_rules::specs::Terms::stops_hold))]
pub fn stops_hold(edition: &Edition, trip: &Trip, a: usize, b: usize, fare: &FareRec) -> bool
    requires rises { a < b }
    requires within { b ≤ count trip.now }
    ensures { result ≡ stops_hold edition.now trip.now a b fare.now }
{
    match terms_of_fare(edition, fare) {
        None => false,
        Some(asked) => stopovers(trip, a, b) <= asked.stops,
    }
}

/// Whether the interior transfers of a span are not more than the rule of a fare allows; false where that rule
/// isn't filed.
#[tactic(auto, unfolding(fare_rules::specs::Terms::transfers_hold))]
pub fn transfers_hold(edition: &Edition, trip: &Trip, a: usize, b: usize, fare: &FareRec) -> bool
    requires rises { a < b }
    requires within { b ≤ count trip.now }
    ensures { result ≡ transfers_hold edition.now trip.now a b fare.now }
{
    match terms_of_fare(edition, fare) {
        None => false,
        Some(asked) => transfers(trip, a, b) <= asked.transfers,
    }
}

/// The days from the sale day to the day of the trip's first sector.
fn advance_days(trip: &Trip) -> u32
    ensures { result ≡ advance_days trip.now }
{
    let count = trip.count();
    prove!(1 <= count);
    let first = trip.sector(1).day;
    first.number().saturating_sub(trip.sale().number())
}

/// Whether the trip is sold as many days ahead of its first sector as the rule of a fare asks; false where
/// that rule isn't filed.
#[tactic(auto, unfolding(fare_rules::specs::Terms::advance_holds))]
pub fn advance_holds(edition: &Edition, trip: &Trip, fare: &FareRec) -> bool
    ensures { result ≡ advance_holds edition.now trip.now fare.now }
{
    match terms_of_fare(edition, fare) {
        None => false,
        Some(asked) => asked.advance <= advance_days(trip),
    }
}

/// Whether terms allow a surcharge: one of 0, or any where they allow an excess.
fn allows_surcharge(step: u32, asked: Terms) -> bool
    ensures { result ≡ allows_surcharge step asked }
{
    step == 0 || asked.excess
}

/// Whether the rule of a fare allows a surcharge, where there is one: it allows one of 0, and any where it allows an
/// excess.
pub(crate) fn is_allowed(edition: &Edition, fare: &FareRec, surcharge: Option<u32>) -> bool
    ensures { result ≡ is_allowed edition.now fare.now surcharge }
{
    match (surcharge, terms_of_fare(edition, fare)) {
        (None, _) => true,
        (Some(_), None) => false,
        (Some(step), Some(asked)) => allows_surcharge(step, asked),
    }
}

/// Whether the terms of a fare's rule, which are these, hold for a span and allow its surcharge.
#[tactic(auto, unfolding(fare_rules::specs::Terms::stops_hold, fare_rules::specs::Terms::transfers_hold, fare_rules::specs::Terms::advance_holds))]
pub fn terms_allow(
    edition: &Edition,
    trip: &Trip,
    fare: &FareRec,
    asked: &Option<Terms>,
    span: &Span,
) -> bool
    requires span { IsSpan edition.now trip.now span.now }
    requires asked { asked.now ≡ terms_of_fare edition.now fare.now }
    ensures { result ≡ (stops_hold edition.now trip.now span.now.a span.now.b fare.now
        && transfers_hold edition.now trip.now span.now.a span.now.b fare.now
        && advance_holds edition.now trip.now fare.now && is_allowed edition.now fare.now (Some span.now.step)) }
{
    let _edition = edition;
    let _fare = fare;
    match asked {
        None => false,
        Some(asked) => {
            span.stops <= asked.stops
                && span.transfers <= asked.transfers
                && asked.advance <= advance_days(trip)
                && allows_surcharge(span.step, *asked)
        }
    }
}
