//! Whether a fare may be used for a span, whatever its mileage.

ghost use Rattle.std.specs.Prelude.{◌≡◌, ◌≤◌, ◌&&◌, not};
ghost use Rattle.fare_trip.specs.Itinerary.{count};
ghost use Rattle.fare_rules.specs.Span.{holds_surface};
ghost use Rattle.fare_rules.specs.ComponentAmount.{repeats_city};
ghost use Rattle.fare_conditions.specs.Spans.{IsSpan};
ghost use Rattle.fare_conditions.specs.Usable.{is_for_span, is_usable};

use crate::component::Component;
use crate::fares::{
    covers_cabins, covers_carriers, has_carrier, has_indicator, has_rank, in_season, may_be_priced,
    runs_between,
};
use crate::span::Span;
use crate::spans::{holds_surface, repeats_city};
use crate::terms::{advance_holds, stops_hold, transfers_hold};
use fare_tariff::{Edition, FareRec};
use fare_trip::Trip;

/// Whether a span can be a component: it holds no surface sector and no city twice.
pub fn is_plain(trip: &Trip, a: usize, b: usize) -> bool
    requires within { b ≤ count trip.now }
    ensures { result ≡ (not (holds_surface trip.now a b) && not (repeats_city trip.now a b)) }
{
    !holds_surface(trip, a, b) && !repeats_city(trip, a, b)
}

/// Whether a fare is for a span: the span can be a component, and the fare runs between its ends, has its indicator and
/// covers its cabins, its carriers and its day.
#[tactic(auto, unfolding(crate::specs::Usable::is_for_span))]
fn is_for_span(edition: &Edition, trip: &Trip, component: Component, fare: &FareRec) -> bool
    requires { component.b ≤ count trip.now }
    ensures { result ≡ is_for_span edition.now trip.now component.a component.b component.back fare.now }
{
    let Component { a, b, back } = component;
    is_plain(trip, a, b)
        && runs_between(trip, a, b, back, fare)
        && may_be_priced(fare, back)
        && has_indicator(edition, trip, a, b, fare)
        && covers_cabins(trip, a, b, fare)
        && covers_carriers(trip, a, b, fare)
        && in_season(trip, a, fare)
}

/// Whether a fare may be used for a span, whatever its mileage.
#[tactic(auto, unfolding(crate::specs::Usable::is_usable))]
pub(crate) fn is_usable(
    edition: &Edition,
    trip: &Trip,
    component: Component,
    fare: &FareRec,
) -> bool
    requires { component.b ≤ count trip.now }
    ensures { result ≡ is_usable edition.now trip.now component.a component.b component.back fare.now }
{
    let (a, b) = (component.a, component.b);
    is_for_span(edition, trip, component, fare)
        && stops_hold(edition, trip, a, b, fare)
        && transfers_hold(edition, trip, a, b, fare)
        && advance_holds(edition, trip, fare)
}

/// Whether a fare is for a span, by what the span asks of fares.
#[tactic(auto, using(crate::proofs::AmountLemmas::is_for_plain_span))]
pub fn suits_span(edition: &Edition, trip: &Trip, span: &Span, fare: &FareRec, back: bool) -> bool
    requires { IsSpan edition.now trip.now span.now }
    ensures { result ≡ is_for_span edition.now trip.now span.now.a span.now.b back fare.now }
{
    let _edition = edition;
    let (a, b) = (span.a, span.b);
    may_be_priced(fare, back)
        && runs_between(trip, a, b, back, fare)
        && fare.ind.is(span.ind)
        && has_rank(trip, a, b, span.rank, fare)
        && has_carrier(trip, a, b, &span.carrier, fare)
        && in_season(trip, a, fare)
}
