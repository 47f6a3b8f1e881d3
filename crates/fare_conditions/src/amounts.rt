//! What a fare costs for a span.

ghost use Rattle.std.specs.Prelude.{◌≡◌, ◌<◌, ◌≤◌, IfSome, if◌then◌else◌};
ghost use Rattle.fare_trip.specs.Itinerary.{count};
ghost use Rattle.fare_rules.specs.Base.{base};
ghost use Rattle.fare_rules.specs.ComponentAmount.{is_allowed, amount_from, fare_amount, component_amount};
ghost use Rattle.fare_conditions.specs.Usable.{IsAmount};

use crate::component::Component;
use crate::surcharges::span_surcharge;
use crate::terms::is_allowed;
use crate::usable::is_usable;
use fare_codes::{FARE_LIMIT, MOST_SURCHARGE, Nuc, surcharged};
use fare_points::higher;
use fare_rules::Amount;
use fare_tariff::{Edition, FareRec};
use fare_trip::Trip;

/// The base of a fare for a span: its amount, or that of a higher intermediate point.
fn base(edition: &Edition, trip: &Trip, component: Component, fare: &FareRec) -> Nuc
    requires { component.b ≤ count trip.now }
    ensures value { result ≡ base edition.now trip.now component.a component.b fare.now component.back }
    ensures bound { result < FARE_LIMIT }
{
    let Component { a, b, back } = component;
    match higher(edition, trip, a, b, fare, back) {
        None => fare.amount.nuc(),
        Some((_, _, amount)) => amount,
    }
}

/// A base with a surcharge, rounded down.
#[tactic(auto, unfolding(fare_codes::specs::Amounts::surcharged))]
pub fn amount_from(base: Nuc, step: u32) -> Amount
    requires low { base < FARE_LIMIT }
    requires step { step ≤ MOST_SURCHARGE }
    ensures value { result ≡ amount_from base step }
    ensures bound { IsAmount result }
{
    Amount {
        base,
        surcharge: step,
        amount: surcharged(base, step),
    }
}

/// The amount of a fare for a span whose mileage asks for a surcharge, where the fare's rule allows that.
fn allowed_amount(
    edition: &Edition,
    trip: &Trip,
    component: Component,
    fare: &FareRec,
    step: u32,
) -> Option<Amount>
    requires within { component.b ≤ count trip.now }
    requires step { step ≤ MOST_SURCHARGE }
    ensures value { result ≡ (if is_allowed edition.now fare.now (Some step) then Some (amount_from
        (base edition.now trip.now component.a component.b fare.now component.back) step) else None) }
    ensures bound { IfSome result IsAmount }
{
    if is_allowed(edition, fare, Some(step)) {
        let base_amount = base(edition, trip, component, fare);
        Some(amount_from(base_amount, step))
    } else {
        None
    }
}

/// The amount of a fare for a span, where it may be used.
#[tactic(auto, using(crate::proofs::AmountLemmas::unusable, crate::proofs::AmountLemmas::no_surcharge, crate::proofs::AmountLemmas::by_rule))]
fn fare_amount(
    edition: &Edition,
    trip: &Trip,
    component: Component,
    fare: &FareRec,
) -> Option<Amount>
    requires { component.b ≤ count trip.now }
    ensures value { result ≡ fare_amount edition.now trip.now component.a component.b component.back fare.now }
    ensures bound { IfSome result IsAmount }
{
    if !is_usable(edition, trip, component, fare) {
        return None;
    }
    match span_surcharge(edition, trip, component.a, component.b) {
        None => None,
        Some(step) => allowed_amount(edition, trip, component, fare, step),
    }
}

/// What the fare of a record number costs from point `a` to point `b` of a trip, priced back or not: its base,
/// surcharge and amount; nothing exactly where the fare may not be used there or the record files no fare.
#[tactic(auto, unfolding(fare_rules::specs::ComponentAmount::component_amount))]
pub fn applicable(
    edition: &Edition,
    trip: &Trip,
    a: usize,
    b: usize,
    number: u32,
    back: bool,
) -> Option<Amount>
    requires rises { a < b }
    requires within { b ≤ count trip.now }
    ensures value { result ≡ component_amount edition.now trip.now a b number back }
    ensures bound { IfSome result IsAmount }
{
    match edition.fare_at(number) {
        None => None,
        Some(fare) => fare_amount(edition, trip, Component { a, b, back }, fare),
    }
}
