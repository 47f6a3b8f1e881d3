//! The rules that ask one test of each part.

ghost use Rattle.std.specs.Prelude.{◌≡◌, ◌<◌, ◌≤◌, ◌&&◌, not, length, find};
ghost use Rattle.std.specs.Option.{option_copied};
ghost use Rattle.fare_trip.specs.Itinerary.{count};
ghost use Rattle.fare_rules.specs.Construction.{places};
ghost use Rattle.fare_rules.specs.Span.{holds_surface};
ghost use Rattle.fare_rules.specs.Lawful.{fails, is_mispaired};
ghost use Rattle.fare_rules.specs.ComponentAmount.{runs_between, in_season};
ghost use Rattle.fare_lawful.specs.Advance.{Advances};
ghost use Rattle.fare_lawful.specs.Places.{IsPlace};
ghost use Rattle.fare_lawful.specs.Tests.{fare_passes, fare_fails, span_breaks, part_breaks};

use crate::limits::MOST_PARTS;
use crate::parts::direction::is_back;
use crate::parts::fares::fare_of;
use crate::parts::places::{end_of, start_of};
use crate::rules::first::first_that;
use fare_conditions::{
    advance_holds, covers_cabins, covers_carriers, excess_holds, has_indicator, holds_surface,
    in_season, mileage_holds, repeats_city, runs_between, stops_hold, transfers_hold,
};
use fare_rules::Part;
use fare_tariff::{Edition, FareRec};
use fare_trip::Trip;

/// A rule that asks one test of the fare of a part that holds no surface sector.
#[derive(Clone, Copy)]
pub(crate) enum FareRule {
    /// The fare has the part's indicator.
    Indicator,
    /// Its class covers the cabins.
    Cabin,
    /// Its carrier is that of the sectors.
    Carrier,
    /// Its rule allows the interior stopovers.
    Stops,
    /// Its rule allows the interior transfers.
    Transfers,
    /// It is sold as many days ahead as its rule asks.
    Advance,
    /// Its rule allows the surcharge.
    Excess,
}

/// A rule that asks one test of each part.
#[derive(Clone, Copy)]
pub(crate) enum PartRule {
    /// The cities are distinct.
    Distinct,
    /// A rule of the part's fare.
    Fare(FareRule),
    /// The mileage lets a fare be used.
    Mileage,
    /// No sector is a surface sector.
    Surface,
    /// The fare's season holds the day.
    Season,
}

/// Whether the fare of a span meets a rule.
fn fare_passes(
    edition: &Edition,
    trip: &Trip,
    a: usize,
    b: usize,
    fare: &FareRec,
    rule: FareRule,
) -> bool
    requires rises { a < b }
    requires within { b ≤ count trip.now }
    ensures { result ≡ fare_passes edition.now trip.now a b fare.now rule }
{
    match rule {
        FareRule::Indicator => has_indicator(edition, trip, a, b, fare),
        FareRule::Cabin => covers_cabins(trip, a, b, fare),
        FareRule::Carrier => covers_carriers(trip, a, b, fare),
        FareRule::Stops => stops_hold(edition, trip, a, b, fare),
        FareRule::Transfers => transfers_hold(edition, trip, a, b, fare),
        FareRule::Advance => advance_holds(edition, trip, fare),
        FareRule::Excess => excess_holds(edition, trip, a, b, fare),
    }
}

/// Whether the fare of a span is there and fails a rule.
fn fare_fails(
    edition: &Edition,
    trip: &Trip,
    a: usize,
    b: usize,
    fare: Option<&FareRec>,
    rule: FareRule,
) -> bool
    requires rises { a < b }
    requires within { b ≤ count trip.now }
    ensures { result ≡ fare_fails edition.now trip.now a b (option_copied fare.entry) rule }
{
    match fare {
        None => false,
        Some(fare) => !fare_passes(edition, trip, a, b, fare, rule),
    }
}

/// Whether the fare of what begins at a point is there and out of season.
fn is_out_of_season(trip: &Trip, a: usize, fare: Option<&FareRec>) -> bool
    requires before_end { a < count trip.now }
    ensures { result ≡ fails (in_season trip.now a) (option_copied fare.entry) }
{
    match fare {
        None => false,
        Some(fare) => !in_season(trip, a, fare),
    }
}

/// Whether a span and its fare break a rule.
fn span_breaks(
    edition: &Edition,
    trip: &Trip,
    a: usize,
    b: usize,
    fare: Option<&FareRec>,
    rule: PartRule,
) -> bool
    requires rises { a < b }
    requires within { b ≤ count trip.now }
    ensures { result ≡ span_breaks edition.now trip.now a b (option_copied fare.entry) rule }
{
    match rule {
        PartRule::Distinct => repeats_city(trip, a, b),
        PartRule::Fare(rule) => {
            !holds_surface(trip, a, b) && fare_fails(edition, trip, a, b, fare, rule)
        }
        PartRule::Mileage => !holds_surface(trip, a, b) && !mileage_holds(edition, trip, a, b),
        PartRule::Surface => holds_surface(trip, a, b),
        PartRule::Season => is_out_of_season(trip, a, fare),
    }
}

/// Whether a part breaks a rule.
fn part_breaks(edition: &Edition, trip: &Trip, parts: &[Part], rule: PartRule, k: usize) -> bool
    requires advances { Advances trip.now parts.now }
    requires place { IsPlace parts.now k }
    ensures { result ≡ part_breaks edition.now trip.now parts.now rule k }
{
    let a = start_of(trip, parts, k);
    let b = end_of(parts, k);
    span_breaks(edition, trip, a, b, fare_of(edition, parts, k), rule)
}

/// The first part that breaks a rule.
pub(crate) fn first_part(
    edition: &Edition,
    trip: &Trip,
    parts: &[Part],
    rule: PartRule,
) -> Option<u8>
    requires few { length parts.now ≤ MOST_PARTS }
    requires advances { Advances trip.now parts.now }
    ensures { result ≡ find (part_breaks edition.now trip.now parts.now rule) (places parts.now) }
{
    first_that(parts.len(), |k| part_breaks(edition, trip, parts, rule, k))
}

/// Whether a fare, where there is one, does not run between the ends of a span in a direction.
fn runs_elsewhere(trip: &Trip, a: usize, b: usize, fare: Option<&FareRec>, back: bool) -> bool
    requires rises { a < b }
    requires within { b ≤ count trip.now }
    ensures { result ≡ fails (runs_between trip.now a b back) (option_copied fare.entry) }
{
    match fare {
        None => false,
        Some(fare) => !runs_between(trip, a, b, back, fare),
    }
}

/// Whether a span holds no surface sector, and its fare does not run between its ends in a direction.
fn is_mispaired_span(trip: &Trip, a: usize, b: usize, fare: Option<&FareRec>, back: bool) -> bool
    requires rises { a < b }
    requires within { b ≤ count trip.now }
    ensures { result
        ≡ (not (holds_surface trip.now a b) && fails (runs_between trip.now a b back) (option_copied fare.entry)) }
{
    !holds_surface(trip, a, b) && runs_elsewhere(trip, a, b, fare, back)
}

/// Whether the fare of a part does not run between its ends in the part's direction.
fn is_mispaired(edition: &Edition, trip: &Trip, parts: &[Part], k: usize) -> bool
    requires few { length parts.now ≤ MOST_PARTS }
    requires advances { Advances trip.now parts.now }
    requires place { IsPlace parts.now k }
    ensures { result ≡ is_mispaired edition.now trip.now parts.now k }
{
    let a = start_of(trip, parts, k);
    let b = end_of(parts, k);
    let back = is_back(edition, trip, parts, k);
    is_mispaired_span(trip, a, b, fare_of(edition, parts, k), back)
}

/// The first part whose fare does not run between its ends in the part's direction.
pub(crate) fn mispaired(edition: &Edition, trip: &Trip, parts: &[Part]) -> Option<u8>
    requires few { length parts.now ≤ MOST_PARTS }
    requires advances { Advances trip.now parts.now }
    ensures { result ≡ find (is_mispaired edition.now trip.now parts.now) (places parts.now) }
{
    first_that(parts.len(), |k| is_mispaired(edition, trip, parts, k))
}
