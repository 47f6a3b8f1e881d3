//! What a fare must be for a span: the places between which it runs, its indicator, its class, its carrier and its
//! season.

ghost use Rattle.std.specs.Prelude.{◌≡◌, ◌<◌, ◌≤◌};
ghost use Rattle.std.specs.List.{list_all};
ghost use Rattle.fare_trip.specs.Itinerary.{count};
ghost use Rattle.fare_rules.specs.Span.{sectors};
ghost use Rattle.fare_rules.specs.ComponentAmount.{is_filed_between, runs_between, is_half_round_trip, may_be_priced};
ghost use Rattle.fare_rules.specs.ComponentAmount.{has_indicator, rank, covers_cabin, covers_cabins, is_carried_by};
ghost use Rattle.fare_rules.specs.ComponentAmount.{covers_carriers, in_season};
ghost use Rattle.fare_conditions.specs.Spans.{IsGreatestRank, IsOneCarrier, is_carrier};

use fare_codes::{Cabin, Carrier, City, Kind};
use fare_points::{every_carrier, indicator};
use fare_tariff::{Edition, FareRec};
use fare_trip::Trip;

/// Whether a fare is filed from a city to another.
fn is_filed_between(fare: &FareRec, from: City, to: City) -> bool
    ensures { result ≡ is_filed_between fare.now from to }
{
    fare.from.is(from) && fare.to.is(to)
}

/// Whether a fare runs between the ends of a span: from its start, or from its end where it is priced back.
#[tactic(auto, unfolding(fare_rules::specs::ComponentAmount::runs_between))]
pub fn runs_between(trip: &Trip, a: usize, b: usize, back: bool, fare: &FareRec) -> bool
    requires start { a ≤ count trip.now }
    requires within { b ≤ count trip.now }
    ensures { result ≡ runs_between trip.now a b back fare.now }
{
    if back {
        is_filed_between(fare, trip.point(b), trip.point(a))
    } else {
        is_filed_between(fare, trip.point(a), trip.point(b))
    }
}

/// Whether a fare is a half round trip, and not one way.
pub fn is_half_round_trip(fare: &FareRec) -> bool
    ensures { result ≡ is_half_round_trip fare.now }
{
    matches!(fare.kind, Kind::HR)
}

/// Whether a fare may be priced in a direction, back or not: only a half round trip is priced back.
pub fn may_be_priced(fare: &FareRec, back: bool) -> bool
    ensures { result ≡ may_be_priced back fare.now }
{
    !back || is_half_round_trip(fare)
}

/// Whether a fare has the indicator of a span.
#[tactic(auto, unfolding(fare_rules::specs::ComponentAmount::has_indicator))]
pub fn has_indicator(edition: &Edition, trip: &Trip, a: usize, b: usize, fare: &FareRec) -> bool
    requires rises { a < b }
    requires within { b ≤ count trip.now }
    ensures { result ≡ has_indicator edition.now trip.now a b fare.now }
{
    fare.ind.is(indicator(edition, trip, a, b))
}

/// The rank of a cabin, or of a class.
fn rank(cabin: Cabin) -> u32
    ensures { result ≡ rank cabin }
{
    match cabin {
        Cabin::F => 3,
        Cabin::C => 2,
        Cabin::Y => 1,
    }
}

/// Whether a class has at least the rank of the cabin of a sector.
fn covers_cabin(trip: &Trip, number: usize, class: Cabin) -> bool
    requires from_one { 1 ≤ number }
    requires within { number ≤ count trip.now }
    ensures { result ≡ covers_cabin trip.now class number }
{
    rank(trip.sector(number).cabin) <= rank(class)
}

/// Whether the class of a fare covers the cabins of a span: it has at least the rank of each sector's cabin.
#[tactic(auto, using(fare_rules::proofs::NumberLemmas::all_next, fare_rules::proofs::NumberLemmas::all_done), unfolding(fare_rules::specs::ComponentAmount::covers_cabins))]
pub fn covers_cabins(trip: &Trip, a: usize, b: usize, fare: &FareRec) -> bool
    requires within { b ≤ count trip.now }
    ensures { result ≡ covers_cabins trip.now a b fare.now }
{
    for i in a..b {
        if !covers_cabin(trip, i + 1, fare.class) {
            return false;
        }
    }
    true
}

/// Whether every sector of a span is by a carrier.
#[tactic(auto, using(fare_rules::proofs::NumberLemmas::all_next, fare_rules::proofs::NumberLemmas::all_done))]
fn all_carried_by(trip: &Trip, a: usize, b: usize, carrier: Carrier) -> bool
    requires within { b ≤ count trip.now }
    ensures { result ≡ list_all (is_carried_by trip.now carrier) (sectors a b) }
{
    for i in a..b {
        if !trip.sector(i + 1).carrier.is(carrier) {
            return false;
        }
    }
    true
}

/// Whether the carrier of a fare is `YY` or that of each sector of a span.
#[tactic(auto, unfolding(fare_rules::specs::ComponentAmount::covers_carriers))]
pub fn covers_carriers(trip: &Trip, a: usize, b: usize, fare: &FareRec) -> bool
    requires within { b ≤ count trip.now }
    ensures { result ≡ covers_carriers trip.now a b fare.now }
{
    fare.carrier.is(every_carrier()) || all_carried_by(trip, a, b, fare.carrier)
}

/// Whether the season of a fare holds the day of the first sector of what begins at a point.
#[tactic(auto, unfolding(fare_rules::specs::ComponentAmount::in_season))]
pub fn in_season(trip: &Trip, a: usize, fare: &FareRec) -> bool
    requires { a < count trip.now }
    ensures { result ≡ in_season trip.now a fare.now }
{
    let count = trip.count();
    prove!(a < count);
    fare.season.holds(trip.sector(a + 1).day.month_day())
}

/// The greatest rank of the cabins of a span: a class covers them where it has at least that.
pub(crate) fn greatest_rank(trip: &Trip, a: usize, b: usize) -> u32
    requires within { b ≤ count trip.now }
    ensures { IsGreatestRank trip.now a b result }
{
    let mut greatest = 0u32;
    for i in a..b {
        greatest = greatest.max(rank(trip.sector(i + 1).cabin));
    }
    greatest
}

/// The carrier of all sectors of a span; nothing where they have more than one.
pub(crate) fn one_carrier(trip: &Trip, a: usize, b: usize) -> Option<Carrier>
    requires rises { a < b }
    requires within { b ≤ count trip.now }
    ensures { IsOneCarrier trip.now a b result }
{
    let count = trip.count();
    prove!(b <= count);
    let first = trip.sector(a + 1).carrier;
    if all_carried_by(trip, a, b, first) {
        Some(first)
    } else {
        None
    }
}

/// Whether the class of a fare covers the cabins of a span, of which this is the greatest rank.
#[tactic(auto, unfolding(fare_rules::specs::ComponentAmount::covers_cabins))]
pub(crate) fn has_rank(trip: &Trip, a: usize, b: usize, greatest: u32, fare: &FareRec) -> bool
    requires { IsGreatestRank trip.now a b greatest }
    ensures { result ≡ covers_cabins trip.now a b fare.now }
{
    let _trip = trip;
    let _ends = (a, b);
    greatest <= rank(fare.class)
}

/// Whether the one carrier of a span, where it has one, is a carrier.
fn is_carrier(one: &Option<Carrier>, carrier: Carrier) -> bool
    ensures { result ≡ is_carrier one.now carrier }
{
    match one {
        None => false,
        Some(one) => one.is(carrier),
    }
}

/// Whether the carrier of a fare is `YY` or that of each sector of a span, of which this is the one carrier.
#[tactic(auto, unfolding(fare_rules::specs::ComponentAmount::covers_carriers))]
pub(crate) fn has_carrier(
    trip: &Trip,
    a: usize,
    b: usize,
    one: &Option<Carrier>,
    fare: &FareRec,
) -> bool
    requires { IsOneCarrier trip.now a b one.now }
    ensures { result ≡ covers_carriers trip.now a b fare.now }
{
    let _trip = trip;
    let _ends = (a, b);
    fare.carrier.is(every_carrier()) || is_carrier(one, fare.carrier)
}
