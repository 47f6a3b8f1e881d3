//! The circle minimum: twice the greatest reference from a unit's origin to a stopover point.

ghost use Rattle.std.specs.Prelude.{◌≡◌, ◌+◌, ◌*◌, ◌<◌, ◌≤◌, ◌^◌, IfSome, length, ◌++◌, ◌∷◌, [], option_map};
ghost use Rattle.std.specs.List.{list_any};
ghost use Rattle.fare_trip.specs.Itinerary.{count};
ghost use Rattle.fare_rules.specs.Numbers.{greatest_of};
ghost use Rattle.fare_rules.specs.Span.{stopovers};
ghost use Rattle.fare_rules.specs.Construction.{own};
ghost use Rattle.fare_rules.specs.Circle.{holds_sector, is_own_sector, own_sectors, reference_from_origin};
ghost use Rattle.fare_rules.specs.Circle.{circle_reference, unit_circle_minimum, circle_minimum, twice};
ghost use Rattle.fare_lawful.specs.Advance.{Advances};
ghost use Rattle.fare_lawful.specs.Places.{IsPlace, ArePlaces};
ghost use Rattle.fare_units.specs.Turning.{is_left_out, greatest_without};

use arrayvec::ArrayVec;
use fare_codes::{MOST_SECTORS, Nuc, greater};
use fare_lawful::{MOST_PARTS, end_of, fare_of, last_of, origin, own, start_of};
use fare_points::{indicator_of, reference};
use fare_rules::Part;
use fare_tariff::{Edition, FareRec};
use fare_trip::Trip;

/// The places of some parts of a unit, and the trip and the edition whose references are looked up.
#[derive(Clone, Copy)]
struct Unit<'a> {
    edition: &'a Edition,
    trip: &'a Trip,
    parts: &'a [Part],
    own: &'a [usize],
}

/// Twice an amount below ten million NUC, where there is one.
fn twice(amount: Option<Nuc>) -> Option<Nuc>
    requires { IfSome amount (λ amount. amount < 10 ^ 9) }
    ensures value { result ≡ option_map twice amount }
    ensures bound { IfSome result (λ amount. amount < 2 * 10 ^ 9) }
{
    match amount {
        None => None,
        Some(amount) => Some(Nuc::new(2 * amount.hundredths())),
    }
}

/// Whether a part holds a sector.
fn holds_sector(trip: &Trip, parts: &[Part], number: usize, k: usize) -> bool
    ensures { result ≡ holds_sector trip.now parts.now number k }
{
    start_of(trip, parts, k) < number && number <= end_of(parts, k)
}

/// Whether a sector is one of a unit's own.
fn is_own_sector(trip: &Trip, parts: &[Part], own: &[usize], number: usize) -> bool
    ensures { result ≡ is_own_sector trip.now parts.now own.now number }
{
    own.iter().any(|k| holds_sector(trip, parts, number, *k))
}

/// A unit's own sectors up to a point.
#[tactic(auto, using(fare_lawful::proofs::Ranges::filter_more, fare_lawful::proofs::Ranges::filter_over, fare_lawful::proofs::Ranges::filter_all), unfolding(fare_rules::specs::Circle::own_sectors))]
fn own_sectors(trip: &Trip, parts: &[Part], own: &[usize], i: usize) -> ArrayVec<usize, MOST_PARTS>
    requires few_sectors { i ≤ MOST_SECTORS }
    ensures { result.items ≡ own_sectors trip.now parts.now own.now i }
{
    let mut sectors = ArrayVec::new();
    for number in 1..i + 1 {
        if !is_own_sector(trip, parts, own, number) {
            continue;
        }
        sectors.push(number);
    }
    sectors
}

/// The reference from a unit's origin to a point of one of its parts, for the fare of that part.
fn reference_from_origin(unit: &Unit, k: usize, i: usize, fare: &FareRec) -> Option<Nuc>
    requires advances { Advances unit.now.trip.now unit.now.parts.now }
    requires place { IsPlace unit.now.parts.now k }
    requires within { i ≤ count unit.now.trip.now }
    ensures value { result
        ≡ reference_from_origin unit.now.edition.now unit.now.trip.now unit.now.parts.now unit.now.own.now k i
        fare.now }
    ensures bound { IfSome result (λ amount. amount < 10 ^ 9) }
{
    let Unit {
        edition,
        trip,
        parts,
        own,
    } = *unit;
    let sectors = trip.count();
    prove!(i <= sectors);
    let from = origin(trip, parts, own);
    let to = trip.point(i);
    let ways = own_sectors(trip, parts, own, i);
    let ind = indicator_of(edition, trip, ways.as_slice());
    let on = trip.sector(start_of(trip, parts, k) + 1).day;
    reference(edition, from, to, ind, fare, on)
}

/// The reference from a unit's origin to a point of a part.
#[tactic(auto, unfolding(fare_rules::specs::Circle::circle_reference))]
fn circle_reference(unit: &Unit, k: usize, i: usize) -> Option<Nuc>
    requires advances { Advances unit.now.trip.now unit.now.parts.now }
    requires place { IsPlace unit.now.parts.now k }
    requires within { i ≤ count unit.now.trip.now }
    ensures value { result
        ≡ circle_reference unit.now.edition.now unit.now.trip.now unit.now.parts.now unit.now.own.now k i }
    ensures bound { IfSome result (λ amount. amount < 10 ^ 9) }
{
    match fare_of(unit.edition, unit.parts, k) {
        None => None,
        Some(fare) => reference_from_origin(unit, k, i, fare),
    }
}

/// The greatest reference to an interior stopover of a span of a part.
#[tactic(auto, using(crate::proofs::CircleSteps::stopovers_more, crate::proofs::CircleSteps::stopovers_over, crate::proofs::CircleSteps::stopovers_all))]
fn greatest_stopover(unit: &Unit, k: usize, a: usize, b: usize) -> Option<Nuc>
    requires advances { Advances unit.now.trip.now unit.now.parts.now }
    requires place { IsPlace unit.now.parts.now k }
    requires rises { a < b }
    requires within { b ≤ count unit.now.trip.now }
    ensures value { result
        ≡ greatest_of (circle_reference unit.now.edition.now unit.now.trip.now unit.now.parts.now unit.now.own.now k)
        (stopovers unit.now.trip.now a b) }
    ensures bound { IfSome result (λ amount. amount < 10 ^ 9) }
{
    let mut found = None;
    for i in a + 1..b {
        if !unit.trip.sector(i).stop {
            continue;
        }
        found = greater(found, circle_reference(unit, k, i));
    }
    found
}

/// The greatest reference to an interior stopover or the end of a span of a part.
#[tactic(auto, using(crate::proofs::CircleSteps::with_end))]
fn greatest_in_span(unit: &Unit, k: usize, a: usize, b: usize) -> Option<Nuc>
    requires advances { Advances unit.now.trip.now unit.now.parts.now }
    requires place { IsPlace unit.now.parts.now k }
    requires rises { a < b }
    requires within { b ≤ count unit.now.trip.now }
    ensures value { result
        ≡ greatest_of (circle_reference unit.now.edition.now unit.now.trip.now unit.now.parts.now unit.now.own.now k)
        (stopovers unit.now.trip.now a b ++ b ∷ []) }
    ensures bound { IfSome result (λ amount. amount < 10 ^ 9) }
{
    let inside = greatest_stopover(unit, k, a, b);
    greater(inside, circle_reference(unit, k, b))
}

/// Whether a part is the one whose end is left out, where there is one.
fn is_left_out(left_out: Option<usize>, k: usize) -> bool
    ensures { result ≡ is_left_out left_out k }
{
    match left_out {
        None => false,
        Some(one) => k == one,
    }
}

/// The greatest reference to an interior stopover of a part, or to its end but where that is left out.
fn greatest_without(unit: &Unit, left_out: Option<usize>, k: usize) -> Option<Nuc>
    requires advances { Advances unit.now.trip.now unit.now.parts.now }
    requires place { IsPlace unit.now.parts.now k }
    ensures value { result
        ≡ greatest_without unit.now.edition.now unit.now.trip.now unit.now.parts.now unit.now.own.now left_out k }
    ensures bound { IfSome result (λ amount. amount < 10 ^ 9) }
{
    let a = start_of(unit.trip, unit.parts, k);
    let b = end_of(unit.parts, k);
    if is_left_out(left_out, k) {
        return greatest_stopover(unit, k, a, b);
    }
    greatest_in_span(unit, k, a, b)
}

/// The greatest reference of the parts of some places, of which the end of one may be left out.
#[tactic(auto, using(crate::proofs::CircleSteps::greatest_left, crate::proofs::CircleSteps::greatest_done, fare_lawful::proofs::OwnLemmas::place_at))]
fn greatest_in_all(unit: &Unit, left_out: Option<usize>) -> Option<Nuc>
    requires advances { Advances unit.now.trip.now unit.now.parts.now }
    requires places { ArePlaces unit.now.parts.now unit.now.own.now }
    ensures value { result
        ≡ greatest_of
        (greatest_without unit.now.edition.now unit.now.trip.now unit.now.parts.now unit.now.own.now left_out)
        unit.now.own.now }
    ensures bound { IfSome result (λ amount. amount < 10 ^ 9) }
{
    let own = unit.own;
    let mut found = None;
    for i in 0..own.len() {
        let here = greatest_without(unit, left_out, own[i]);
        found = greater(found, here);
    }
    found
}

/// The circle minimum of a unit, whose last part ends at home: that end is no stopover point.
#[tactic(auto, unfolding(fare_rules::specs::Circle::unit_circle_minimum))]
pub(crate) fn unit_circle_minimum(
    edition: &Edition,
    trip: &Trip,
    parts: &[Part],
    own: &[usize],
) -> Option<Nuc>
    requires advances { Advances trip.now parts.now }
    requires places { ArePlaces parts.now own.now }
    ensures value { result ≡ unit_circle_minimum edition.now trip.now parts.now own.now }
    ensures bound { IfSome result (λ amount. amount < 2 * 10 ^ 9) }
{
    let unit = Unit {
        edition,
        trip,
        parts,
        own,
    };
    twice(greatest_in_all(&unit, Some(last_of(own))))
}

/// The circle minimum over the parts of some places.
#[tactic(auto, unfolding(fare_rules::specs::Circle::circle_minimum))]
fn minimum_in_all(edition: &Edition, trip: &Trip, parts: &[Part], own: &[usize]) -> Option<Nuc>
    requires advances { Advances trip.now parts.now }
    requires places { ArePlaces parts.now own.now }
    ensures { result ≡ circle_minimum edition.now trip.now parts.now own.now }
{
    let unit = Unit {
        edition,
        trip,
        parts,
        own,
    };
    twice(greatest_in_all(&unit, None))
}

/// The circle minimum over the parts that are given of a unit: twice the greatest reference from the unit's origin to
/// an interior stopover or the end of one of these parts; nothing exactly where there is no such reference.
pub fn circle_minimum(edition: &Edition, trip: &Trip, parts: &[Part], unit: u8) -> Option<Nuc>
    requires few { length parts.now ≤ MOST_PARTS }
    requires advances { Advances trip.now parts.now }
    ensures { result ≡ circle_minimum edition.now trip.now parts.now (own parts.now unit) }
{
    let own = own(parts, unit as usize);
    minimum_in_all(edition, trip, parts, own.as_slice())
}
