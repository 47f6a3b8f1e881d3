//! The plain best: the lawful construction that no lawful one is before, found by walking over all lists of parts that
//! can go on to one.

ghost use Rattle.std.specs.Prelude.{◌≡◌, ◌+◌, ◌<◌, ◌≤◌, length, None};
ghost use Rattle.fare_rules.specs.Best.{IsBestAnswer};
ghost use Rattle.fare_trip.specs.Itinerary.{count};
ghost use Rattle.fare_rules.specs.Construction.{greatest_unit, places};
ghost use Rattle.fare_units.specs.Walk.{Walks, Completes, GoesOn, AnyPart, EndsAt, HasFare, IsPart, IsList, IsFront};
ghost use Rattle.fare_units.specs.Walk.{TakesBetter, next_start, may_serve, is_mixed_with, mixes, is_fruitless};

use crate::best::order::earlier;
use crate::construction::Construction;
use crate::prices::priced::lawful_price;
use fare_component::applicable;
use fare_lawful::{end_of, greatest_unit, is_crossed, is_ow, is_same_unit, start_of};
use fare_rules::Part;
use fare_tariff::Edition;
use fare_trip::Trip;

/// The best construction that was found, with its price.
type Found = Option<(Construction, u64)>;

/// Best: the lawful construction that has no lawful one before it, with its price, found by walking over all; nothing
/// exactly where none is lawful.
pub fn plain_best(edition: &Edition, trip: &Trip) -> Option<(Construction, u64)>
    ensures { IsBestAnswer edition.now trip.now result }
{
    walk(edition, trip, &Construction::new(), None)
}

#[tactic(auto, using(crate::proofs::WalkLemmas::better_of_none, crate::proofs::WalkLemmas::better_of_earlier, crate::proofs::WalkLemmas::better_of_later))]
/// The better one of a construction and the best that was found.
fn better(front: &Construction, price: u64, best: Found) -> Found
    ensures { TakesBetter front.now price best result }
{
    match best {
        None => Some((front.copy(), price)),
        Some((parts, least)) => {
            if earlier(front, price, &parts, least) {
                return Some((front.copy(), price));
            }
            Some((parts, least))
        }
    }
}

/// Takes a construction, where it is lawful and before the best that was found.
fn take(edition: &Edition, trip: &Trip, front: &Construction, best: Found) -> Found
    ensures { Walks edition.now trip.now (IsList front.now) best result }
{
    match lawful_price(edition, trip, front) {
        Err(_) => best,
        Ok(price) => better(front, price, best),
    }
}

/// Whether the fare of a number may serve a part that comes after some and ends at a point: in one of the two
/// directions it has a component amount there.
#[tactic(auto, unfolding(crate::specs::Walk::may_serve))]
fn may_serve(edition: &Edition, trip: &Trip, front: &Construction, end: usize, number: u32) -> bool
    requires rises { next_start trip.now front.now < end }
    requires within { end ≤ count trip.now }
    ensures { result ≡ may_serve edition.now trip.now front.now end number }
{
    let start = next_start(trip, front);
    applicable(edition, trip, start, end, number, false).is_some()
        || applicable(edition, trip, start, end, number, true).is_some()
}

/// Where a part that comes after some starts.
fn next_start(trip: &Trip, front: &Construction) -> usize
    ensures value { result ≡ next_start trip.now front.now }
    ensures small { result ≤ 256 }
{
    let parts = front.parts();
    start_of(trip, parts, parts.len() + 1)
}

/// Whether the last of some parts has no place in any lawful construction that begins with them: it crosses a unit, or
/// shares one with another part where one of the two has a one way fare.
#[tactic(auto, unfolding(crate::specs::Walk::is_fruitless))]
pub fn is_fruitless(edition: &Edition, parts: &[Part]) -> bool
    ensures { result ≡ is_fruitless edition.now parts.now }
{
    is_crossed(parts, parts.len()) || mixes(edition, parts, parts.len())
}

/// Whether a part shares its unit with an earlier one, and the fare of one of the two is one way.
fn mixes(edition: &Edition, parts: &[Part], k: usize) -> bool
    ensures { result ≡ mixes edition.now parts.now k }
{
    (1..k).any(|j| is_mixed_with(edition, parts, k, j))
}

/// Whether two parts share a unit, and the fare of one is one way.
fn is_mixed_with(edition: &Edition, parts: &[Part], k: usize, j: usize) -> bool
    ensures { result ≡ is_mixed_with edition.now parts.now k j }
{
    is_same_unit(parts, k, j) && (is_ow(edition, parts, j) || is_ow(edition, parts, k))
}

/// Walks over all constructions that have these parts as their first ones.
#[cycle(walk)]
fn walk(edition: &Edition, trip: &Trip, front: &Construction, best: Found) -> Found
    requires front { IsFront trip.now front.now }
    ensures { Walks edition.now trip.now (Completes front.now) best result }
{
    let parts = front.parts();
    if end_of(parts, parts.len()) == trip.count() {
        return take(edition, trip, front, best);
    }
    walk_ends(edition, trip, front, best)
}

/// Walks over those that go on with any part.
#[cycle(walk)]
fn walk_ends(edition: &Edition, trip: &Trip, front: &Construction, best: Found) -> Found
    requires front { IsFront trip.now front.now }
    ensures { Walks edition.now trip.now (GoesOn front.now AnyPart) best result }
{
    let mut best = best;
    for end in next_start(trip, front) + 1..trip.count() + 1 {
        best = walk_fares(edition, trip, front, end, best);
    }
    best
}

/// Walks over those that go on with a part that ends at a point.
#[cycle(walk)]
fn walk_fares(
    edition: &Edition,
    trip: &Trip,
    front: &Construction,
    end: usize,
    best: Found,
) -> Found
    requires front { IsFront trip.now front.now }
    requires rises { next_start trip.now front.now < end }
    requires within { end ≤ count trip.now }
    ensures { Walks edition.now trip.now (GoesOn front.now (EndsAt end)) best result }
{
    let mut best = best;
    for number in 2..edition.records().len() as u32 + 2 {
        if !may_serve(edition, trip, front, end, number) {
            continue;
        }
        best = walk_units(edition, trip, front, end, number, best);
    }
    best
}

/// Walks over those that go on with a part that ends at a point and has the fare of a record number.
#[cycle(walk)]
fn walk_units(
    edition: &Edition,
    trip: &Trip,
    front: &Construction,
    end: usize,
    number: u32,
    best: Found,
) -> Found
    requires front { IsFront trip.now front.now }
    requires rises { next_start trip.now front.now < end }
    requires within { end ≤ count trip.now }
    ensures { Walks edition.now trip.now (GoesOn front.now (HasFare end number)) best result }
{
    let sectors = trip.count();
    prove!(end <= sectors);
    let mut best = best;
    let parts = front.parts();
    for unit in 1..greatest_unit(parts) + 2 {
        let part = Part {
            end: end as u8,
            unit: unit as u8,
            fare: number,
        };
        best = walk_part(edition, trip, front, part, best);
    }
    best
}

/// Walks over those that go on with a part.
#[cycle(walk)]
fn walk_part(edition: &Edition, trip: &Trip, front: &Construction, part: Part, best: Found) -> Found
    requires front { IsFront trip.now front.now }
    requires rises { next_start trip.now front.now < part.end }
    requires within { part.end ≤ count trip.now }
    requires ordered { part.unit ≤ greatest_unit front.now (places front.now) + 1 }
    ensures { Walks edition.now trip.now (GoesOn front.now (IsPart part)) best result }
{
    let sectors = trip.count();
    prove!(part.end as usize <= sectors);
    let longer = front.with(part);
    if is_fruitless(edition, longer.parts()) {
        return best;
    }
    walk(edition, trip, &longer, best)
}
