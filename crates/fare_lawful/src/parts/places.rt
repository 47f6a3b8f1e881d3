//! Parts by their places, from 1: their ends, units, starts and cities.

ghost use Rattle.std.specs.Prelude.{◌≡◌, ◌+◌, ◌≤◌, ◌<◌, length};
ghost use Rattle.fare_trip.specs.Itinerary.{count};
ghost use Rattle.fare_rules.specs.Construction.{part_at, end_of, unit_of, places, greatest_unit, begin_after};
ghost use Rattle.fare_rules.specs.Construction.{start_of, start_city, end_city};
ghost use Rattle.fare_rules.specs.Numbers.{numbers};
ghost use Rattle.fare_rules.specs.Shape.{is_same_unit};
ghost use Rattle.fare_lawful.specs.Advance.{EndsWithin};

use fare_codes::City;
use fare_rules::Part;
use fare_trip::Trip;

/// The part at a place; one of zeros where no part has the place.
pub fn part_at(parts: &[Part], k: usize) -> Part
    ensures { result ≡ part_at parts.now k }
{
    match parts.get(k.saturating_sub(1)) {
        Some(part) => *part,
        None => Part {
            end: 0,
            unit: 0,
            fare: 0,
        },
    }
}

/// The point where a part ends.
pub fn end_of(parts: &[Part], k: usize) -> usize
    ensures value { result ≡ end_of parts.now k }
    ensures small { result < 256 }
{
    part_at(parts, k).end as usize
}

/// The unit of a part.
pub fn unit_of(parts: &[Part], k: usize) -> usize
    ensures value { result ≡ unit_of parts.now k }
    ensures small { result < 256 }
{
    part_at(parts, k).unit as usize
}

/// Whether two parts belong to one unit.
pub fn is_same_unit(parts: &[Part], a: usize, b: usize) -> bool
    ensures { result ≡ is_same_unit parts.now a b }
{
    unit_of(parts, a) == unit_of(parts, b)
}

/// The greatest unit number of the parts at the places below one; 0 where there is none.
#[tactic(auto, using(crate::proofs::Ranges::greatest_more, crate::proofs::Ranges::greatest_none))]
pub(crate) fn greatest_below(parts: &[Part], past: usize) -> usize
    ensures value { result ≡ greatest_unit parts.now (numbers 1 past) }
    ensures small { result ≤ 255 }
{
    let mut greatest = 0;
    for k in 1..past {
        greatest = greatest.max(unit_of(parts, k));
    }
    greatest
}

/// The greatest unit number of the parts; 0 where there is none.
pub fn greatest_unit(parts: &[Part]) -> usize
    ensures value { result ≡ greatest_unit parts.now (places parts.now) }
    ensures small { result ≤ 255 }
{
    greatest_below(parts, parts.len() + 1)
}

/// Where what comes after a point begins: there, or one point later where a surface sector stands between.
pub(crate) fn begin_after(trip: &Trip, e: usize) -> usize
    requires small { e ≤ 255 }
    ensures value { result ≡ begin_after trip.now e }
    ensures low { e ≤ result }
    ensures high { result ≤ e + 1 }
    ensures within { e ≤ count trip.now → result ≤ count trip.now }
{
    if e < trip.count() && trip.sector(e + 1).surface {
        return e + 1;
    }
    e
}

/// The point where a part starts.
pub fn start_of(trip: &Trip, parts: &[Part], k: usize) -> usize
    ensures value { result ≡ start_of trip.now parts.now k }
    ensures small { result ≤ 256 }
{
    if k <= 1 {
        return 0;
    }
    begin_after(trip, end_of(parts, k - 1))
}

/// The city where a part starts.
pub(crate) fn start_city(trip: &Trip, parts: &[Part], k: usize) -> City
    requires ends { EndsWithin trip.now parts.now }
    ensures { result ≡ start_city trip.now parts.now k }
{
    trip.point(start_of(trip, parts, k))
}

/// The city where a part ends.
pub(crate) fn end_city(trip: &Trip, parts: &[Part], k: usize) -> City
    requires ends { EndsWithin trip.now parts.now }
    ensures { result ≡ end_city trip.now parts.now k }
{
    trip.point(end_of(parts, k))
}
