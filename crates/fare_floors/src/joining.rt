//! Joining: whether a part may come to a unit of first parts again.

ghost use Rattle.std.specs.Prelude.{◌≡◌, ◌+◌, ◌≤◌, length};
ghost use Rattle.std.specs.List.{list_any};
ghost use Rattle.fare_trip.specs.Itinerary.{count};
ghost use Rattle.fare_rules.specs.Construction.{end_of, first_of, last_of, own};
ghost use Rattle.fare_rules.specs.Numbers.{numbers};
ghost use Rattle.fare_units.specs.Onward.{is_in_city};
ghost use Rattle.fare_units.specs.Walk.{IsFront};
ghost use Rattle.fare_floors.specs.Floors.{IsMadeWith};
ghost use Rattle.fare_floors.specs.Joining.{is_blocked, is_stuck, may_join};

use crate::partial::Partial;
use crate::places::{first_place, last_place};
use fare_codes::City;
use fare_component::Table;
use fare_rules::Part;
use fare_trip::Trip;
use fare_units::{MOST_PARTS, part_at, start_of};

/// The point where the last part of a unit ended; 0 where it has none.
pub(crate) fn standing_point(parts: &[Part], unit: usize) -> usize
    ensures { result ≡ end_of parts.now (last_of (own parts.now unit)) }
{
    part_at(parts, last_place(parts, unit)).end as usize
}

/// How many parts a unit has.
#[tactic(auto, using(crate::proofs::StackRowLemmas::own_here, crate::proofs::StackRowLemmas::own_over, crate::proofs::StackRowLemmas::own_done), unfolding(fare_rules::specs::Construction::own))]
pub(crate) fn part_count(parts: &[Part], unit: usize) -> usize
    requires { length parts.now ≤ MOST_PARTS }
    ensures { result ≡ length (own parts.now unit) }
{
    let mut count = 0;
    for k in 1..parts.len() + 1 {
        if part_at(parts, k).unit as usize != unit {
            continue;
        }
        count += 1;
    }
    count
}

/// Whether a unit would cross that of the last of some parts if it went on.
fn is_blocked(parts: &[Part], unit: usize) -> bool
    ensures { result ≡ is_blocked parts.now unit }
{
    (part_at(parts, parts.len()).unit as usize) < unit
}

/// Whether a point of a trip is a city.
fn is_in_city(trip: &Trip, city: City, i: usize) -> bool
    requires { i ≤ count trip.now }
    ensures { result ≡ is_in_city trip.now city i }
{
    trip.point(i).is(city)
}

/// Whether a city comes at a point from one on.
fn city_comes(trip: &Trip, city: City, from: usize) -> bool
    requires small { from ≤ 256 }
    ensures { result ≡ list_any (is_in_city trip.now city) (numbers from (count trip.now + 1)) }
{
    let count = trip.count();
    (from..count + 1).any(|i| is_in_city(trip, city, i))
}

/// Whether a part may join a unit of first parts: the city where its last part ended comes again from where the next
/// part begins on; or, where it has one part, the city of its origin comes behind the parts.
#[tactic(auto, using(crate::proofs::StackRowLemmas::begins_within))]
fn may_join(trip: &Trip, front: &Partial, unit: usize) -> bool
    requires made { IsFront trip.now front.now }
    ensures { result ≡ may_join trip.now front.now (own front.now unit) }
{
    let parts = front.parts();
    let stands = standing_point(parts, unit);
    let start = start_of(trip, parts, first_place(parts, unit));
    city_comes(trip, trip.point(stands), front.next_start(trip))
        || part_count(parts, unit) < 2 && city_comes(trip, trip.point(start), front.end() + 1)
}

/// Whether no part can come to a unit of first parts that is not shut: it would cross the unit of the last of them, or
/// has no city at which a part may join it.
pub(crate) fn is_stuck(table: &Table, front: &Partial, unit: usize) -> bool
    requires made { IsMadeWith table.now front.now }
    ensures { result ≡ is_stuck table.now.trip front.now unit }
{
    is_blocked(front.parts(), unit) || !may_join(table.trip(), front, unit)
}
