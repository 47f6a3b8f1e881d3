//! The places of the parts of a unit: all, the first and the last, and the origin, where the first part begins.

ghost use Rattle.std.specs.Prelude.{◌≡◌, ◌≤◌, length};
ghost use Rattle.fare_rules.specs.Construction.{own, first_of, last_of, origin};
ghost use Rattle.fare_lawful.specs.Advance.{EndsWithin};
ghost use Rattle.fare_lawful.specs.Places.{ArePlaces};

use crate::limits::MOST_PARTS;
use crate::parts::places::{start_city, unit_of};
use arrayvec::ArrayVec;
use fare_codes::City;
use fare_rules::Part;
use fare_trip::Trip;

/// Places of parts.
pub(crate) type Places = ArrayVec<usize, MOST_PARTS>;

/// The places of the parts of a unit.
#[tactic(auto, using(crate::proofs::OwnLemmas::own_more, crate::proofs::OwnLemmas::own_over, crate::proofs::OwnLemmas::own_all, crate::proofs::OwnLemmas::own_are_places), unfolding(fare_rules::specs::Construction::own))]
pub fn own(parts: &[Part], unit: usize) -> Places
    requires few { length parts.now ≤ MOST_PARTS }
    ensures own { result.items ≡ own parts.now unit }
    ensures places { ArePlaces parts.now result.items }
{
    let mut own = ArrayVec::new();
    for k in 1..parts.len() + 1 {
        if unit_of(parts, k) != unit {
            continue;
        }
        own.push(k);
    }
    own
}

/// The first of the places of a unit, 0 where there is none.
pub fn first_of(own: &[usize]) -> usize
    ensures { result ≡ first_of own.now }
{
    match own {
        [] => 0,
        [first, ..] => *first,
    }
}

/// The last of the places of a unit, 0 where there is none.
#[tactic(auto, using(crate::proofs::OwnLemmas::last_at))]
pub fn last_of(own: &[usize]) -> usize
    ensures { result ≡ last_of own.now }
{
    match own {
        [] => 0,
        [.., last] => *last,
    }
}

/// The origin of a unit: the city where its first part begins.
pub fn origin(trip: &Trip, parts: &[Part], own: &[usize]) -> City
    requires ends { EndsWithin trip.now parts.now }
    ensures { result ≡ origin trip.now parts.now own.now }
{
    start_city(trip, parts, first_of(own))
}
