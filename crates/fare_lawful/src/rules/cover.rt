//! The rules of numbers: parts cover the trip, their units are numbered in order, and their fares are filed.

ghost use Rattle.std.specs.Prelude.{◌≡◌, ◌≤◌, length, find};
ghost use Rattle.fare_rules.specs.Construction.{places, is_misended, ends_early, uncovered, is_misnumbered};
ghost use Rattle.fare_rules.specs.Construction.{misnumbered, is_unfiled, unfiled};

use crate::limits::MOST_PARTS;
use crate::parts::fares::fare_of;
use crate::parts::places::{end_of, greatest_below, start_of, unit_of};
use crate::rules::first::first_that;
use fare_rules::Part;
use fare_tariff::Edition;
use fare_trip::Trip;

/// Whether a part does not end above its start, or ends behind the trip.
pub(crate) fn is_misended(trip: &Trip, parts: &[Part], k: usize) -> bool
    ensures { result ≡ is_misended trip.now parts.now k }
{
    end_of(parts, k) <= start_of(trip, parts, k) || trip.count() < end_of(parts, k)
}

/// The first part that does not end between its start and the trip's end.
fn misended(trip: &Trip, parts: &[Part]) -> Option<u8>
    requires few { length parts.now ≤ MOST_PARTS }
    ensures { result ≡ find (is_misended trip.now parts.now) (places parts.now) }
{
    first_that(parts.len(), |k| is_misended(trip, parts, k))
}

/// The place behind the last part, where the parts do not end where the trip ends.
fn ends_early(trip: &Trip, parts: &[Part]) -> Option<u8>
    requires few { length parts.now ≤ MOST_PARTS }
    ensures { result ≡ ends_early trip.now parts.now }
{
    if end_of(parts, parts.len()) == trip.count() {
        return None;
    }
    Some(parts.len() as u8 + 1)
}

/// Where the parts do not cover the trip.
#[tactic(auto, unfolding(fare_rules::specs::Construction::uncovered))]
pub(crate) fn uncovered(trip: &Trip, parts: &[Part]) -> Option<u8>
    requires few { length parts.now ≤ MOST_PARTS }
    ensures { result ≡ uncovered trip.now parts.now }
{
    misended(trip, parts).or(ends_early(trip, parts))
}

/// Whether the unit number of a part is 0, or more than one above the greatest before it.
pub(crate) fn is_misnumbered(parts: &[Part], k: usize) -> bool
    ensures { result ≡ is_misnumbered parts.now k }
{
    let unit = unit_of(parts, k);
    unit == 0 || greatest_below(parts, k) + 1 < unit
}

/// The first part whose unit number is out of order.
pub(crate) fn misnumbered(parts: &[Part]) -> Option<u8>
    requires few { length parts.now ≤ MOST_PARTS }
    ensures { result ≡ misnumbered parts.now }
{
    first_that(parts.len(), |k| is_misnumbered(parts, k))
}

/// Whether the number of a part's fare is that of no fare.
fn is_unfiled(edition: &Edition, parts: &[Part], k: usize) -> bool
    ensures { result ≡ is_unfiled edition.now parts.now k }
{
    match fare_of(edition, parts, k) {
        None => true,
        Some(_) => false,
    }
}

/// The first part whose fare is not filed.
pub(crate) fn unfiled(edition: &Edition, parts: &[Part]) -> Option<u8>
    requires few { length parts.now ≤ MOST_PARTS }
    ensures { result ≡ unfiled edition.now parts.now }
{
    first_that(parts.len(), |k| is_unfiled(edition, parts, k))
}
