//! The first sector at which a line and a trip differ.

ghost use Rattle.std.specs.Prelude.{◌≡◌, ◌≤◌, ◌&&◌, ◌||◌, not, None, length, nat_lt};
ghost use Rattle.fare_trip.specs.Itinerary.{count};
ghost use Rattle.fare_rules.specs.Span.{is_transfer};
ghost use Rattle.fare_units.specs.Advance.{Advances};
ghost use Rattle.fare_audit.specs.Filing.{bare_parts};
ghost use Rattle.fare_audit.specs.Legs.{difference, difference_from, differ, is_marked_otherwise, is_unlike};
ghost use Rattle.fare_audit.specs.Legs.{reaches_other};

use crate::legs::{Leg, legs_of};
use fare_codes::{City, MOST_SECTORS};
use fare_line::{Line, LineSector};
use fare_trip::Trip;

/// The first sector at which a line and a trip differ, 0 where they begin in different cities; nothing where the line
/// is that of the trip.
pub(crate) fn difference(trip: &Trip, line: &Line) -> Option<u32>
    ensures { result ≡ difference trip.now line.now }
{
    if !line.from.is(trip.from()) {
        return Some(0);
    }
    first_unlike(trip, legs_of(line).as_slice())
}

/// The first sector at which the sectors of a line and the trip differ.
#[tactic(auto, using(crate::proofs::LegLemmas::difference_done))]
fn first_unlike(trip: &Trip, legs: &[Leg]) -> Option<u32>
    requires { length legs.now ≤ MOST_SECTORS }
    ensures { result ≡ difference_from trip.now 1 legs.now }
{
    for i in 0..legs.len() {
        if differs_at(trip, i + 1, &legs[i]) {
            return Some(i as u32 + 1);
        }
    }
    if legs.len() < trip.count() {
        return Some(legs.len() as u32 + 1);
    }
    None
}

/// Whether just the line has a sector of a number, or the trip's is unlike it.
fn differs_at(trip: &Trip, number: usize, leg: &Leg) -> bool
    requires { 1 ≤ number }
    ensures { result ≡ (nat_lt (count trip.now) number || is_unlike trip.now number leg.now) }
{
    if trip.count() < number {
        return true;
    }
    is_unlike(trip, number, leg)
}

/// Whether a sector of a line differs from the trip's of a number.
fn is_unlike(trip: &Trip, number: usize, leg: &Leg) -> bool
    requires from_one { 1 ≤ number }
    requires to_count { number ≤ count trip.now }
    ensures { result ≡ is_unlike trip.now number leg.now }
{
    match leg {
        Leg::Surface(to) => !trip.sector(number).surface || reaches_other(trip, number, *to),
        Leg::Flown(flown) => is_flown_otherwise(trip, number, flown),
    }
}

/// Whether a flown sector of a line differs from the trip's of a number.
fn is_flown_otherwise(trip: &Trip, number: usize, flown: &LineSector) -> bool
    requires from_one { 1 ≤ number }
    requires to_count { number ≤ count trip.now }
    ensures { result ≡ is_unlike trip.now number (Leg.Flown flown.now) }
{
    let sector = trip.sector(number);
    sector.surface
        || reaches_other(trip, number, flown.to)
        || !flown.carrier.is(sector.carrier)
        || is_marked_otherwise(trip, number, flown.transfer)
}

/// Whether the trip's sector of a number reaches another city.
fn reaches_other(trip: &Trip, number: usize, to: City) -> bool
    requires from_one { 1 ≤ number }
    requires to_count { number ≤ count trip.now }
    ensures { result ≡ reaches_other trip.now number to }
{
    !to.is(trip.sector(number).to)
}

/// Whether a sector's end isn't the trip's last point, and its mark is another than the trip's.
fn is_marked_otherwise(trip: &Trip, number: usize, transfer: bool) -> bool
    requires from_one { 1 ≤ number }
    requires to_count { number ≤ count trip.now }
    ensures { result ≡ is_marked_otherwise trip.now number transfer }
{
    let is_last = number == trip.count();
    !is_last && differ(transfer, !trip.sector(number).stop)
}

/// Whether two marks differ.
fn differ(one: bool, other: bool) -> bool
    ensures { result ≡ differ one other }
{
    if one { !other } else { other }
}

/// What follows of a line that doesn't differ from a trip: its parts go on from part to part within the trip.
pub(crate) fn parts_advance(trip: &Trip, line: &Line)
    requires { difference trip.now line.now ≡ None }
    ensures advances { Advances trip.now (bare_parts line.now) }
    ensures few { length line.now.parts ≤ MOST_SECTORS }
{
    line.law();
    trip.law();
}
