//! Why some first parts are not gone on from: what the last of them breaks, whatever follows.

ghost use Rattle.std.specs.Prelude.{◌≡◌, ◌≤◌, length, is_some};
ghost use Rattle.fare_rules.specs.Construction.{own};
ghost use Rattle.fare_rules.specs.Shape.{follows, is_chained};
ghost use Rattle.fare_lawful.specs.Advance.{Advances};
ghost use Rattle.fare_lawful.specs.Places.{IsPlace};
ghost use Rattle.fare_floors.specs.Floors.{IsMadeWith};
ghost use Rattle.fare_floors.specs.Refusals.{onward_amount, is_worthless, is_broken_off, is_hopeless};

use crate::ending::{has_amount, needs_more};
use fare_component::Table;
use fare_rules::Part;
use fare_trip::Trip;
use fare_units::{
    Construction, is_fruitless, is_homeward, is_priceless, is_stranded, part_at, start_of,
};

/// Whether the last of some parts has an amount as one that is not the last of its unit of half round trips.
fn has_onward_amount(table: &Table, parts: &Construction) -> bool
    requires made { IsMadeWith table.now parts.now }
    requires some { 1 ≤ length parts.now }
    ensures { result ≡ is_some (onward_amount table.now.edition table.now.trip parts.now (length parts.now)) }
{
    let parts = parts.parts();
    let trip = table.trip();
    let part = part_at(parts, parts.len());
    let back = is_homeward(table.edition(), trip, parts, parts.len());
    has_amount(
        table,
        start_of(trip, parts, parts.len()),
        part.end as usize,
        part.fare,
        back,
    )
}

/// Whether the last of some parts, of a unit, is worthless: the unit must have more parts, and yet the part has no
/// amount there.
fn is_worthless(table: &Table, parts: &Construction, unit: u8) -> bool
    requires made { IsMadeWith table.now parts.now }
    requires some { 1 ≤ length parts.now }
    ensures { result ≡ is_worthless table.now.edition table.now.trip parts.now unit }
{
    needs_more(table, parts.parts(), unit as usize) && !has_onward_amount(table, parts)
}

/// Whether a part begins in the city where another one ends.
fn follows(trip: &Trip, parts: &[Part], before: usize, k: usize) -> bool
    requires advances { Advances trip.now parts.now }
    requires place { IsPlace parts.now k }
    ensures { result ≡ follows trip.now parts.now before k }
{
    let start = start_of(trip, parts, k);
    let end = part_at(parts, before).end as usize;
    trip.point(start).is(trip.point(end))
}

/// Whether each part of a unit begins in the city where the one before it ends.
#[tactic(auto, using(crate::proofs::ChainLemmas::chain_over, crate::proofs::ChainLemmas::chain_begins, crate::proofs::ChainLemmas::chain_joins, crate::proofs::ChainLemmas::chain_breaks, crate::proofs::ChainLemmas::chain_done), unfolding(fare_rules::specs::Construction::own))]
fn is_chained(trip: &Trip, parts: &[Part], unit: usize) -> bool
    requires advances { Advances trip.now parts.now }
    ensures { result ≡ is_chained trip.now parts.now (own parts.now unit) }
{
    let mut before = 0;
    for k in 1..parts.len() + 1 {
        if part_at(parts, k).unit as usize != unit {
            continue;
        }
        if before > 0 && !follows(trip, parts, before, k) {
            return false;
        }
        before = k;
    }
    true
}

/// Whether a unit of some parts is broken off: it must have more parts, and yet one of its parts begins in another city
/// than the one before it ends, so that it can't close.
fn is_broken_off(table: &Table, parts: &Construction, unit: u8) -> bool
    requires made { IsMadeWith table.now parts.now }
    ensures { result ≡ is_broken_off table.now.edition table.now.trip parts.now unit }
{
    let parts = parts.parts();
    needs_more(table, parts, unit as usize) && !is_chained(table.trip(), parts, unit as usize)
}

/// Whether the last of some parts, of a unit, has no place in any lawful construction that begins with them: it crosses
/// a unit, shares one with a one way fare, shuts one that has no price, leaves its unit where it can't come home, has
/// no amount in a unit that must have more parts, or breaks such a one off.
pub(crate) fn is_hopeless(table: &Table, parts: &Construction, unit: u8) -> bool
    requires made { IsMadeWith table.now parts.now }
    requires some { 1 ≤ length parts.now }
    ensures { result ≡ is_hopeless table.now.edition table.now.trip parts.now unit }
{
    let (edition, trip) = (table.edition(), table.trip());
    let places = parts.parts();
    is_fruitless(edition, places)
        || is_priceless(table, places, unit as usize)
        || is_stranded(edition, trip, places, unit as usize)
        || is_worthless(table, parts, unit)
        || is_broken_off(table, parts, unit)
}
