//! What a search begins with: dives for a price, and what is behind each point of the trip under a ceiling just below
//! it, where it is far above what all costs at least. Such a price is one that a circle minimum has raised.

ghost use Rattle.std.specs.Prelude.{◌≡◌, ◌≤◌, ◌<◌, None};
ghost use Rattle.fare_bounds.specs.Covers.{rest_at};
ghost use Rattle.fare_branch.specs.Dive.{IsDived};
ghost use Rattle.fare_branch.specs.Opening.{is_far};
ghost use Rattle.fare_branch.specs.Shares.{IsBegun};
ghost use Rattle.fare_branch.specs.Walked.{IsUnderAll};
ghost use Rattle.fare_homing.specs.Rows.{AreHomingsOf};

use crate::best_so_far::{Found, keep};
use crate::bound::{Bound, NO_PRICE};
use crate::descent::dive;
use crate::pieces::Piece;
use fare_component::Table;
use fare_floors::{add_bar, bar_limit, remake};
use fare_homing::{Homing, add_barred, number_at};

/// Under how many ceilings a search dives.
const MOST_CEILINGS: u32 = 4;

/// Takes what a dive comes to, where that is lawful and before the best that was found.
fn try_dive<B: Bound>(
    table: &Table,
    homing: &Homing,
    piece: Piece,
    best: Found,
    bound: &mut B,
) -> Found
    requires homing { AreHomingsOf table.now.edition table.now.trip homing.now }
    requires under { IsUnderAll table.now.edition table.now.trip (B.fixed bound.old) }
    ensures fixed { B.fixed bound.new ≡ B.fixed bound.old }
    ensures dived { IsDived table.now.edition table.now.trip piece (B.least bound.old) best (B.least bound.new) result }
{
    match dive(table, homing, piece) {
        None => best,
        Some((front, price)) => keep(table, &front, price, best, bound),
    }
}

/// Whether a price is half as much again as what all costs at least, or more, so that a ceiling is worth its time: a
/// circle minimum may have raised it.
pub fn is_far(homing: &Homing, price: u64) -> bool
    ensures { result ≡ is_far price (rest_at homing.now.rest 0) }
{
    match number_at(&homing.rest, 0).amount() {
        None => false,
        Some(floor) => price != NO_PRICE && floor.saturating_add(floor / 2) <= price,
    }
}

/// The ceiling under which the next dive looks: just below the price known, where that is far above what all costs at
/// least and no dive was made under it yet; but first the price up to which something is known of the units.
fn next_ceiling(homing: &Homing, least: u64) -> Option<u64> {
    let below = least.saturating_sub(1);
    let limit = match homing.ceiling {
        None => bar_limit(homing, 0),
        Some(ceiling) if below <= ceiling.price => return None,
        Some(_ceiling) => None,
    };
    match limit {
        Some(limit) if least != NO_PRICE => Some(limit.min(below)),
        _ if is_far(homing, least) => Some(below),
        _ => None,
    }
}

/// Adds what is known of the units of constructions up to a price, where one is known.
fn add_known(table: &Table, homing: &mut Homing, least: u64)
    requires homing { AreHomingsOf table.now.edition table.now.trip homing.old }
    ensures homing { AreHomingsOf table.now.edition table.now.trip homing.new }
{
    if least != NO_PRICE {
        add_bar(table, homing, least);
    }
}

/// What the first dive comes to in a piece; what is known of the units of constructions up to its price is then added.
fn first_dive<B: Bound>(table: &Table, homing: &mut Homing, piece: Piece, bound: &mut B) -> Found
    requires homing { AreHomingsOf table.now.edition table.now.trip homing.old }
    requires under { IsUnderAll table.now.edition table.now.trip (B.fixed bound.old) }
    ensures homing { AreHomingsOf table.now.edition table.now.trip homing.new }
    ensures fixed { B.fixed bound.new ≡ B.fixed bound.old }
    ensures dived { IsDived table.now.edition table.now.trip piece (B.least bound.old) None (B.least bound.new)
        result }
{
    let best = try_dive(table, homing, piece, None, bound);
    let least = bound.seen();
    add_known(table, homing, least);
    best
}

/// What dives come to in a piece; what is behind each point is then known under the last ceiling.
pub(crate) fn dives<B: Bound>(
    table: &Table,
    homing: &mut Homing,
    piece: Piece,
    bound: &mut B,
) -> Found
    requires homing { AreHomingsOf table.now.edition table.now.trip homing.old }
    requires under { IsUnderAll table.now.edition table.now.trip (B.fixed bound.old) }
    ensures homing { AreHomingsOf table.now.edition table.now.trip homing.new }
    ensures fixed { B.fixed bound.new ≡ B.fixed bound.old }
    ensures dived { IsDived table.now.edition table.now.trip piece (B.least bound.old) None (B.least bound.new)
        result }
{
    let mut best = first_dive(table, homing, piece, bound);
    for _ceiling in 0..MOST_CEILINGS {
        let least = bound.seen();
        let Some(price) = next_ceiling(homing, least) else {
            return best;
        };
        remake(homing, table, price);
        if homing.ceiling.is_none() {
            return best;
        }
        best = try_dive(table, homing, piece, best, bound);
    }
    best
}

/// Whether nothing is below the price known, by what is behind the points under a ceiling just below it.
fn is_settled(homing: &Homing, ceiling: u64, least: u64) -> bool {
    least.saturating_sub(1) <= ceiling && homing.rest[0].is_nothing()
}

/// Makes what is behind each point anew under a ceiling that the price known is under, unless there is nothing below it.
pub(crate) fn raise(table: &Table, homing: &mut Homing, least: u64)
    requires homing { AreHomingsOf table.now.edition table.now.trip homing.old }
    ensures homing { AreHomingsOf table.now.edition table.now.trip homing.new }
{
    match homing.ceiling {
        Some(ceiling) if ceiling.price < least && !is_settled(homing, ceiling.price, least) => {
            remake(homing, table, least)
        }
        _ => {}
    }
}

/// Adds what is behind each point where some fares are barred, unless all costs no less than the price known.
pub(crate) fn bring_closer(table: &Table, homing: &mut Homing, least: u64)
    requires homing { AreHomingsOf table.now.edition table.now.trip homing.old }
    ensures homing { AreHomingsOf table.now.edition table.now.trip homing.new }
{
    match number_at(&homing.rest, 0).amount() {
        Some(floor) if floor < least => add_barred(table, homing),
        _ => {}
    }
}

/// What dives come to in a piece. What is behind each point is then known for a search that begins with it.
pub(crate) fn opened<B: Bound>(
    table: &Table,
    homing: &mut Homing,
    piece: Piece,
    bound: &mut B,
) -> Found
    requires homing { AreHomingsOf table.now.edition table.now.trip homing.old }
    requires under { IsUnderAll table.now.edition table.now.trip (B.fixed bound.old) }
    ensures homing { AreHomingsOf table.now.edition table.now.trip homing.new }
    ensures fixed { B.fixed bound.new ≡ B.fixed bound.old }
    ensures begun { IsBegun table.now.edition table.now.trip piece (B.least bound.new) result }
{
    let first = dives(table, homing, piece, bound);
    let known = bound.seen();
    raise(table, homing, known);
    bring_closer(table, homing, known);
    first
}
