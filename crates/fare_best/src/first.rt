//! The first constructions of all.

ghost use Rattle.std.specs.Prelude.{◌≡◌, ◌≤◌, ℕ, [], List, IfOk, true};
ghost use Rattle.fare_trip.specs.Itinerary.{Itinerary};
ghost use Rattle.fare_tariff.specs.Tariff.{Tariff};
ghost use Rattle.fare_rules.specs.FirstK.{Priced, IsFirstK};
ghost use Rattle.fare_homing.specs.Rows.{AreHomingsOf};
ghost use Rattle.fare_units.specs.Walk.{Completes};
ghost use Rattle.fare_best.specs.Walked.{IsRanked, IsWalked};

use crate::walking::{Wanted, walk};
use fare_branch::{best_of, dived_front, is_far};
use fare_codes::MOST_BEST;
use fare_component::Table;
use fare_floors::{Partial, Stage, add_bar, ahead_of, bar_limit, remake, stack_of};
use fare_homing::{Homing, add_barred, make_homing, number_at, unknown_homing};
use fare_ports::NoMemory;
use fare_ranking::BestList;
use fare_rules::{PRICE_LIMIT, edition_is_valid, price_is_bounded};
use fare_tariff::Edition;
use fare_trip::Trip;
use std::alloc::Global;

/// How many walks have a limit, each twice as far above the least price as the one before.
const MOST_WALKS: u32 = 8;

/// Into how many steps the least price is cut, of which the first limit is one above it at least.
const STEPS: u64 = 128;

/// Which part of what the least price is above the floor of all the first limit is above it at least: where floors are
/// far below what is lawful, so are those of what is a little dearer, and each walk costs as much as another.
const GAP_PARTS: u64 = 4;

/// How many of the last parts of what a dive comes to are tried otherwise for a limit.
const OPEN_PARTS: usize = 4;

/// First k: the first `k` lawful constructions of a trip in an edition by Order, each with its price, or all where
/// fewer are lawful. It takes memory for the table of the trip and for the list.
pub fn first_k(alloc: Global, edition: &Edition, trip: &Trip, k: u32) -> Result<BestList, NoMemory>
    requires some { 1 ≤ k }
    requires few { k ≤ MOST_BEST }
    ensures { IfOk result (λ first. IsFirstK edition.now trip.now k first) }
{
    let table = Table::prepare(alloc, edition, trip)?;
    let mut found = BestList::new(alloc)?;
    fill(&table, k as usize, &mut found);
    Ok(found)
}

/// Finds the first `k`, where nothing was found before.
fn fill(table: &Table, k: usize, found: &mut BestList)
    requires some { 1 ≤ k }
    requires few { k ≤ MOST_BEST }
    requires none { found.old ≡ [] }
    ensures { IsFirstK table.now.edition table.now.trip k found.new }
{
    let Some((_parts, least)) = best_of(table) else {
        return;
    };
    rise(table, k, least, found)
}

/// Finds the first `k`: under what is known of the units of those that cost a little more than the least price, or
/// where these are fewer, without that.
fn rise(table: &Table, k: usize, least: u64, found: &mut BestList)
    requires some { 1 ≤ k }
    requires few { k ≤ MOST_BEST }
    requires ranked { IsRanked table.now.edition table.now.trip k found.old }
    ensures { IsFirstK table.now.edition table.now.trip k found.new }
{
    let mut homing = unknown_homing();
    make_homing(&mut homing, table, None);
    add_bar(table, &mut homing, least);
    let Some(limit) = bar_limit(&homing, least) else {
        return rise_by(table, &mut homing, k, least, found);
    };
    if are_near(table, &mut homing, Wanted { count: k, limit }, least, found) {
        return;
    }
    rise_anew(table, k, least, found)
}

/// Finds the first ones up to a limit under which something is known of the units; whether they cost no more than it.
fn are_near(
    table: &Table,
    homing: &mut Homing,
    wanted: Wanted,
    least: u64,
    found: &mut BestList,
) -> bool
    requires homing { AreHomingsOf table.now.edition table.now.trip homing.old }
    requires some { 1 ≤ wanted.count }
    requires few { wanted.count ≤ MOST_BEST }
    requires ranked { IsRanked table.now.edition table.now.trip wanted.count found.old }
    ensures ranked { IsRanked table.now.edition table.now.trip wanted.count found.new }
    ensures first { result ≡ true → IsFirstK table.now.edition table.now.trip wanted.count found.new }
{
    remake(homing, table, wanted.limit);
    add_barred(table, homing);
    sound(table, homing, wanted.count, found);
    let near = Wanted {
        count: wanted.count,
        limit: least.saturating_add(least / STEPS).min(wanted.limit),
    };
    walk_all(table, homing, near, found);
    if found.is_within(near.count, near.limit) {
        return true;
    }
    walk_all(table, homing, wanted, found);
    found.is_within(wanted.count, wanted.limit)
}

/// Finds the first `k` without what is known of the units. It stands apart since it makes the numbers of the trip once
/// more.
#[inline(never)]
fn rise_anew(table: &Table, k: usize, least: u64, found: &mut BestList)
    requires some { 1 ≤ k }
    requires few { k ≤ MOST_BEST }
    requires ranked { IsRanked table.now.edition table.now.trip k found.old }
    ensures { IsFirstK table.now.edition table.now.trip k found.new }
{
    let mut homing = unknown_homing();
    make_homing(&mut homing, table, None);
    rise_by(table, &mut homing, k, least, found)
}

/// Finds the first `k`. Where the least price is far above what all costs at least, a limit is had at once, since walks
/// up to a lesser one would not be pruned.
fn rise_by(table: &Table, homing: &mut Homing, k: usize, least: u64, found: &mut BestList)
    requires homing { AreHomingsOf table.now.edition table.now.trip homing.old }
    requires some { 1 ≤ k }
    requires few { k ≤ MOST_BEST }
    requires ranked { IsRanked table.now.edition table.now.trip k found.old }
    ensures { IsFirstK table.now.edition table.now.trip k found.new }
{
    add_barred(table, homing);
    if is_far(homing, least) {
        return search_far(table, homing, k, least, found);
    }
    walk_up(table, homing, k, least, found)
}

/// Finds the first `k` by a walk up to the price of the `k`th of those that a dive is near, under a ceiling just below
/// it; where there are fewer of these, by walks whose limit rises.
fn search_far(table: &Table, homing: &Homing, k: usize, least: u64, found: &mut BestList)
    requires homing { AreHomingsOf table.now.edition table.now.trip homing.now }
    requires some { 1 ≤ k }
    requires few { k ≤ MOST_BEST }
    requires ranked { IsRanked table.now.edition table.now.trip k found.old }
    ensures { IsFirstK table.now.edition table.now.trip k found.new }
{
    sound(table, homing, k, found);
    match found.price_of(k) {
        None => walk_up(table, homing, k, least, found),
        Some(limit) => {
            let wanted = Wanted { count: k, limit };
            let ceiling = Some(limit.saturating_sub(1));
            search_to(table, homing, ceiling, wanted, found)
        }
    }
}

/// How far the first limit is above the least price: not at all where that is the floor of all, since then a walk over
/// what costs as much is short, and one over what costs a little more may not be.
fn first_rise(homing: &Homing, least: u64) -> u64 {
    let floor = number_at(&homing.rest, 0).amount().unwrap_or(least);
    let gap = least.saturating_sub(floor);
    if gap == 0 {
        return 0;
    }
    (least / STEPS).max(gap / GAP_PARTS)
}

/// Finds the first `k`, by walks whose limit rises from the least price on until that many cost no more.
fn walk_up(table: &Table, homing: &Homing, k: usize, least: u64, found: &mut BestList)
    requires homing { AreHomingsOf table.now.edition table.now.trip homing.now }
    requires some { 1 ≤ k }
    requires few { k ≤ MOST_BEST }
    requires ranked { IsRanked table.now.edition table.now.trip k found.old }
    ensures { IsFirstK table.now.edition table.now.trip k found.new }
{
    let mut above = first_rise(homing, least);
    for _walk in 0..MOST_WALKS {
        let limit = least.saturating_add(above);
        walk_all(table, homing, Wanted { count: k, limit }, found);
        if found.is_within(k, limit) {
            return;
        }
        above = above.saturating_mul(2).max(least / STEPS);
    }
    finish(table, homing, k, found)
}

/// Finds the first `k` by a walk up to the price of the `k`th of those that a dive is near, or else by one over all.
fn finish(table: &Table, homing: &Homing, k: usize, found: &mut BestList)
    requires homing { AreHomingsOf table.now.edition table.now.trip homing.now }
    requires some { 1 ≤ k }
    requires few { k ≤ MOST_BEST }
    requires ranked { IsRanked table.now.edition table.now.trip k found.old }
    ensures { IsFirstK table.now.edition table.now.trip k found.new }
{
    sound(table, homing, k, found);
    match found.price_of(k) {
        None => search_all(table, homing, k, found),
        Some(limit) => {
            let wanted = Wanted { count: k, limit };
            search_to(table, homing, None, wanted, found)
        }
    }
}

/// Finds the first ones by a walk up to a limit, or where too few cost no more, by one over all.
fn search_to(
    table: &Table,
    homing: &Homing,
    ceiling: Option<u64>,
    wanted: Wanted,
    found: &mut BestList,
)
    requires homing { AreHomingsOf table.now.edition table.now.trip homing.now }
    requires some { 1 ≤ wanted.count }
    requires few { wanted.count ≤ MOST_BEST }
    requires ranked { IsRanked table.now.edition table.now.trip wanted.count found.old }
    ensures { IsFirstK table.now.edition table.now.trip wanted.count found.new }
{
    walk_under(table, homing, ceiling, wanted, found);
    if found.is_within(wanted.count, wanted.limit) {
        return;
    }
    search_all(table, homing, wanted.count, found)
}

/// Finds the first `k` by a walk over all.
fn search_all(table: &Table, homing: &Homing, k: usize, found: &mut BestList)
    requires homing { AreHomingsOf table.now.edition table.now.trip homing.now }
    requires some { 1 ≤ k }
    requires few { k ≤ MOST_BEST }
    requires ranked { IsRanked table.now.edition table.now.trip k found.old }
    ensures { IsFirstK table.now.edition table.now.trip k found.new }
{
    edition_is_valid(table.edition());
    price_is_bounded();
    let _sectors = table.trip().count();
    let all = Wanted {
        count: k,
        limit: PRICE_LIMIT,
    };
    walk_all(table, homing, all, found)
}

/// Finds constructions that end otherwise than what a dive comes to, so that a limit is known.
fn sound(table: &Table, homing: &Homing, k: usize, found: &mut BestList)
    requires homing { AreHomingsOf table.now.edition table.now.trip homing.now }
    requires some { 1 ≤ k }
    requires few { k ≤ MOST_BEST }
    requires ranked { IsRanked table.now.edition table.now.trip k found.old }
    ensures { IsRanked table.now.edition table.now.trip k found.new }
{
    let _sectors = table.trip().count();
    let front = dived_front(table, homing, OPEN_PARTS);
    if front.parts().is_empty() {
        return;
    }
    let ahead = ahead_of(table, homing, &front, stack_of(table, homing, &front));
    let stage = Stage {
        table,
        homing,
        front: &front,
        ahead: &ahead,
    };
    let all = Wanted {
        count: k,
        limit: PRICE_LIMIT,
    };
    walk(&stage, all, found)
}

/// Walks over all constructions up to a limit, under a ceiling where there is one.
fn walk_under(
    table: &Table,
    homing: &Homing,
    ceiling: Option<u64>,
    wanted: Wanted,
    found: &mut BestList,
)
    requires homing { AreHomingsOf table.now.edition table.now.trip homing.now }
    requires some { 1 ≤ wanted.count }
    requires few { wanted.count ≤ MOST_BEST }
    requires ranked { IsRanked table.now.edition table.now.trip wanted.count found.old }
    ensures { IsWalked table.now.edition table.now.trip wanted.count wanted.limit (Completes []) found.new }
{
    if ceiling.is_some() {
        let mut homing = unknown_homing();
        make_homing(&mut homing, table, ceiling);
        add_barred(table, &mut homing);
        return walk_all(table, &homing, wanted, found);
    }
    walk_all(table, homing, wanted, found)
}

/// Walks over all constructions, by what is behind the points of the trip.
fn walk_all(table: &Table, homing: &Homing, wanted: Wanted, found: &mut BestList)
    requires homing { AreHomingsOf table.now.edition table.now.trip homing.now }
    requires some { 1 ≤ wanted.count }
    requires few { wanted.count ≤ MOST_BEST }
    requires ranked { IsRanked table.now.edition table.now.trip wanted.count found.old }
    ensures { IsWalked table.now.edition table.now.trip wanted.count wanted.limit (Completes []) found.new }
{
    let _sectors = table.trip().count();
    let none = Partial::new();
    let ahead = ahead_of(table, homing, &none, stack_of(table, homing, &none));
    let stage = Stage {
        table,
        homing,
        front: &none,
        ahead: &ahead,
    };
    walk(&stage, wanted, found)
}

/// A law: at most one list is First k, so `first_k` has one answer.
pub fn first_k_is_one()
    ensures { (tariff : Tariff) (trip : Itinerary) (k : ℕ) (xs ys : List Priced) → IsFirstK tariff trip k xs
        → IsFirstK tariff trip k ys → xs ≡ ys }
{}
