//! Whether no record has a kind. The records are asked group by group, in which those with one key are together: so
//! each is read once, wherever it stands in a text, and each processor has its share of the markets.

ghost use Rattle.std.specs.Prelude.{◌≡◌, ◌+◌, ◌/◌, ◌%◌, ◌<◌, ◌≤◌, ◌&&◌, ℕ, Some, false, true, length, map};
ghost use Rattle.std.specs.Prelude.{slice_index_or, take};
ghost use Rattle.std.specs.List.{position_from};
ghost use Rattle.fare_records.specs.Keyed.{own_key};
ghost use Rattle.fare_tariff.specs.Faulty.{clash_of, has_kind_at, is_of, is_suspect, IsClear, IsClearAt};
ghost use Rattle.fare_tariff.specs.Seen.{may_clash};

use crate::check::clash::clash_at;
use crate::check::names::names_unknown;
use crate::check::numbers::{has_same_points, is_zero_mileage};
use crate::check::seen::{BUCKETS, Seen};
use fare_index::{FEWEST_APART, Groups};
use fare_records::{Filed, MOST_RECORDS, Record};
use rayon::prelude::*;
use std::marker::Sync;
use std::thread::Threads;

/// So many records behind one another are a block. A block is read from its start to its end.
const BLOCK: usize = 64;

/// The blocks are dealt out to so many strips: a text without order has the first records of most groups at its start.
const STRIPS: usize = 64;

/// Whether the record at a place may clash with those of its group that were passed, and clashes with one before it.
fn clashes_among(filed: &Filed, place: usize, one: &Record, seen: &Seen) -> bool
    requires within { place < length filed.now }
    requires at { one.now ≡ slice_index_or filed.now place one.now }
    requires long { length seen.now.buckets ≡ BUCKETS }
    ensures { result ≡ (may_clash seen.now one.now && clash_of (take place filed.now) one.now) }
{
    seen.may_clash(one) && clash_at(filed, place, one)
}

/// Whether one of the tests of the record at a place in the limit is true, where those of its group before it were
/// passed.
fn is_suspect(filed: &Filed, place: usize, one: &Record, seen: &Seen) -> bool
    requires within { place < length filed.now }
    requires at { one.now ≡ slice_index_or filed.now place one.now }
    requires long { length seen.now.buckets ≡ BUCKETS }
    ensures { result ≡ is_suspect filed.now seen.now place one.now }
{
    clashes_among(filed, place, one, seen)
        || (names_unknown(filed, one) || (has_same_points(one) || is_zero_mileage(one)))
}

/// Whether no record is suspect of the group that begins with a record at a place. A fare whose bucket is empty has the
/// key of none before it, so that few are compared.
fn is_clear_group(filed: &Filed, groups: &Groups<'_, Record>, first: usize, one: &Record) -> bool
    requires grouped { groups.now.keys ≡ map own_key filed.now }
    requires first { position_from (is_of groups.now (own_key one.now)) 0 filed.now ≡ Some first }
    ensures { result ≡ true → IsClear filed.now groups.now (own_key one.now) }
{
    let mut seen = Seen::new();
    let mut place = first;
    loop {
        let other = &filed.records()[place];
        if place >= MOST_RECORDS || is_suspect(filed, place, other, &seen) {
            return false;
        }
        let Some(next) = groups.behind(place) else {
            return true;
        };
        seen.note(other);
        place = next;
    }
}

/// Whether no record is suspect of a group that begins at a place, where one does.
fn is_clear_at(filed: &Filed, groups: &Groups<'_, Record>, place: usize) -> bool
    requires grouped { groups.now.keys ≡ map own_key filed.now }
    requires within { place < length filed.now }
    ensures { result ≡ true → IsClearAt filed.now groups.now place }
{
    !groups.leads(place) || is_clear_group(filed, groups, place, &filed.records()[place])
}

/// Whether no record is suspect of the groups that begin in the block of records from a place on.
fn is_clear_block(filed: &Filed, groups: &Groups<'_, Record>, start: usize) -> bool
    requires { groups.now.keys ≡ map own_key filed.now }
    ensures { result ≡ true → (place : ℕ) → start ≤ place → place < start + BLOCK → place < length filed.now →
        IsClearAt filed.now groups.now place }
{
    let end = start.saturating_add(BLOCK).min(filed.records().len());
    for place in start..end {
        if !is_clear_at(filed, groups, place) {
            return false;
        }
    }
    true
}

/// Whether no record is suspect of the groups that begin in the blocks of a strip.
fn is_clear_strip(filed: &Filed, groups: &Groups<'_, Record>, strip: usize) -> bool
    requires grouped { groups.now.keys ≡ map own_key filed.now }
    requires within { strip < STRIPS }
    ensures { result ≡ true → (place : ℕ) → place / BLOCK % STRIPS ≡ strip → place < length filed.now →
        IsClearAt filed.now groups.now place }
{
    let mut start = strip * BLOCK;
    while start < filed.records().len() {
        if !is_clear_block(filed, groups, start) {
            return false;
        }
        start = start.saturating_add(STRIPS * BLOCK);
    }
    true
}

/// Of how many strips a processor takes at least, of so many records. Nothing is stated of it but that it is speed.
fn fewest_strips(records: usize) -> usize {
    if records < FEWEST_APART { STRIPS } else { 1 }
}

/// Whether no record has a kind, asked on all processors. Records that have none may be taken for ones that do.
pub(crate) fn is_clear<R: Threads + Sync>(rt: &R, filed: &Filed) -> bool
    ensures { result ≡ true → (place : ℕ) → place < length filed.now → has_kind_at filed.now place ≡ false }
{
    let groups = filed.groups();
    !(0..STRIPS)
        .into_par_iter()
        .with_min_len(fewest_strips(filed.records().len()))
        .any(
            rt,
            |strip: usize| -> bool
                requires within { strip < STRIPS }
                requires grouped { groups.keys ≡ map own_key filed.now }
                ensures { result ≡ false → (place : ℕ) → place / BLOCK % STRIPS ≡ strip →
                    place < length filed.entry.now → IsClearAt filed.entry.now groups.entry place }
            { !is_clear_strip(filed, &groups, strip) },
        )
}
