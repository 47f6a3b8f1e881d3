//! The least kind of a record, and the fault of the least record that has one.

ghost use Rattle.std.specs.Prelude.{◌≡◌, ◌<◌, ◌≤◌, length, slice_index_or, take, IfNone};
ghost use Rattle.fare_tariff.specs.Check.{kind_of, first_fault};
ghost use Rattle.fare_tariff.specs.Faulty.{is_faulty, has_kind_at, fault_of, first_faulty};

use crate::check::clash::clash_at;
use crate::check::clear::is_clear;
use crate::check::keys::{duplicate_of, overlap_of};
use crate::check::names::{
    names_unknown, names_unknown_city, names_unknown_currency, names_unknown_rule,
};
use crate::check::numbers::{has_same_points, is_one_too_many, is_zero_mileage};
use crate::check::{CheckFault, CheckKind};
use fare_records::{Filed, MOST_PLACES, MOST_RECORDS, Record};
use rayon::prelude::*;
use std::marker::Sync;
use std::thread::Threads;

/// The least kind of a record at a place.
#[tactic(auto, unfolding(crate::specs::Check::kind_of))]
fn kind_of(filed: &Filed, place: usize, one: &Record) -> Option<CheckKind>
    requires within { place ≤ length filed.now }
    requires in_limit { place ≤ MOST_PLACES }
    ensures kind { result ≡ kind_of filed.now (take place filed.now) one.now }
    ensures within { IfNone result (place < MOST_RECORDS) }
{
    if let Some(first) = duplicate_of(filed, place, one) {
        return Some(CheckKind::Duplicate(first));
    }
    if names_unknown_city(filed, one) {
        return Some(CheckKind::UnknownCity);
    }
    if names_unknown_rule(filed, one) {
        return Some(CheckKind::UnknownRule);
    }
    if names_unknown_currency(filed, one) {
        return Some(CheckKind::UnknownCurrency);
    }
    if is_one_too_many(filed, place, one) {
        return Some(CheckKind::TooManyFares);
    }
    if has_same_points(one) {
        return Some(CheckKind::SamePoint);
    }
    if is_zero_mileage(one) {
        return Some(CheckKind::ZeroMileage);
    }
    if place >= MOST_RECORDS {
        return Some(CheckKind::OutOfLimit);
    }
    overlap_of(filed, place, one).map(|first| CheckKind::Overlap(first))
}

/// Whether the record at a place in the limit has a kind.
fn is_faulty(filed: &Filed, place: usize, one: &Record) -> bool
    requires within { place < length filed.now }
    requires at { one.now ≡ slice_index_or filed.now place one.now }
    ensures { result ≡ is_faulty filed.now (take place filed.now) one.now }
{
    clash_at(filed, place, one)
        || (names_unknown(filed, one) || (has_same_points(one) || is_zero_mileage(one)))
}

/// Whether the record at a place has a kind, by tests that look at no more than so many fares of one market as an edition
/// may have.
pub fn has_kind(filed: &Filed, place: usize) -> bool
    requires { place < length filed.now }
    ensures { result ≡ has_kind_at filed.now place }
{
    if place >= MOST_RECORDS {
        return true;
    }
    is_faulty(filed, place, &filed.records()[place])
}

/// The least place of a record that has a kind, sought on all processors.
fn first_faulty<R: Threads + Sync>(rt: &R, filed: &Filed) -> Option<usize>
    ensures { result ≡ first_faulty filed.now }
{
    (0..filed.records().len()).into_par_iter().position_first(
        rt,
        |place: usize| -> bool
            requires { place < length filed.now }
            ensures { result ≡ has_kind_at filed.entry.now place }
        { has_kind(filed, place) },
    )
}

/// The fault of the record at a place, by the least of its kinds; nothing where it has none.
pub fn fault_at(filed: &Filed, place: usize) -> Option<CheckFault>
    requires within { place < length filed.now }
    requires in_limit { place < MOST_PLACES }
    ensures { result ≡ fault_of filed.now place }
{
    let one = &filed.records()[place];
    match kind_of(filed, place, one) {
        None => None,
        Some(kind) => Some(CheckFault::At {
            number: place as u32 + 2,
            kind,
        }),
    }
}

/// The fault of the least record that has one. That none has one, as in every edition, is found sooner than the first.
pub(crate) fn first_fault<R: Threads + Sync>(rt: &R, filed: &Filed) -> Option<CheckFault>
    ensures { result ≡ first_fault filed.now }
{
    if is_clear(rt, filed) {
        return None;
    }
    match first_faulty(rt, filed) {
        None => None,
        Some(place) => fault_at(filed, place),
    }
}
