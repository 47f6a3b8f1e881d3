//! The records that have a fault beside one another: their places, found on all processors, and the fault at each.

ghost use Rattle.std.specs.Prelude.{◌≡◌, ◌<◌, ◌≤◌, length, drop, option_map, slice_index_or, if◌then◌else◌, IfOk, OnOk};
ghost use Rattle.fare_records.specs.declared.record.Record.{Record};
ghost use Rattle.fare_tariff.specs.Check.{fault_at, first_fault};
ghost use Rattle.fare_tariff.specs.Faulty.{has_kind_at};
ghost use Rattle.fare_csv.specs.CheckedFault.{checked_fault};
ghost use Rattle.fare_check.specs.Faults.{faulty_from, stands_first};

use fare_csv::TextFault;
use fare_ports::NoMemory;
use fare_tariff::{Filed, MOST_PLACES, has_kind};
use rayon::prelude::*;
use std::alloc::{AllocError, Global};
use std::marker::Sync;
use std::thread::Threads;

/// The fault of the record at a place, as that of a text.
fn fault_at(filed: &Filed, place: usize) -> Option<TextFault>
    requires within { place < length filed.now }
    requires in_limit { place < MOST_PLACES }
    ensures { (d : Record) →
        result ≡ option_map checked_fault (fault_at filed.now place (slice_index_or filed.now place d)) }
{
    match fare_tariff::fault_at(filed, place) {
        None => None,
        Some(fault) => Some(TextFault::from(fault)),
    }
}

/// The places of the records that have a fault, of so many records, sought on all processors.
fn seek_faulty<R: Threads + Sync>(
    rt: &R,
    alloc: Global,
    filed: &Filed,
    count: u32,
) -> Result<Vec<u32>, AllocError>
    requires count { count ≡ length filed.now }
    requires in_limit { count ≤ MOST_PLACES }
    ensures { IfOk result (λ places. places.items ≡ faulty_from filed.now 0) }
{
    (0..count)
        .into_par_iter()
        .filter(
            |place: &u32| -> bool
                requires { (place.now < length filed.now) × (place.now < MOST_PLACES) }
                ensures { result ≡ has_kind_at filed.entry.now place.now }
            { has_kind(filed, *place as usize) },
        )
        .collect(rt, alloc)
}

/// The places of the records that have a fault, in their order: four bytes for each. More records than there are places
/// are answered as want of memory.
pub(crate) fn faulty_places<R: Threads + Sync>(
    rt: &R,
    alloc: Global,
    filed: &Filed,
) -> Result<Vec<u32>, NoMemory>
    ensures places { IfOk result (λ places. places.items ≡ faulty_from filed.now 0) }
    ensures in_limit { OnOk result (length filed.now ≤ MOST_PLACES) }
{
    let count = filed.records().len();
    if count > MOST_PLACES {
        return Err(NoMemory);
    }
    Ok(seek_faulty(rt, alloc, filed, count as u32)?)
}

/// The fault of the first of the records that have one.
pub(crate) fn first_fault(filed: &Filed, faulty: &[u32]) -> Option<TextFault>
    requires faulty { faulty.now ≡ faulty_from filed.now 0 }
    requires in_limit { length filed.now ≤ MOST_PLACES }
    ensures { result ≡ option_map checked_fault (first_fault filed.now) }
{
    match faulty.first() {
        None => None,
        Some(place) => fault_at(filed, *place as usize),
    }
}

/// Whether a place is the first of those that are left.
fn stands_first(left: &[u32], place: usize) -> bool
    ensures { result ≡ stands_first left.now place }
{
    match left.first() {
        None => false,
        Some(first) => *first as usize == place,
    }
}

/// The fault of the record at a place, where the places of the faulty ones from there on are known.
pub(crate) fn fault_of(filed: &Filed, left: &[u32], place: usize) -> Option<TextFault>
    requires within { place < length filed.now }
    requires in_limit { place < MOST_PLACES }
    requires left { left.now ≡ faulty_from filed.now place }
    ensures { (d : Record) →
        result ≡ option_map checked_fault (fault_at filed.now place (slice_index_or filed.now place d)) }
{
    if !stands_first(left, place) {
        return None;
    }
    fault_at(filed, place)
}

/// The places that are left behind a place.
pub(crate) fn behind(left: &[u32], place: usize) -> &[u32]
    ensures { result.now ≡ (if stands_first left.now place then drop 1 left.now else left.now) }
{
    if !stands_first(left, place) {
        return left;
    }
    &left[1..]
}
