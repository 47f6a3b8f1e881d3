//! The table of a trip, entry by entry, and its rests.

mod short;

use fare_bounds::Rest;
use fare_codes::Nuc;
use fare_component::{Amount, Entry, Table};
use fare_csv::read_edition;
use fare_trip::read_trip;
use short::TABLES;
use std::process::Abort;
use std::test::Fail;

/// What an entry costs on its span, in hundredths of a NUC: priced out, priced back, and as a one way unit.
#[derive(Clone, Copy)]
struct Row {
    a: usize,
    b: usize,
    fare: u32,
    out: Option<u64>,
    back: Option<u64>,
    single: Option<u64>,
}

/// An edition, a trip, its rests from the first point to the last, and all entries span by span.
#[derive(Clone, Copy)]
struct TableCase {
    edition: &'static str,
    trip: &'static str,
    rests: &'static [Option<u64>],
    rows: &'static [Row],
}

/// The figure of an amount.
fn figure(found: &Option<Amount>) -> Option<u64> {
    match found {
        None => None,
        Some(found) => Some(found.amount.hundredths()),
    }
}

/// The figure of a price.
fn hundredths(found: &Option<Nuc>) -> Option<u64> {
    match found {
        None => None,
        Some(found) => Some(found.hundredths()),
    }
}

/// Whether an entry is that of a row.
fn is_of(entry: &Entry, row: &Row) -> bool {
    entry.fare == row.fare
        && figure(&entry.out) == row.out
        && figure(&entry.back) == row.back
        && hundredths(&entry.single) == row.single
}

/// Holds the entries of a span against the rows of the span, in their order, and says how many there are.
fn compare_span(rt: &impl Abort, table: &Table, a: usize, b: usize, rows: &[Row]) -> usize {
    let entries = table.entries(a, b);
    let mut met = 0;
    for row in rows {
        if row.a == a && row.b == b {
            assert!(rt; met < entries.len(), "{a}-{b} lacks fare {}", row.fare);
            assert!(rt; is_of(&entries[met], row), "{a}-{b} fare {}", row.fare);
            met += 1;
        }
    }
    assert!(rt; met == entries.len(), "{a}-{b} has more");
    met
}

/// Holds the entries of all spans.
fn compare_spans(rt: &impl Abort, table: &Table, rows: &[Row]) {
    let last = table.trip().count();
    for a in 0..last {
        for b in 0..last + 1 {
            compare_span(rt, table, a, b, rows);
        }
    }
}

/// Holds the rests.
fn compare_rests(rt: &impl Abort, table: &Table, rests: &[Option<u64>]) {
    let found = Rest::of(table);
    assert!(rt; rests.len() == table.trip().count() + 1);
    for i in 0..rests.len() {
        assert!(rt; found.from_point(i) == rests[i], "the rest from {i}");
    }
}

#[test]
fn tables_hold_what_they_hold_elsewhere(rt: HostRuntime) -> Result<(), Fail> {
    for case in TABLES.as_slice() {
        let edition = read_edition(&rt, rt.alloc(), case.edition.as_bytes())?;
        let trip = read_trip(rt.alloc(), case.trip.as_bytes())?;
        let table = Table::prepare(rt.alloc(), &edition, &trip)?;
        compare_spans(&rt, &table, case.rows);
        compare_rests(&rt, &table, case.rests);
    }
    Ok(())
}
