//! What fares cost on the spans of trips.

ghost use Rattle.std.specs.Prelude.{◌<◌, ◌≤◌};
ghost use Rattle.fare_trip.specs.Itinerary.{count};

mod short;
mod surcharged;

use fare_codes::Nuc;
use fare_component::{Amount, applicable};
use fare_csv::read_edition;
use fare_points::{backhaul, higher, placed};
use fare_tariff::{Edition, FareRec};
use fare_trip::{Trip, read_trip};
use short::SHORT;
use std::process::Abort;
use std::test::Fail;
use surcharged::SURCHARGED;

/// What a fare gives on a span, in hundredths of a NUC: its base, surcharge and amount in both directions, its higher
/// intermediate points in both directions, and its backhaul minimum.
#[derive(Clone, Copy)]
struct Row {
    a: usize,
    b: usize,
    fare: u32,
    out: Option<(u64, u32, u64)>,
    back: Option<(u64, u32, u64)>,
    higher_out: Option<(usize, usize, u64)>,
    higher_back: Option<(usize, usize, u64)>,
    backhaul: Option<u64>,
}

/// An edition, a trip, and a row for every span and fare.
#[derive(Clone, Copy)]
struct SpanCase {
    edition: &'static str,
    trip: &'static str,
    rows: &'static [Row],
}

/// The figures of an amount.
fn figures(found: Option<Amount>) -> Option<(u64, u32, u64)> {
    match found {
        None => None,
        Some(found) => Some((
            found.base.hundredths(),
            found.surcharge,
            found.amount.hundredths(),
        )),
    }
}

/// The figures of a higher intermediate point.
fn pair(found: Option<(usize, usize, Nuc)>) -> Option<(usize, usize, u64)> {
    match found {
        None => None,
        Some((i, j, base)) => Some((i, j, base.hundredths())),
    }
}

/// The figure of a minimum.
fn hundredths(found: Option<Nuc>) -> Option<u64> {
    match found {
        None => None,
        Some(found) => Some(found.hundredths()),
    }
}

/// Holds the amounts of a fare on a span against a row.
fn compare_amounts(rt: &impl Abort, edition: &Edition, trip: &Trip, row: &Row)
    requires rises { row.now.a < row.now.b }
    requires within { row.now.b ≤ count trip.now }
{
    let out = figures(applicable(edition, trip, row.a, row.b, row.fare, false));
    assert!(rt; out == row.out, "{}-{} fare {} out", row.a, row.b, row.fare);
    let back = figures(applicable(edition, trip, row.a, row.b, row.fare, true));
    assert!(rt;
        back == row.back,
        "{}-{} fare {} back",
        row.a,
        row.b,
        row.fare
    );
}

/// Holds what a fare is compared with on a span against a row.
fn compare_references(rt: &impl Abort, edition: &Edition, trip: &Trip, row: &Row, fare: &FareRec)
    requires rises { row.now.a < row.now.b }
    requires within { row.now.b ≤ count trip.now }
{
    let out = pair(higher(edition, trip, row.a, row.b, fare, false));
    assert!(rt;
        out == row.higher_out,
        "{}-{} fare {} higher",
        row.a,
        row.b,
        row.fare
    );
    let back = pair(higher(edition, trip, row.a, row.b, fare, true));
    assert!(rt;
        back == row.higher_back,
        "{}-{} fare {} higher back",
        row.a,
        row.b,
        row.fare
    );
    let minimum = hundredths(backhaul(edition, trip, row.a, row.b, fare));
    assert!(rt;
        minimum == row.backhaul,
        "{}-{} fare {} backhaul",
        row.a,
        row.b,
        row.fare
    );
}

/// Holds every row of a case.
fn compare_rows(rt: &impl Abort, edition: &Edition, trip: &Trip, rows: &[Row]) {
    let count = trip.count();
    for row in rows {
        assert!(rt; row.a < row.b);
        assert!(rt; row.b <= count);
        compare_amounts(rt, edition, trip, row);
        match edition.fare_at(row.fare) {
            Some(fare) => compare_references(rt, edition, trip, row, fare),
            None => assert!(rt; false, "record {} is no fare", row.fare),
        }
    }
}

#[test]
fn fares_cost_what_they_cost_elsewhere(rt: HostRuntime) -> Result<(), Fail> {
    for cases in [SHORT.as_slice(), SURCHARGED.as_slice()] {
        for case in cases {
            let edition = read_edition(&rt, rt.alloc(), case.edition.as_bytes())?;
            let trip = read_trip(rt.alloc(), case.trip.as_bytes())?;
            assert!(rt; placed(&edition, &trip).is_none());
            compare_rows(&rt, &edition, &trip, case.rows);
        }
    }
    Ok(())
}
