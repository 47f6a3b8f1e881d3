//! The pruned search: what it makes of a trip there and back with a side trip, and what the plain one makes of drills.

ghost use Rattle.std.specs.Prelude.{◌≤◌};

use fare_bounds::Rest;
use fare_branch::{BranchQuoter, OwnBound, Partial, Piece, choices, floor_of, search};
use fare_codes::{LAST_SEED, MOST_SECTORS};
use fare_component::Table;
use fare_csv::read_edition;
use fare_drill::drill_input;
use fare_rules::Part;
use fare_trip::read_trip;
use fare_units::{Construction, PlainQuoter, Quoter, earlier};
use std::alloc::Global;
use std::process::Abort;
use std::test::Fail;
use std::thread::Threads;

/// Half round trips from London to Paris and from Paris to Rome, records 8 and 9.
const SIDE_TRIP: &str =
    "HEAD,1,1,2025-01-01\nCUR,GB,GBP,0.750000,0,1,U\nCUR,FR,EUR,0.750000,0,1,U\nCUR,IT,EUR,0.750000,0,1,U\nCITY,LON,GB,2\nCITY,PAR,FR,2\nCITY,ROM,IT,2\nFARE,LON,PAR,EH,YY,Y,HR,,100.00\nFARE,PAR,ROM,EH,YY,Y,HR,,80.00\nEND\n";

/// From London by Paris to Rome, and the same way back.
const THERE_AND_BACK: &str =
    r#"{"sale":"2025-03-01","from":"LON","sectors":[{"to":"PAR","carrier":"Q1","day":"2025-04-10","cabin":"Y"},{"to":"ROM","carrier":"Q1","day":"2025-04-12","cabin":"Y"},{"to":"PAR","carrier":"Q1","day":"2025-04-14","cabin":"Y"},{"to":"LON","carrier":"Q1","day":"2025-04-16","cabin":"Y"}]}"#;

/// The price of the best construction of a piece, and how many parts it has.
fn searched(table: &Table, piece: Piece) -> Option<(u64, usize)> {
    let rest = Rest::of(table);
    let mut bound = OwnBound::new(table.edition(), table.trip());
    match search(table, &rest, piece, &mut bound) {
        None => None,
        Some((best, price)) => Some((price, best.parts().len())),
    }
}

/// The floors of no part, and of the first half round trip alone.
fn floors(table: &Table) -> (Option<u64>, Option<u64>) {
    let rest = Rest::of(table);
    let none = Partial::new();
    let all = floor_of(table, &rest, &none);
    let first = Part {
        end: 1,
        unit: 1,
        fare: 8,
    };
    match none.next(table, first) {
        None => (all, None),
        Some(one) => (all, floor_of(table, &rest, &one)),
    }
}

#[test]
fn a_side_trip(rt: HostRuntime) -> Result<(), Fail> {
    let edition = read_edition(&rt, rt.alloc(), SIDE_TRIP.as_bytes())?;
    let trip = read_trip(rt.alloc(), THERE_AND_BACK.as_bytes())?;
    let table = Table::prepare(rt.alloc(), &edition, &trip)?;
    assert_eq!(rt; choices(&table), 1);
    assert_eq!(rt; floors(&table), (Some(36_000), Some(36_000)));
    let all = Piece { first: 0, past: 1 };
    assert_eq!(rt; searched(&table, all), Some((36_000, 4)));
    let none = Piece { first: 1, past: 9 };
    assert_eq!(rt; searched(&table, none), None);
    Ok(())
}

/// Whether two answers are the same: none, or constructions of one price of which neither comes first.
fn is_same(one: &Option<(Construction, u64)>, other: &Option<(Construction, u64)>) -> bool {
    match (one, other) {
        (None, None) => true,
        (Some((one, price)), Some((other, cost))) => {
            price == cost
                && !earlier(one, *price, other, *cost)
                && !earlier(other, *cost, one, *price)
        }
        _ => false,
    }
}

/// Holds the pruned search of the drill of a seed against the plain one.
fn compare_drill<R: Threads + Sync + Abort>(
    rt: &R,
    alloc: Global,
    seed: u32,
    sectors: u32,
) -> Result<(), Fail>
    requires seed { seed ≤ LAST_SEED }
    requires some { 1 ≤ sectors }
    requires few { sectors ≤ MOST_SECTORS }
{
    let (edition, trip) = drill_input(rt, alloc, seed, sectors, 0)?;
    let plain = PlainQuoter.quote(rt, alloc, &edition, &trip)?;
    let pruned = BranchQuoter.quote(rt, alloc, &edition, &trip)?;
    assert!(rt; is_same(&plain, &pruned), "seed {seed}, {sectors} sectors");
    Ok(())
}

#[test]
fn drills_of_up_to_four_sectors(rt: HostRuntime) -> Result<(), Fail> {
    for sectors in 1..5 {
        for seed in 1..21 {
            compare_drill(&rt, rt.alloc(), seed, sectors)?;
        }
    }
    Ok(())
}
