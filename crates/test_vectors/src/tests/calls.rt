//! Each public call on the spans of a trip, on fares between three cities and on fares round the world.

use fare_codes::{City, Day, Indicator, Nuc};
use fare_component::{Amount, applicable};
use fare_csv::read_edition;
use fare_mileage::{Mileage, mileage};
use fare_points::{backhaul, every_carrier, higher, indicator, indicator_of, placed, reference};
use fare_tariff::Edition;
use fare_trip::{Trip, read_trip};
use std::process::Abort;
use std::test::Fail;

/// Fares between three cities: record 9, from London to Paris, is above record 8, from London to Rome.
const THREE_CITIES: &str =
    "HEAD,1,1,2025-01-01\nCUR,GB,GBP,0.750000,0,1,U\nCUR,FR,EUR,0.900000,2,1,N\nCUR,IT,EUR,0.900000,2,1,N\nCITY,LON,GB,2\nCITY,PAR,FR,2\nCITY,ROM,IT,2\nFARE,LON,ROM,EH,YY,Y,OW,,400.00\nFARE,LON,PAR,EH,YY,Y,OW,,450.00\nFARE,PAR,ROM,EH,YY,Y,OW,,200.00\nTPM,LON,PAR,300\nTPM,PAR,ROM,751\nMPM,LON,ROM,EH,1000\nEMA,LON,ROM,EH,PAR,1\nEND\n";

/// London to Rome, with a stopover in Paris.
const BY_PARIS: &str =
    r#"{"sale":"2025-03-01","from":"LON","sectors":[{"to":"PAR","carrier":"Q1","day":"2025-04-10","cabin":"Y"},{"to":"ROM","carrier":"Q1","day":"2025-04-12","cabin":"Y"}]}"#;

/// Half round trips from London round the world, of which that to Tokyo over both oceans is record 11.
const WORLD: &str =
    "HEAD,1,7,2025-01-01\nCUR,GB,GBP,0.750000,0,1,U\nCUR,JP,JPY,110.000000,0,100,U\nCUR,US,USD,1.000000,2,1,N\nCITY,LON,GB,2\nCITY,TYO,JP,3\nCITY,LAX,US,1\nCITY,NYC,US,1\nRULE,FLEX,5,5,0,3,365,Y,*,*\nFARE,LON,TYO,EH,YY,Y,HR,FLEX,1200.00\nFARE,LON,TYO,AP,YY,Y,HR,FLEX,1500.00\nFARE,LON,LAX,AT,YY,Y,HR,FLEX,900.00\nFARE,LON,NYC,AT,YY,Y,HR,FLEX,700.00\nTPM,TYO,LAX,5450\nTPM,LAX,NYC,2470\nTPM,NYC,LON,3450\nMPM,LON,TYO,AP,11000\nEND\n";

/// London, Tokyo, Los Angeles, New York and London again.
const ROUND: &str =
    r#"{"sale":"2025-03-01","from":"LON","sectors":[{"to":"TYO","carrier":"Q1","day":"2025-04-10","cabin":"Y"},{"to":"LAX","carrier":"Q2","day":"2025-04-20","cabin":"Y"},{"to":"NYC","carrier":"Q2","day":"2025-04-25","cabin":"Y"},{"to":"LON","carrier":"Q2","day":"2025-05-01","cabin":"Y"}]}"#;

/// The name of a mileage, its surcharge or sector, and its net miles.
fn miles(found: Mileage) -> (&'static str, u32, u32) {
    match found {
        Mileage::Direct => ("Direct", 0, 0),
        Mileage::Within(miles) => ("Within", 0, miles.net),
        Mileage::Excess(step, miles) => ("Excess", step, miles.net),
        Mileage::NoTpm(number) => ("NoTpm", number, 0),
        Mileage::NoMpm => ("NoMpm", 0, 0),
        Mileage::Over(miles) => ("Over", 0, miles.net),
    }
}

/// The base, the surcharge and the amount of a component.
fn figures(found: Option<Amount>) -> Option<(u64, u32, u64)> {
    match found {
        None => None,
        Some(found) => Some((
            found.base.hundredths(),
            found.surcharge,
            found.amount.hundredths(),
        )),
    }
}

/// The indicators of sectors that need not be a span.
fn holds_indicators(rt: &impl Abort, edition: &Edition, trip: &Trip) {
    assert!(rt; trip.count() == 4);
    assert!(rt; indicator(edition, trip, 1, 4) == Indicator::AP);
    assert!(rt; indicator_of(edition, trip, &[1]) == Indicator::EH);
    assert!(rt; indicator_of(edition, trip, &[3]) == Indicator::WH);
    assert!(rt; indicator_of(edition, trip, &[1, 2]) == Indicator::PA);
    assert!(rt; indicator_of(edition, trip, &[1, 4]) == Indicator::AT);
    assert!(rt; indicator_of(edition, trip, &[4, 2]) == Indicator::AP);
}

/// What the through fare is compared with, where the fare to the stopover is above it.
fn holds_references(rt: &impl Abort, edition: &Edition, trip: &Trip) {
    assert!(rt; trip.count() == 2);
    let through = edition.fare_at(8).expect(rt, "a fare");
    let london = City::read(b"LON").expect(rt, "a city");
    let paris = City::read(b"PAR").expect(rt, "a city");
    let on = Day::read(b"2025-04-10").expect(rt, "a day");
    let to_paris = reference(edition, london, paris, Indicator::EH, through, on);
    assert!(rt; to_paris == Some(Nuc::new(45_000)));
    assert!(rt; higher(edition, trip, 0, 2, through, false) == Some((0, 1, Nuc::new(45_000))));
    assert!(rt; backhaul(edition, trip, 0, 2, through) == Some(Nuc::new(50_000)));
}

/// The miles of the whole trip, of one sector, and for an indicator for which none are permitted.
fn holds_miles(rt: &impl Abort, edition: &Edition, trip: &Trip) {
    assert!(rt; trip.count() == 2);
    assert!(rt; miles(mileage(edition, trip, 0, 2, Indicator::EH)) == ("Excess", 5, 1_050));
    assert!(rt; miles(mileage(edition, trip, 0, 1, Indicator::EH)) == ("Direct", 0, 0));
    assert!(rt; miles(mileage(edition, trip, 0, 2, Indicator::AT)) == ("NoMpm", 0, 0));
}

#[test]
fn fares_between_three_cities(rt: HostRuntime) -> Result<(), Fail> {
    let edition = read_edition(&rt, rt.alloc(), THREE_CITIES.as_bytes())?;
    let trip = read_trip(rt.alloc(), BY_PARIS.as_bytes())?;
    assert!(rt; every_carrier() == edition.fare_at(8).ok_or("no fare")?.carrier);
    assert!(rt; placed(&edition, &trip).is_none());
    holds_references(&rt, &edition, &trip);
    holds_miles(&rt, &edition, &trip);
    assert!(rt; trip.count() == 2);
    let found = figures(applicable(&edition, &trip, 0, 2, 8, false));
    assert!(rt; found == Some((45_000, 5, 47_250)));
    Ok(())
}

#[test]
fn the_way_back_round_the_world(rt: HostRuntime) -> Result<(), Fail> {
    let edition = read_edition(&rt, rt.alloc(), WORLD.as_bytes())?;
    let trip = read_trip(rt.alloc(), ROUND.as_bytes())?;
    holds_indicators(&rt, &edition, &trip);
    assert!(rt; trip.count() == 4);
    let found = figures(applicable(&edition, &trip, 1, 4, 11, true));
    assert!(rt; found == Some((150_000, 5, 157_500)));
    Ok(())
}
