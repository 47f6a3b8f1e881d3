//! The best construction by every number of workers.

mod cases;
mod lonely_rules;

ghost use Rattle.std.specs.Prelude.{◌≤◌};

use cases::{CASES, Case, IN_ONE_COUNTRY, Input};
use fare_branch::BranchQuoter;
use fare_codes::{LAST_SEED, MOST_WORKERS};
use fare_csv::read_edition;
use fare_drill::drill_input;
use fare_ports::OpenGate;
use fare_rules::Part;
use fare_split::SplitQuoter;
use fare_tariff::Edition;
use fare_trip::{Trip, read_trip};
use fare_units::{Construction, PlainQuoter, Quoter};
use lonely_rules::{
    A_DEAR_FARE_BESIDES, A_SECTOR_MORE_THAN_RULES, AS_MANY_RULES_AS_SECTORS, ONE_RULE_TOO_FEW,
};
use std::alloc::Global;
use std::process::Abort;
use std::test::Fail;
use std::thread::Threads;

/// The best construction of a trip by a number of workers.
fn best_by<R: Threads + Sync>(
    rt: &R,
    alloc: Global,
    edition: &Edition,
    trip: &Trip,
    workers: u32,
) -> Result<(Construction, u64), Fail>
    requires some { 1 ≤ workers }
    requires few { workers ≤ MOST_WORKERS }
{
    let quoter = SplitQuoter::new(workers, &OpenGate);
    match quoter.quote(rt, alloc, edition, trip)? {
        None => Err(Fail::from("no fare")),
        Some(best) => Ok(best),
    }
}

/// Whether two lists have the same parts.
fn is_same(parts: &[Part], others: &[Part]) -> bool {
    if parts.len() != others.len() {
        return false;
    }
    for i in 0..parts.len() {
        let (part, other) = (&parts[i], &others[i]);
        if part.end != other.end || part.unit != other.unit || part.fare != other.fare {
            return false;
        }
    }
    true
}

/// Compares the best construction by every number of workers with what is known.
fn is_found_by_all<R: Threads + Sync + Abort>(
    rt: &R,
    alloc: Global,
    edition: &Edition,
    trip: &Trip,
    price: u64,
    parts: &[Part],
) -> Result<(), Fail> {
    for workers in 1..MOST_WORKERS + 1 {
        let (best, least) = best_by(rt, alloc, edition, trip, workers)?;
        assert!(rt; least == price, "{workers} workers: {least}");
        assert!(rt; is_same(best.parts(), parts), "{workers} workers");
    }
    Ok(())
}

/// The edition and the trip of two texts.
fn input_of<R: Threads + Sync>(
    rt: &R,
    alloc: Global,
    tariff: &str,
    itinerary: &str,
) -> Result<(Edition, Trip), Fail> {
    let edition = match read_edition(rt, alloc, tariff.as_bytes()) {
        Ok(edition) => edition,
        Err(_) => return Err(Fail::from("no edition")),
    };
    match read_trip(alloc, itinerary.as_bytes()) {
        Ok(trip) => Ok((edition, trip)),
        Err(_) => Err(Fail::from("no trip")),
    }
}

/// Compares the best construction of a case with what is known.
fn case_is_found<R: Threads + Sync + Abort>(
    rt: &R,
    alloc: Global,
    case: &Case,
) -> Result<(), Fail> {
    let (edition, trip) = input_of(rt, alloc, case.tariff, case.itinerary)?;
    is_found_by_all(rt, alloc, &edition, &trip, case.price, case.parts)
}

/// Compares what all numbers of workers find of a trip with what a walk over all constructions does.
fn plain_best_is_found<R: Threads + Sync + Abort>(
    rt: &R,
    alloc: Global,
    input: &Input,
) -> Result<(), Fail> {
    let (edition, trip) = input_of(rt, alloc, input.tariff, input.itinerary)?;
    match PlainQuoter.quote(rt, alloc, &edition, &trip)? {
        None => Err(Fail::from("no fare")),
        Some((best, price)) => is_found_by_all(rt, alloc, &edition, &trip, price, best.parts()),
    }
}

/// Finds no fare for a trip by any number of workers.
fn nothing_is_found<R: Threads + Sync + Abort>(
    rt: &R,
    alloc: Global,
    edition: &Edition,
    trip: &Trip,
) -> Result<(), Fail> {
    for workers in 1..MOST_WORKERS + 1 {
        let quoter = SplitQuoter::new(workers, &OpenGate);
        let found = quoter.quote(rt, alloc, edition, trip)?;
        assert!(rt; found.is_none(), "{workers} workers");
    }
    Ok(())
}

#[test]
fn trips_of_outside(rt: HostRuntime) -> Result<(), Fail> {
    for case in &CASES {
        case_is_found(&rt, rt.alloc(), case)?;
    }
    Ok(())
}

#[test]
fn trips_in_one_country(rt: HostRuntime) -> Result<(), Fail> {
    for input in &IN_ONE_COUNTRY {
        plain_best_is_found(&rt, rt.alloc(), input)?;
    }
    Ok(())
}

#[test]
fn generated_trip_of_one_sector(rt: HostRuntime) -> Result<(), Fail> {
    let (edition, trip) = drill_input(&rt, rt.alloc(), 1, 1, 0)?;
    let parts = [Part {
        end: 1,
        unit: 1,
        fare: 9,
    }];
    is_found_by_all(&rt, rt.alloc(), &edition, &trip, 23_113, &parts)
}

/// Compares what all numbers of workers find of a trip with what one search alone does, and gives its price.
fn price_by_all<R: Threads + Sync + Abort>(
    rt: &R,
    alloc: Global,
    edition: &Edition,
    trip: &Trip,
) -> Result<u64, Fail> {
    match BranchQuoter.quote(rt, alloc, edition, trip)? {
        None => Err(Fail::from("no fare")),
        Some((best, price)) => {
            is_found_by_all(rt, alloc, edition, trip, price, best.parts())?;
            Ok(price)
        }
    }
}

/// Compares what all numbers of workers find of a generated trip of sixteen sectors with what one search alone does.
fn long_trip_is_found<R: Threads + Sync + Abort>(
    rt: &R,
    alloc: Global,
    seed: u32,
) -> Result<(), Fail>
    requires { seed ≤ LAST_SEED }
{
    let (edition, trip) = drill_input(rt, alloc, seed, 16, 0)?;
    let _price = price_by_all(rt, alloc, &edition, &trip)?;
    Ok(())
}

#[test]
fn generated_trips_of_sixteen_sectors(rt: HostRuntime) -> Result<(), Fail> {
    for seed in 1..3 {
        long_trip_is_found(&rt, rt.alloc(), seed)?;
    }
    Ok(())
}

#[test]
fn trip_of_as_many_rules_as_sectors(rt: HostRuntime) -> Result<(), Fail> {
    plain_best_is_found(&rt, rt.alloc(), &AS_MANY_RULES_AS_SECTORS)
}

#[test]
fn trip_of_a_sector_more_than_rules(rt: HostRuntime) -> Result<(), Fail> {
    let input = &A_SECTOR_MORE_THAN_RULES;
    let (edition, trip) = input_of(&rt, rt.alloc(), input.tariff, input.itinerary)?;
    let plain = PlainQuoter.quote(&rt, rt.alloc(), &edition, &trip)?;
    assert!(rt; plain.is_none());
    nothing_is_found(&rt, rt.alloc(), &edition, &trip)
}

/// Without a count of the rules that are left, lists in each order of the fifteen rules would be walked.
#[test]
fn trip_of_sixteen_sectors_with_a_rule_too_few(rt: HostRuntime) -> Result<(), Fail> {
    let input = &ONE_RULE_TOO_FEW;
    let (edition, trip) = input_of(&rt, rt.alloc(), input.tariff, input.itinerary)?;
    nothing_is_found(&rt, rt.alloc(), &edition, &trip)
}

/// Each sector by the dear fare. The lists that begin with another one would be walked in each order of the rules too.
#[test]
fn trip_of_twelve_sectors_by_a_dear_fare(rt: HostRuntime) -> Result<(), Fail> {
    let input = &A_DEAR_FARE_BESIDES;
    let (edition, trip) = input_of(&rt, rt.alloc(), input.tariff, input.itinerary)?;
    let price = price_by_all(&rt, rt.alloc(), &edition, &trip)?;
    assert!(rt; price == 12 * 50_000, "{price}");
    Ok(())
}
