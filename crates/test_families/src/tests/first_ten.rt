//! The first ten constructions of trips, beside all that are lawful in their order.

use super::few;
use super::sources::{Source, input_of};
use fare_best::{BestList, first_k};
use fare_component::Table;
use fare_tariff::Edition;
use fare_trip::Trip;
use fare_units::{Construction, Part, earlier, lawful_price, start_of};
use std::alloc::Global;
use std::process::Abort;
use std::test::Fail;
use std::thread::Threads;

/// A construction of some parts, and of another where it is given and has room.
fn made(parts: &[Part], last: Option<Part>) -> Construction {
    let mut made = Construction::new();
    for part in parts {
        let _room = made.try_push(*part);
    }
    if let Some(part) = last {
        let _room = made.try_push(part);
    }
    made
}

/// Puts a construction behind those that are before it.
fn put(all: &mut Vec<(Construction, u64)>, parts: Construction, price: u64) -> Result<(), Fail> {
    let mut place = 0;
    for (one, cost) in all.iter() {
        if earlier(one, *cost, &parts, price) {
            place += 1;
        }
    }
    if place <= all.len() && all.insert(place, (parts, price)).is_err() {
        return Err(Fail::from("no memory"));
    }
    Ok(())
}

/// Puts all lawful constructions that begin with some parts and have at most so many more.
fn collect(
    table: &Table,
    front: &Construction,
    more: usize,
    all: &mut Vec<(Construction, u64)>,
) -> Result<(), Fail> {
    let trip = table.trip();
    let parts = front.parts();
    if let Ok(price) = lawful_price(table.edition(), trip, front) {
        put(all, made(parts, None), price)?;
    }
    if more == 0 {
        return Ok(());
    }
    let start = start_of(trip, parts, parts.len() + 1);
    for end in start + 1..trip.count() + 1 {
        for entry in table.entries(start, end) {
            for unit in 1..parts.len() + 2 {
                let part = Part {
                    end: end as u8,
                    unit: unit as u8,
                    fare: entry.fare,
                };
                collect(table, &made(parts, Some(part)), more - 1, all)?;
            }
        }
    }
    Ok(())
}

/// Whether the first constructions are the first ten of all.
fn are_first(first: &BestList, all: &[(Construction, u64)]) -> bool {
    if first.len() != all.len().min(10) {
        return false;
    }
    for (place, (parts, price)) in all.iter().enumerate() {
        match first.get(place) {
            None => return place == 10,
            Some((one, cost)) => {
                if earlier(parts, *price, one, cost) || earlier(one, cost, parts, *price) {
                    return false;
                }
            }
        }
    }
    true
}

/// Whether the first ten of a trip are those of all that are lawful.
pub fn are_those_of_all(alloc: Global, edition: &Edition, trip: &Trip) -> Result<bool, Fail> {
    let table = Table::prepare(alloc, edition, trip)?;
    let mut all = Vec::new(alloc);
    collect(&table, &Construction::new(), trip.count(), &mut all)?;
    let first = first_k(alloc, edition, trip, 10)?;
    Ok(are_first(&first, all.as_slice()))
}

/// Compares the first ten of trips with those of all that are lawful.
fn are_first_ten<R: Threads + Sync + Abort>(
    rt: &R,
    alloc: Global,
    sources: &[Source],
) -> Result<(), Fail> {
    for source in sources {
        let (edition, trip) = input_of(rt, alloc, source.tariff, source.itinerary)?;
        assert!(rt;
            are_those_of_all(alloc, &edition, &trip)?,
            "{}",
            source.name
        );
    }
    Ok(())
}

#[test]
fn units_that_rules_bar(rt: HostRuntime) -> Result<(), Fail> {
    are_first_ten(&rt, rt.alloc(), few::units::SOURCES.as_slice())
}

#[test]
fn circles(rt: HostRuntime) -> Result<(), Fail> {
    are_first_ten(&rt, rt.alloc(), few::circles::SOURCES.as_slice())
}

#[test]
fn rules_that_do_not_all_combine(rt: HostRuntime) -> Result<(), Fail> {
    are_first_ten(&rt, rt.alloc(), few::end_on_end::SOURCES.as_slice())
}

#[test]
fn hubs_and_gaps(rt: HostRuntime) -> Result<(), Fail> {
    are_first_ten(&rt, rt.alloc(), few::hub::SOURCES.as_slice())?;
    are_first_ten(&rt, rt.alloc(), few::own_means::SOURCES.as_slice())?;
    are_first_ten(&rt, rt.alloc(), few::backhauls::SOURCES.as_slice())
}
