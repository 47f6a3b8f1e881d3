//! A trip with its tariff, by their texts.

use fare_csv::read_edition;
use fare_tariff::Edition;
use fare_trip::{Trip, read_trip};
use std::alloc::Global;
use std::test::Fail;
use std::thread::Threads;

/// A trip of few sectors.
pub struct Source {
    pub name: &'static str,
    pub tariff: &'static str,
    pub itinerary: &'static str,
}

/// A trip of many, with the least price, in NUC hundredths; nothing where no construction is lawful.
pub struct LongSource {
    pub name: &'static str,
    pub tariff: &'static str,
    pub itinerary: &'static str,
    pub price: Option<u64>,
}

/// The edition and the trip of two texts.
pub fn input_of<R: Threads + Sync>(
    rt: &R,
    alloc: Global,
    tariff: &str,
    itinerary: &str,
) -> Result<(Edition, Trip), Fail> {
    let edition = match read_edition(rt, alloc, tariff.as_bytes()) {
        Ok(edition) => edition,
        Err(_) => return Err(Fail::from("no edition")),
    };
    match read_trip(alloc, itinerary.as_bytes()) {
        Ok(trip) => Ok((edition, trip)),
        Err(_) => Err(Fail::from("no trip")),
    }
}
