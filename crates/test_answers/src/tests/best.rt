//! A worked edition: four one way fares from London to Paris, of which two cost the same.

ghost use Rattle.std.specs.Prelude.{◌<◌, ◌^◌};

use fare_best::{BestList, first_k};
use fare_codes::{
    Area, Cabin, Carrier, City, Country, Currency, Day, FareAmount, Indicator, Kind, Mode, Nuc,
    Over, Season,
};
use fare_tariff::{CityRec, CurRec, Edition, FareRec, Record};
use fare_trip::{Sector, Trip};
use std::alloc::Global;
use std::test::Fail;
use std::thread::Threads;

fn currency(country: &[u8], code: &[u8]) -> Result<Record, Fail> {
    Ok(Record::Cur(CurRec {
        country: Country::read(country).ok_or("country")?,
        currency: Currency::read(code).ok_or("currency")?,
        roe: 750_000,
        decimals: 0,
        unit: 1,
        mode: Mode::Up,
    }))
}

fn city(code: &[u8], country: &[u8]) -> Result<Record, Fail> {
    Ok(Record::City(CityRec {
        code: City::read(code).ok_or("city")?,
        country: Country::read(country).ok_or("country")?,
        area: Area::Two,
    }))
}

fn one_way(carrier: &[u8], class: Cabin, amount: u64) -> Result<Record, Fail>
    requires { amount < 10 ^ 9 }
{
    Ok(Record::Fare(FareRec {
        from: City::read(b"LON").ok_or("city")?,
        to: City::read(b"PAR").ok_or("city")?,
        ind: Indicator::EH,
        carrier: Carrier::read(carrier).ok_or("carrier")?,
        class,
        kind: Kind::OW,
        rule: None,
        season: Season::whole_year(),
        amount: FareAmount::of(Nuc::new(amount)),
    }))
}

/// London and Paris, with one way fares as records 6 to 9.
fn two_cities<R: Threads + Sync>(rt: &R, alloc: Global) -> Result<Edition, Fail> {
    let mut records = Vec::new(alloc);
    records.push(currency(b"GB", b"GBP")?)?;
    records.push(currency(b"FR", b"EUR")?)?;
    records.push(city(b"LON", b"GB")?)?;
    records.push(city(b"PAR", b"FR")?)?;
    records.push(one_way(b"YY", Cabin::Y, 10_000)?)?;
    records.push(one_way(b"Q1", Cabin::Y, 9_000)?)?;
    records.push(one_way(b"YY", Cabin::C, 10_000)?)?;
    records.push(one_way(b"YY", Cabin::F, 12_000)?)?;
    let effective = Day::read(b"2025-01-01").ok_or("day")?;
    match Edition::check(rt, alloc, 1, effective, records) {
        Ok(edition) => Ok(edition),
        Err(_) => Err(Fail::from("a faulty edition")),
    }
}

/// From London to Paris.
fn one_sector() -> Result<Trip, Fail> {
    let sector = Sector {
        to: City::read(b"PAR").ok_or("city")?,
        carrier: Carrier::read(b"Q1").ok_or("carrier")?,
        day: Day::read(b"2025-04-10").ok_or("day")?,
        cabin: Cabin::Y,
        over: Over::Unmarked,
        stop: true,
        surface: false,
    };
    let sale = Day::read(b"2025-03-01").ok_or("day")?;
    let from = City::read(b"LON").ok_or("city")?;
    match Trip::new(sale, from, &[sector]) {
        Ok(trip) => Ok(trip),
        Err(_) => Err(Fail::from("a faulty trip")),
    }
}

/// The record number of the first fare of what stands at a place, and its price; zeros where nothing does.
fn fare_at(first: &BestList, i: usize) -> (u32, u64) {
    match first.get(i) {
        None => (0, 0),
        Some((parts, price)) => match parts.parts().first() {
            None => (0, price),
            Some(part) => (part.fare, price),
        },
    }
}

#[test]
fn the_first_are_in_order(rt: HostRuntime) -> Result<(), Fail> {
    let edition = two_cities(&rt, rt.alloc())?;
    let trip = one_sector()?;
    let first = first_k(rt.alloc(), &edition, &trip, 3)?;
    assert_eq!(rt; first.len(), 3);
    assert_eq!(rt; fare_at(&first, 0), (7, 9_000));
    assert_eq!(rt; fare_at(&first, 1), (6, 10_000));
    assert_eq!(rt; fare_at(&first, 2), (8, 10_000));
    assert!(rt; first.get(3).is_none());
    Ok(())
}

#[test]
fn fewer_are_lawful_than_asked_for(rt: HostRuntime) -> Result<(), Fail> {
    let edition = two_cities(&rt, rt.alloc())?;
    let trip = one_sector()?;
    let first = first_k(rt.alloc(), &edition, &trip, 10)?;
    assert_eq!(rt; first.len(), 4);
    assert_eq!(rt; fare_at(&first, 3), (9, 12_000));
    Ok(())
}
