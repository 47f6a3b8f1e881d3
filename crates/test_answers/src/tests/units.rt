//! A worked edition: half round trips between three cities, and the constructions of a trip there and back.

ghost use Rattle.std.specs.Prelude.{◌<◌, ◌^◌};

use fare_codes::{
    Area, Cabin, Carrier, City, Country, Currency, Day, FareAmount, Indicator, Kind, Mode, Nuc,
    Over, Season,
};
use fare_tariff::{CityRec, CurRec, Edition, FareRec, Record};
use fare_trip::{Sector, Trip};
use fare_units::{
    Construction, Part, circle_minimum, first_parts_advance, lawful_price, plain_best,
    price_is_of_unbroken, priced_back,
};
use std::alloc::Global;
use std::test::Fail;
use std::thread::Threads;

fn currency(country: &[u8], code: &[u8]) -> Result<Record, Fail> {
    Ok(Record::Cur(CurRec {
        country: Country::read(country).ok_or("country")?,
        currency: Currency::read(code).ok_or("currency")?,
        roe: 750_000,
        decimals: 0,
        unit: 1,
        mode: Mode::Up,
    }))
}

fn city(code: &[u8], country: &[u8]) -> Result<Record, Fail> {
    Ok(Record::City(CityRec {
        code: City::read(code).ok_or("city")?,
        country: Country::read(country).ok_or("country")?,
        area: Area::Two,
    }))
}

fn half_round_trip(from: &[u8], to: &[u8], amount: u64) -> Result<Record, Fail>
    requires { amount < 10 ^ 9 }
{
    Ok(Record::Fare(FareRec {
        from: City::read(from).ok_or("city")?,
        to: City::read(to).ok_or("city")?,
        ind: Indicator::EH,
        carrier: Carrier::read(b"YY").ok_or("carrier")?,
        class: Cabin::Y,
        kind: Kind::HR,
        rule: None,
        season: Season::whole_year(),
        amount: FareAmount::of(Nuc::new(amount)),
    }))
}

/// Three cities, with half round trips from London to Paris and from Paris to Rome as records 8 and 9.
fn three_cities<R: Threads + Sync>(rt: &R, alloc: Global) -> Result<Edition, Fail> {
    let mut records = Vec::new(alloc);
    records.push(currency(b"GB", b"GBP")?)?;
    records.push(currency(b"FR", b"EUR")?)?;
    records.push(currency(b"IT", b"EUR")?)?;
    records.push(city(b"LON", b"GB")?)?;
    records.push(city(b"PAR", b"FR")?)?;
    records.push(city(b"ROM", b"IT")?)?;
    records.push(half_round_trip(b"LON", b"PAR", 10_000)?)?;
    records.push(half_round_trip(b"PAR", b"ROM", 8_000)?)?;
    let effective = Day::read(b"2025-01-01").ok_or("day")?;
    match Edition::check(rt, alloc, 1, effective, records) {
        Ok(edition) => Ok(edition),
        Err(_) => Err(Fail::from("a faulty edition")),
    }
}

fn sector(to: &[u8], day: &[u8]) -> Result<Sector, Fail> {
    Ok(Sector {
        to: City::read(to).ok_or("city")?,
        carrier: Carrier::read(b"Q1").ok_or("carrier")?,
        day: Day::read(day).ok_or("day")?,
        cabin: Cabin::Y,
        over: Over::Unmarked,
        stop: true,
        surface: false,
    })
}

/// From London by Paris to Rome, and the same way back.
fn there_and_back() -> Result<Trip, Fail> {
    let sale = Day::read(b"2025-03-01").ok_or("day")?;
    let from = City::read(b"LON").ok_or("city")?;
    let sectors = [
        sector(b"PAR", b"2025-04-10")?,
        sector(b"ROM", b"2025-04-12")?,
        sector(b"PAR", b"2025-04-14")?,
        sector(b"LON", b"2025-04-16")?,
    ];
    match Trip::new(sale, from, &sectors) {
        Ok(trip) => Ok(trip),
        Err(_) => Err(Fail::from("a faulty trip")),
    }
}

/// A construction of one sector a part.
fn by_sector(units: [u8; 4], fares: [u32; 4]) -> Construction {
    let mut c = Construction::new();
    for i in 0..4 {
        let _room = c.try_push(Part {
            end: i as u8 + 1,
            unit: units[i],
            fare: fares[i],
        });
    }
    c
}

#[test]
fn a_side_trip_is_priced(rt: HostRuntime) -> Result<(), Fail> {
    let edition = three_cities(&rt, rt.alloc())?;
    let trip = there_and_back()?;
    let nested = by_sector([1, 2, 2, 1], [8, 9, 9, 8]);
    match lawful_price(&edition, &trip, &nested) {
        Ok(price) => assert_eq!(rt; price, 36_000),
        Err(broken) => assert_eq!(rt; broken.rule, 0),
    }
    match lawful_price(&edition, &trip, &by_sector([1, 2, 1, 2], [8, 9, 9, 8])) {
        Ok(_) => return Err(Fail::from("units that cross")),
        Err(broken) => assert!(rt; broken.rule == 4 && broken.place == 4),
    }
    match lawful_price(&edition, &trip, &by_sector([1, 1, 1, 1], [8, 9, 9, 8])) {
        Ok(_) => return Err(Fail::from("a fare against its direction")),
        Err(broken) => assert!(rt; broken.rule == 9 && broken.place == 3),
    }
    Ok(())
}

/// The circle minimum of the first unit over the first parts of a construction that has a price.
fn minimum_of_first(edition: &Edition, trip: &Trip, c: &Construction, m: usize) -> Option<Nuc> {
    let parts = c.parts();
    if parts.len() < m || lawful_price(edition, trip, c).is_err() {
        return None;
    }
    first_parts_advance(edition, trip, parts, m);
    circle_minimum(edition, trip, &parts[..m], 1)
}

/// Whether a part of a construction that has a price is priced back, by a unit of half round trips.
fn goes_back(edition: &Edition, trip: &Trip, c: &Construction, place: usize) -> Option<bool> {
    match lawful_price(edition, trip, c) {
        Err(_) => None,
        Ok(price) => {
            price_is_of_unbroken(edition, trip, c, price);
            Some(priced_back(edition, trip, c.parts(), true, place))
        }
    }
}

#[test]
fn the_first_parts_of_a_construction_are_asked(rt: HostRuntime) -> Result<(), Fail> {
    let edition = three_cities(&rt, rt.alloc())?;
    let trip = there_and_back()?;
    let nested = by_sector([1, 2, 2, 1], [8, 9, 9, 8]);
    let minimum = minimum_of_first(&edition, &trip, &nested, 1).ok_or("no minimum")?;
    assert_eq!(rt; minimum.hundredths(), 20_000);
    assert_eq!(rt; goes_back(&edition, &trip, &nested, 1), Some(false));
    assert_eq!(rt; goes_back(&edition, &trip, &nested, 4), Some(true));
    Ok(())
}

#[test]
fn the_side_trip_is_best(rt: HostRuntime) -> Result<(), Fail> {
    let edition = three_cities(&rt, rt.alloc())?;
    let trip = there_and_back()?;
    let (best, price) = plain_best(&edition, &trip).ok_or("no fare")?;
    assert_eq!(rt; price, 36_000);
    assert_eq!(rt; best.parts().len(), 4);
    Ok(())
}
