//! Trips of texts, of their values, of lines and of sectors.

mod cases;

use arrayvec::ArrayString;
use cases::{LATER, SECTORS, SHORT, TOPS};
use fare_codes::{Cabin, Carrier, City, Day, Over};
use fare_trip::{Member, Sector, Trip, TripFault, read_short, read_trip, trip_of, trip_text};
use serde_json::Value;
use std::alloc::Global;
use std::test::Fail;

/// The text of the fault; `OK` where there is none.
fn told(answer: Result<Trip, TripFault>) -> ArrayString<64> {
    match answer {
        Ok(_) => {
            let mut text = ArrayString::new();
            text.push_str("OK");
            text
        }
        Err(fault) => fault.text(),
    }
}

/// The fault of a text.
fn told_of_text(alloc: Global, text: &[u8]) -> ArrayString<64> {
    told(read_trip(alloc, text))
}

/// The fault of a text whose value is read first.
fn told_of_value(alloc: Global, text: &[u8]) -> ArrayString<64> {
    match Value::from_slice(alloc, text) {
        Ok(value) => told(trip_of(alloc, &value)),
        Err(_) => TripFault::NotJson.text(),
    }
}

/// The fault of a line.
fn told_of_line(line: &[u8]) -> ArrayString<64> {
    told(read_short(line))
}

#[test]
fn the_top_of_a_text(rt: HostRuntime) {
    for (text, want) in &TOPS {
        assert!(rt;
            told_of_text(rt.alloc(), text.as_bytes()).as_str() == *want,
            "{text}"
        );
    }
}

/// A trip from LON with these sectors.
fn text_of_sectors(alloc: Global, sectors: &str) -> Result<Vec<u8>, Fail> {
    let mut text = Vec::new(alloc);
    text.extend_from_slice(br#"{"sale":"2025-03-01","from":"LON","sectors":"#)?;
    text.extend_from_slice(sectors.as_bytes())?;
    text.extend_from_slice(b"}")?;
    Ok(text)
}

#[test]
fn the_sectors_of_a_text(rt: HostRuntime) -> Result<(), Fail> {
    for (sectors, want) in &SECTORS {
        let text = text_of_sectors(rt.alloc(), sectors)?;
        assert!(rt;
            told_of_text(rt.alloc(), &text).as_str() == *want,
            "{sectors}"
        );
        assert!(rt;
            told_of_value(rt.alloc(), &text).as_str() == *want,
            "{sectors}"
        );
    }
    Ok(())
}

#[test]
fn later_sectors_of_a_text(rt: HostRuntime) {
    for (text, want) in &LATER {
        assert!(rt;
            told_of_text(rt.alloc(), text.as_bytes()).as_str() == *want,
            "{text}"
        );
    }
}

#[test]
fn hostile_texts(rt: HostRuntime) -> Result<(), Fail> {
    let opened = vec![in rt.alloc(); b'['; 200]?;
    assert!(rt; told_of_text(rt.alloc(), &opened).as_str() == "TRIP NotJson");
    let text = b"{\"sale\": \"2025-01-30\", \"from\": \"S\xed\xa0\x80D\"}";
    assert!(rt; told_of_text(rt.alloc(), text).as_str() == "TRIP NotJson");
    let commas = vec![in rt.alloc(); b','; 1_000_000]?;
    assert!(rt; told_of_line(&commas).as_str() == "TRIP Bad trip 0");
    Ok(())
}

/// A text of so many sectors, none of which is one.
fn text_of_numbers(alloc: Global, count: usize) -> Result<Vec<u8>, Fail> {
    let mut text = Vec::new(alloc);
    text.extend_from_slice(br#"{"sale":"2025-03-01","from":"LON","sectors":[0"#)?;
    for _ in 1..count {
        text.extend_from_slice(b",0")?;
    }
    text.extend_from_slice(b"]}")?;
    Ok(text)
}

#[test]
fn many_sectors(rt: HostRuntime) -> Result<(), Fail> {
    let text = text_of_numbers(rt.alloc(), 16)?;
    assert!(rt; told_of_text(rt.alloc(), &text).as_str() == "TRIP Bad sector 1");
    let more = text_of_numbers(rt.alloc(), 17)?;
    assert!(rt; told_of_text(rt.alloc(), &more).as_str() == "TRIP TooMany 17");
    Ok(())
}

#[test]
fn short_lines(rt: HostRuntime) {
    for (line, want) in &SHORT {
        assert!(rt; told_of_line(line.as_bytes()).as_str() == *want, "{line}");
    }
}

/// Faults, with their texts.
static FAULTS: [(TripFault, &str); 9] = [
    (TripFault::Memory, ""),
    (TripFault::NotJson, "TRIP NotJson"),
    (TripFault::Missing(Member::Day, 16), "TRIP Missing day 16"),
    (TripFault::Bad(Member::Sectors, 0), "TRIP Bad sectors 0"),
    (TripFault::NoSectors, "TRIP NoSectors"),
    (TripFault::TooMany(4_294_967_295), "TRIP TooMany 4294967295"),
    (TripFault::SameCity(1), "TRIP SameCity 1"),
    (TripFault::DatesFall(10), "TRIP DatesFall 10"),
    (TripFault::SurfacePlace(2), "TRIP SurfacePlace 2"),
];

#[test]
fn texts_of_faults(rt: HostRuntime) {
    for (fault, want) in &FAULTS {
        assert!(rt; fault.text().as_str() == *want);
    }
}

const SURFACE: &str =
    r#"{"sale":"2025-06-13","from":"LON","sectors":[{"to":"YYZ","carrier":"Q1","day":"2025-07-03","cabin":"Y","over":"","stop":true},{"to":"MIL","carrier":"Q1","day":"2025-07-06","cabin":"Y","over":"PA","stop":true},{"to":"YYZ","carrier":"7Z","day":"2025-07-13","cabin":"Y","over":"","surface":true},{"to":"MIL","carrier":"Q1","day":"2025-07-16","cabin":"Y","over":"","stop":false}]}"#;

const SURFACE_PRINTED: &str =
    r#"{"from":"LON","sale":"2025-06-13","sectors":[{"cabin":"Y","carrier":"Q1","day":"2025-07-03","over":"","stop":true,"surface":false,"to":"YYZ"},{"cabin":"Y","carrier":"Q1","day":"2025-07-06","over":"PA","stop":true,"surface":false,"to":"MIL"},{"cabin":"Y","carrier":"7Z","day":"2025-07-13","over":"","stop":true,"surface":true,"to":"YYZ"},{"cabin":"Y","carrier":"Q1","day":"2025-07-16","over":"","stop":false,"surface":false,"to":"MIL"}]}"#;

fn surface_trip(alloc: Global) -> Result<Trip, Fail> {
    Ok(read_trip(alloc, SURFACE.as_bytes())?)
}

/// Whether the day of sale and the points are those of the trip with a surface sector.
fn has_its_points(trip: &Trip) -> bool {
    trip.law();
    trip.sale().text().as_str() == "2025-06-13"
        && trip.from().text().as_str() == "LON"
        && trip.point(0).text().as_str() == "LON"
        && trip.count() == 4
        && trip.point(4).text().as_str() == "MIL"
}

/// Whether its sectors are four, of which the third is a surface sector.
fn has_its_sectors(trip: &Trip) -> bool {
    trip.sectors().len() == 4 && trip.count() == 4 && trip.sector(3).surface
}

#[test]
fn a_trip_with_a_surface_sector(rt: HostRuntime) -> Result<(), Fail> {
    let trip = surface_trip(rt.alloc())?;
    assert!(rt; has_its_points(&trip));
    assert!(rt; has_its_sectors(&trip));
    let text = trip_text(rt.alloc(), &trip)?;
    assert!(rt; text.as_slice() == SURFACE_PRINTED.as_bytes());
    Ok(())
}

/// A sector to a city.
fn sector_to(to: City) -> Result<Sector, Fail> {
    Ok(Sector {
        to,
        carrier: Carrier::read(b"Q1").ok_or("a carrier")?,
        day: Day::read(b"2025-04-10").ok_or("a day")?,
        cabin: Cabin::C,
        over: Over::AT,
        stop: false,
        surface: false,
    })
}

/// The fault of a trip from a city with these sectors.
fn told_of_trip(from: City, sectors: &[Sector]) -> Result<ArrayString<64>, Fail> {
    let sale = Day::read(b"2025-03-01").ok_or("a day")?;
    Ok(told(Trip::new(sale, from, sectors)))
}

#[test]
fn a_trip_of_sectors(rt: HostRuntime) -> Result<(), Fail> {
    let from = City::read(b"LON").ok_or("a city")?;
    let to = City::read(b"ROM").ok_or("a city")?;
    let sector = sector_to(to)?;
    assert!(rt; told_of_trip(from, &[])?.as_str() == "TRIP NoSectors");
    assert!(rt; told_of_trip(to, &[sector])?.as_str() == "TRIP SameCity 1");
    assert!(rt; told_of_trip(from, &[sector])?.as_str() == "OK");
    let many = Vec::from_elem(rt.alloc(), sector, 17)?;
    assert!(rt; told_of_trip(from, &many)?.as_str() == "TRIP TooMany 17");
    assert!(rt; Member::Surface.name() == "surface");
    Ok(())
}
