//! Each check kind, on small lists of records and on long ones.

use super::Sample::*;
use super::{PLACES, Sample, check_of, city, country, currency};
use fare_codes::*;
use fare_tariff::*;
use std::alloc::Global;
use std::process::Abort;
use std::test::Fail;
use std::thread::Threads;

const SUMMER: Sample = Fare(*b"ROM", *b"YY", *b"04-01", *b"10-31");

const WINTER: Sample = Fare(*b"ROM", *b"YY", *b"11-01", *b"03-31");

const PAIR: Sample = Tpm(*b"LON", *b"ROM", 900);

/// Records 7 and 8 of a list, and the number and the kind of its first fault.
static FAULTS: [(Sample, Sample, u32, CheckKind); 13] = [
    (PAIR, Town(*b"ROM", *b"IT"), 8, CheckKind::Duplicate(5)),
    (PAIR, Tpm(*b"ROM", *b"LON", 901), 8, CheckKind::Duplicate(7)),
    (SUMMER, SUMMER, 8, CheckKind::Duplicate(7)),
    (PAIR, Tpm(*b"PAR", *b"ROM", 900), 8, CheckKind::UnknownCity),
    (PAIR, Ema(Some(*b"PAR"), 10), 8, CheckKind::UnknownCity),
    (SaverFare, PAIR, 7, CheckKind::UnknownRule),
    (PAIR, Town(*b"PAR", *b"FR"), 8, CheckKind::UnknownCurrency),
    (
        PAIR,
        Fare(*b"LON", *b"YY", *b"01-01", *b"12-31"),
        8,
        CheckKind::SamePoint,
    ),
    (PAIR, Mpm(*b"LON", *b"LON", 0), 8, CheckKind::SamePoint),
    (PAIR, Mpm(*b"LON", *b"ROM", 0), 8, CheckKind::ZeroMileage),
    (
        Mpm(*b"LON", *b"ROM", 0),
        Town(*b"ROM", *b"IT"),
        7,
        CheckKind::ZeroMileage,
    ),
    (
        SUMMER,
        Fare(*b"ROM", *b"YY", *b"10-31", *b"03-31"),
        8,
        CheckKind::Overlap(7),
    ),
    (
        WINTER,
        Fare(*b"ROM", *b"YY", *b"12-24", *b"01-06"),
        8,
        CheckKind::Overlap(7),
    ),
];

/// Records 7 and 8 of lists without a fault.
static WHOLE: [(Sample, Sample); 4] = [
    (SaverFare, Saver),
    (Ema(None, 10), Ema(Some(*b"MIL"), 10)),
    (SUMMER, Fare(*b"ROM", *b"YY", *b"11-01", *b"03-31")),
    (SUMMER, Fare(*b"ROM", *b"BA", *b"04-01", *b"10-31")),
];

/// The first fault of a list with these records behind its places.
fn fault_of<R: Abort + AllocGlobal + Threads + Sync>(
    rt: &R,
    samples: &[Sample],
) -> Result<Option<CheckFault>, Fail> {
    Ok(check_of(rt, rt.alloc(), samples)?.err())
}

#[test]
fn check_kinds(rt: HostRuntime) -> Result<(), Fail> {
    for (one, other, number, kind) in &FAULTS {
        let fault = CheckFault::At {
            number: *number,
            kind: *kind,
        };
        assert!(rt; fault_of(&rt, &[*one, *other])? == Some(fault));
    }
    Ok(())
}

#[test]
fn no_faults(rt: HostRuntime) -> Result<(), Fail> {
    for (one, other) in &WHOLE {
        assert!(rt; fault_of(&rt, &[*one, *other])?.is_none());
    }
    Ok(())
}

/// Fares of 65 carriers from LON to ROM.
fn crowd() -> [Sample; 65] {
    let mut samples = [PLACES[0]; 65];
    for (place, sample) in samples.iter_mut().enumerate() {
        let carrier = [b'A' + (place % 26) as u8, b'A' + (place / 26 % 26) as u8];
        *sample = Fare(*b"ROM", carrier, *b"01-01", *b"12-31");
    }
    samples
}

#[test]
fn too_many_fares(rt: HostRuntime) -> Result<(), Fail> {
    let fault = CheckFault::At {
        number: 71,
        kind: CheckKind::TooManyFares,
    };
    assert!(rt; fault_of(&rt, &crowd())? == Some(fault));
    Ok(())
}

/// As many records as one of these lists has.
const LONG: usize = 200_699;

/// One of 500 cities.
fn town(rt: &impl Abort, at: u64) -> City {
    let letter = |of: u64| b'A' + (of % 26) as u8;
    city(rt, [letter(at), letter(at / 26), letter(at / 676)])
}

/// The permitted miles of one of 62,500 pairs of the cities, by five indicators in turn.
fn miles_of(rt: &impl Abort, at: u64, miles: u16) -> Record {
    Record::Mpm(MileRec {
        from: town(rt, at / 5 % 250),
        to: town(rt, 250 + at / 1_250 % 250),
        ind: match at % 5 {
            0 => Indicator::WH,
            1 => Indicator::EH,
            2 => Indicator::AT,
            3 => Indicator::PA,
            _ => Indicator::AP,
        },
        miles: u32::from(miles),
    })
}

/// A long list whose first and last records state these miles.
fn long_list(rt: &impl Abort, alloc: Global, first: u16, last: u16) -> Result<Vec<Record>, Fail> {
    let mut records = Vec::with_capacity(alloc, LONG)?;
    records.push(miles_of(rt, 0, first))?;
    records.push(currency(rt, *b"GB"))?;
    for at in 0..500u64 {
        records.push(Record::City(CityRec {
            code: town(rt, at),
            country: country(rt, *b"GB"),
            area: Area::Two,
        }))?;
    }
    for at in 1..200_197u64 {
        records.push(miles_of(rt, at, 1))?;
    }
    records.push(miles_of(rt, 200_197, last))?;
    Ok(records)
}

/// The number of the first fault of a long list, which is one of miles of 0.
fn zero_miles_of_long<R: Abort + AllocGlobal + Threads + Sync>(
    rt: &R,
    first: u16,
    last: u16,
) -> Result<Option<u32>, Fail> {
    let effective = Day::read(b"2025-01-01").ok_or("a day")?;
    let records = long_list(rt, rt.alloc(), first, last)?;
    if records.len() != LONG {
        Err("a long list")?;
    }
    match Edition::check(rt, rt.alloc(), 7, effective, records) {
        Ok(_) => Ok(None),
        Err(
            CheckFault::At {
                number,
                kind: CheckKind::ZeroMileage,
            },
        ) => Ok(Some(number)),
        Err(_) => Err("a fault of another kind")?,
    }
}

#[test]
fn the_first_of_two_faults(rt: HostRuntime) -> Result<(), Fail> {
    assert!(rt; zero_miles_of_long(&rt, 0, 0)? == Some(2));
    assert!(rt; zero_miles_of_long(&rt, 1, 0)? == Some(200_700));
    assert!(rt; zero_miles_of_long(&rt, 1, 1)?.is_none());
    Ok(())
}
