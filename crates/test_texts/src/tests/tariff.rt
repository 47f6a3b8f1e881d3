//! Each public call once, and each check kind on small lists of records: the records that these are made of.

mod check;
mod look_ups;

use fare_codes::*;
use fare_tariff::*;
use std::alloc::Global;
use std::process::Abort;
use std::test::Fail;
use std::thread::Threads;

/// A record of a list, by what differs among these tests.
#[derive(Clone, Copy)]
enum Sample {
    /// The currency of a country.
    Cur([u8; 2]),
    /// A city and its country.
    Town([u8; 3], [u8; 2]),
    /// The rule SAVER, which lists itself and the free rule for a unit, and every rule end on end.
    Saver,
    /// A fare from LON to a city of a carrier in a season, of the free rule.
    Fare([u8; 3], [u8; 2], [u8; 5], [u8; 5]),
    /// The fare from LON to ROM of the rule SAVER.
    SaverFare,
    /// The permitted miles of two cities.
    Mpm([u8; 3], [u8; 3], u16),
    /// The ticketed point miles of two cities.
    Tpm([u8; 3], [u8; 3], u16),
    /// The allowance of LON and ROM by way of a city.
    Ema(Option<[u8; 3]>, u16),
}

use Sample::*;

/// Records 2 to 6 of each list.
static PLACES: [Sample; 5] = [
    Cur(*b"GB"),
    Cur(*b"IT"),
    Town(*b"LON", *b"GB"),
    Town(*b"ROM", *b"IT"),
    Town(*b"MIL", *b"IT"),
];

fn city(rt: &impl Abort, code: [u8; 3]) -> City {
    City::read(&code).expect(rt, "a city")
}

fn country(rt: &impl Abort, code: [u8; 2]) -> Country {
    Country::read(&code).expect(rt, "a country")
}

fn month_day(rt: &impl Abort, text: [u8; 5]) -> MonthDay {
    MonthDay::read(&text).expect(rt, "a day of the year")
}

fn saver_id(rt: &impl Abort) -> Option<RuleId> {
    Some(RuleId::read(b"SAVER").expect(rt, "a rule"))
}

fn key(rt: &impl Abort, to: [u8; 3], carrier: [u8; 2], rule: Option<RuleId>) -> FareKey {
    FareKey {
        from: city(rt, *b"LON"),
        to: city(rt, to),
        ind: Indicator::EH,
        carrier: Carrier::read(&carrier).expect(rt, "a carrier"),
        class: Cabin::Y,
        kind: Kind::OW,
        rule,
    }
}

fn fare(key: FareKey, first: MonthDay, last: MonthDay) -> Record {
    Record::Fare(FareRec {
        from: key.from,
        to: key.to,
        ind: key.ind,
        carrier: key.carrier,
        class: key.class,
        kind: key.kind,
        rule: key.rule,
        season: Season { first, last },
        amount: FareAmount::of(Nuc::new(40_000)),
    })
}

fn currency(rt: &impl Abort, code: [u8; 2]) -> Record {
    Record::Cur(CurRec {
        country: country(rt, code),
        currency: Currency::read(b"EUR").expect(rt, "a currency"),
        roe: 900_000,
        decimals: 2,
        unit: 1,
        mode: Mode::Up,
    })
}

fn saver(rt: &impl Abort, alloc: Global) -> Result<Record, Fail> {
    let mut units = RuleList::new(alloc);
    units.push(saver_id(rt))?;
    units.push(None)?;
    let rule = RuleRec {
        id: RuleId::read(b"SAVER").expect(rt, "a rule"),
        stops: 1,
        transfers: 2,
        advance: 14,
        min_stay: 3,
        max_stay: 30,
        excess: false,
        units: Names::Of(units),
        ends: Names::All,
    };
    Ok(Record::Rule(FiledRule::new(alloc, rule)?))
}

fn mileage(rt: &impl Abort, from: [u8; 3], to: [u8; 3], miles: u16) -> Record {
    Record::Mpm(MileRec {
        from: city(rt, from),
        to: city(rt, to),
        ind: Indicator::EH,
        miles: u32::from(miles),
    })
}

fn pair(rt: &impl Abort, from: [u8; 3], to: [u8; 3], miles: u16) -> Record {
    Record::Tpm(PairRec {
        from: city(rt, from),
        to: city(rt, to),
        miles: u32::from(miles),
    })
}

fn allowance(rt: &impl Abort, via: Option<City>, miles: u16) -> Record {
    Record::Ema(EmaRec {
        from: city(rt, *b"LON"),
        to: city(rt, *b"ROM"),
        ind: Indicator::EH,
        via,
        miles: u32::from(miles),
    })
}

fn record_of(rt: &impl Abort, alloc: Global, sample: Sample) -> Result<Record, Fail> {
    match sample {
        Cur(code) => Ok(currency(rt, code)),
        Town(code, of) => Ok(Record::City(CityRec {
            code: city(rt, code),
            country: country(rt, of),
            area: Area::Two,
        })),
        Saver => saver(rt, alloc),
        Fare(to, carrier, first, last) => Ok(fare(
            key(rt, to, carrier, None),
            month_day(rt, first),
            month_day(rt, last),
        )),
        SaverFare => Ok(fare(
            key(rt, *b"ROM", *b"YY", saver_id(rt)),
            month_day(rt, *b"01-01"),
            month_day(rt, *b"12-31"),
        )),
        Mpm(from, to, miles) => Ok(mileage(rt, from, to, miles)),
        Tpm(from, to, miles) => Ok(pair(rt, from, to, miles)),
        Ema(None, miles) => Ok(allowance(rt, None, miles)),
        Ema(Some(via), miles) => Ok(allowance(rt, Some(city(rt, via)), miles)),
    }
}

fn list_of(rt: &impl Abort, alloc: Global, samples: &[Sample]) -> Result<Vec<Record>, Fail> {
    let mut records = Vec::new(alloc);
    for sample in &PLACES {
        records.push(record_of(rt, alloc, *sample)?)?;
    }
    for sample in samples {
        records.push(record_of(rt, alloc, *sample)?)?;
    }
    Ok(records)
}

fn check_of<R: Abort + Threads + Sync>(
    rt: &R,
    alloc: Global,
    samples: &[Sample],
) -> Result<Result<Edition, CheckFault>, Fail> {
    let records = list_of(rt, alloc, samples)?;
    let effective = Day::read(b"2025-01-01").ok_or("a day")?;
    Ok(Edition::check(rt, alloc, 7, effective, records))
}
