//! The records of a drill, in their order.

ghost use Rattle.std.specs.Prelude.{◌≡◌, ◌≤◌, ◌++◌, [], ◌∷◌, OnOk, IfOk, map};
ghost use Rattle.std.specs.List.{range_with_len};
ghost use Rattle.fare_drill.specs.Cities.{city_count, city_record, extra_record};
ghost use Rattle.fare_drill.specs.Fares.{fares};
ghost use Rattle.fare_drill.specs.Drill.{currency_record, currencies, rule_record, extra_records, base_records};
ghost use Rattle.fare_drill.specs.Drill.{drill_records, extra_city_count};

use crate::cities::{city_record, extra_cities, extra_record};
use crate::fares::push_fares;
use crate::limits::EXTRA_CITIES;
use crate::miles::{push_extra_miles, push_permitted, push_ticketed};
use crate::pairs::pairs;
use crate::ways::ways;
use fare_codes::{Country, Currency, MOST_SECTORS, Mode, RuleId};
use fare_ports::NoMemory;
use fare_tariff::{
    CurRec, FiledRule, MOST_DAYS, MOST_STOPS, MOST_TRANSFERS, Names, Record, RuleRec,
};
use std::alloc::Global;

/// Room for the records of as many cities as there can be and for the extra cities.
const ROOM: usize = 9 * MOST_SECTORS * MOST_SECTORS + 3 + EXTRA_CITIES as usize;

/// The records of a drill.
#[tactic(auto, unfolding(crate::specs::Drill::drill_records))]
pub(crate) fn drill_records(
    alloc: Global,
    seed: u32,
    sectors: u32,
    extra: u32,
) -> Result<Vec<Record>, NoMemory>
    requires { sectors ≤ MOST_SECTORS }
    ensures { IfOk result (λ records. records.items ≡ drill_records seed sectors extra) }
{
    let mut records = Vec::with_capacity(alloc, ROOM + extra as usize)?;
    push_base(&mut records, alloc, seed, sectors.max(2))?;
    push_extra(&mut records, alloc, extra)?;
    Ok(records)
}

/// Appends the records of so many cities, before the extra ones.
#[tactic(auto, unfolding(crate::specs::Drill::base_records))]
fn push_base(
    records: &mut Vec<Record>,
    alloc: Global,
    seed: u32,
    count: u32,
) -> Result<(), NoMemory>
    requires { count ≤ MOST_SECTORS }
    ensures { OnOk result (records.new.items ≡ records.old.items ++ base_records seed count) }
{
    push_currencies(records)?;
    push_cities(records, count)?;
    records.push(rule_record(alloc)?)?;
    let ways = ways(alloc, count)?;
    push_fares(records, seed, ways.as_slice())?;
    let pairs = pairs(alloc, count)?;
    push_permitted(records, pairs.as_slice())?;
    push_ticketed(records, pairs.as_slice())
}

/// Appends the currencies of the two countries.
fn push_currencies(records: &mut Vec<Record>) -> Result<(), NoMemory>
    ensures { OnOk result (records.new.items ≡ records.old.items ++ currencies) }
{
    let first = Country::read(b"XA").unwrap();
    let second = Country::read(b"XB").unwrap();
    records.push(currency_record(first, Currency::read(b"XXA").unwrap()))?;
    records.push(currency_record(second, Currency::read(b"XXB").unwrap()))?;
    Ok(())
}

/// A currency at par with NUC, whose amounts are rounded up to its hundredths.
fn currency_record(country: Country, currency: Currency) -> Record
    ensures { result ≡ currency_record country currency }
{
    Record::Cur(CurRec {
        country,
        currency,
        roe: 1_000_000,
        decimals: 2,
        unit: 1,
        mode: Mode::Up,
    })
}

/// Appends the records of so many cities.
fn push_cities(records: &mut Vec<Record>, count: u32) -> Result<(), NoMemory>
    ensures { OnOk result (records.new.items ≡ records.old.items ++ map city_record (range_with_len 0 count)) }
{
    for i in 0..count {
        records.push(city_record(i))?;
    }
    Ok(())
}

/// The one rule, which asks for little and is combined with every rule.
fn rule_record(alloc: Global) -> Result<Record, NoMemory>
    ensures { IfOk result (λ one. one ≡ rule_record) }
{
    let rule = RuleRec {
        id: RuleId::read(b"A").unwrap(),
        stops: MOST_STOPS,
        transfers: MOST_TRANSFERS,
        advance: 0,
        min_stay: 0,
        max_stay: MOST_DAYS,
        excess: true,
        units: Names::All,
        ends: Names::All,
    };
    Ok(Record::Rule(FiledRule::new(alloc, rule)?))
}

/// How many extra cities there are where there are any: one for each two letters.
#[tactic(auto, unfolding(crate::specs::Drill::extra_city_count))]
fn extra_city_count() -> u32
    ensures value { result ≡ extra_city_count }
    ensures within { result ≤ EXTRA_CITIES }
{
    EXTRA_CITIES
}

/// Appends the extra cities, and miles between the first so many pairs of them; neither where no miles are wanted.
#[tactic(auto, unfolding(crate::specs::Drill::extra_records))]
fn push_extra(records: &mut Vec<Record>, alloc: Global, extra: u32) -> Result<(), NoMemory>
    ensures { OnOk result (records.new.items ≡ records.old.items ++ extra_records extra) }
{
    if extra == 0 {
        return Ok(());
    }
    let count = extra_city_count();
    push_extra_cities(records, count)?;
    let cities = extra_cities(alloc, count)?;
    push_extra_miles(records, cities.as_slice(), extra as usize)
}

/// Appends the records of so many extra cities.
fn push_extra_cities(records: &mut Vec<Record>, count: u32) -> Result<(), NoMemory>
    ensures { OnOk result (records.new.items ≡ records.old.items ++ map extra_record (range_with_len 0 count)) }
{
    for i in 0..count {
        records.push(extra_record(i))?;
    }
    Ok(())
}
