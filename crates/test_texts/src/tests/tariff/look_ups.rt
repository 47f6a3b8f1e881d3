//! What is looked up in one small edition, and the other public calls.

use super::Sample::*;
use super::{Sample, check_of, city, country, key, list_of, month_day, saver_id};
use fare_codes::*;
use fare_tariff::*;
use std::alloc::Global;
use std::process::Abort;
use std::test::Fail;
use std::thread::Threads;

/// Records 7 to 13 of the edition in which the look-ups search.
static FILED: [Sample; 7] = [
    Saver,
    Fare(*b"ROM", *b"YY", *b"04-01", *b"10-31"),
    Fare(*b"ROM", *b"YY", *b"11-01", *b"03-31"),
    Mpm(*b"LON", *b"ROM", 1_100),
    Tpm(*b"ROM", *b"LON", 900),
    Ema(None, 10),
    Ema(Some(*b"MIL"), 50),
];

fn edition<R: Abort + Threads + Sync>(rt: &R, alloc: Global) -> Result<Edition, Fail> {
    Ok(check_of(rt, alloc, &FILED)??)
}

#[test]
fn looks_up_places(rt: HostRuntime) -> Result<(), Fail> {
    let tariff = edition(&rt, rt.alloc())?;
    assert!(rt; tariff.number() == 7);
    assert!(rt; tariff.effective().number() == 20_089);
    assert!(rt; tariff.records().len() == 12);
    assert!(rt; tariff.city(city(&rt, *b"ROM")).is_some());
    assert!(rt; tariff.city(city(&rt, *b"PAR")).is_none());
    assert!(rt; tariff.currency_of(country(&rt, *b"IT")).is_some());
    assert!(rt; tariff.currency_of(country(&rt, *b"FR")).is_none());
    Ok(())
}

/// Days of a year, and the fares of one key that apply on them.
static APPLIED: [([u8; 5], u32); 5] = [
    (*b"04-01", 8),
    (*b"10-31", 8),
    (*b"11-01", 9),
    (*b"12-31", 9),
    (*b"03-31", 9),
];

fn fare_on(tariff: &Edition, of_key: &FareKey, day: MonthDay) -> Option<u32> {
    tariff.fare(of_key, day)
}

#[test]
fn looks_up_fares_by_key_and_day(rt: HostRuntime) -> Result<(), Fail> {
    let tariff = edition(&rt, rt.alloc())?;
    let of_key = key(&rt, *b"ROM", *b"YY", None);
    for (day, number) in &APPLIED {
        assert!(rt; fare_on(&tariff, &of_key, month_day(&rt, *day)) == Some(*number));
    }
    Ok(())
}

/// Numbers, whether they are those of fares, and the next fare of the same places.
static NUMBERS: [(u32, bool, Option<u32>); 7] = [
    (0, false, None),
    (1, false, None),
    (7, false, None),
    (8, true, Some(9)),
    (9, true, None),
    (10, false, None),
    (14, false, None),
];

fn is_fare(tariff: &Edition, number: u32) -> bool {
    tariff.fare_at(number).is_some()
}

fn behind(tariff: &Edition, number: u32) -> Option<u32> {
    tariff.next_fare(number)
}

#[test]
fn looks_up_fares_by_number(rt: HostRuntime) -> Result<(), Fail> {
    let tariff = edition(&rt, rt.alloc())?;
    for (number, filed, next) in &NUMBERS {
        assert!(rt; is_fare(&tariff, *number) == *filed, "at {number}");
        assert!(rt; behind(&tariff, *number) == *next, "behind {number}");
    }
    Ok(())
}

fn nth(tariff: &Edition, of_key: &FareKey, k: u32) -> Option<u32> {
    tariff.nth_fare(of_key.from, of_key.to, Indicator::EH, k)
}

#[test]
fn looks_up_fares_in_turn(rt: HostRuntime) -> Result<(), Fail> {
    let tariff = edition(&rt, rt.alloc())?;
    let of_key = key(&rt, *b"ROM", *b"YY", None);
    assert!(rt; nth(&tariff, &of_key, 0) == Some(8));
    assert!(rt; nth(&tariff, &of_key, 1) == Some(9));
    assert!(rt; nth(&tariff, &of_key, 2).is_none());
    Ok(())
}

/// The transfers and the days of advance of a rule.
fn terms_of(tariff: &Edition, rule: Option<RuleId>) -> Option<(u32, u32)> {
    let terms = tariff.terms(rule)?;
    Some((terms.transfers, terms.advance))
}

#[test]
fn reads_terms(rt: HostRuntime) -> Result<(), Fail> {
    let tariff = edition(&rt, rt.alloc())?;
    assert!(rt; terms_of(&tariff, None) == Some((16, 0)));
    assert!(rt; terms_of(&tariff, saver_id(&rt)) == Some((2, 14)));
    assert!(rt; terms_of(&tariff, RuleId::read(b"OTHER")).is_none());
    Ok(())
}

/// A list of the rule SAVER and the free rule.
fn list_of_two(rt: &impl Abort, alloc: Global) -> Result<RuleList, Fail> {
    let mut list = RuleList::new(alloc);
    list.push(saver_id(rt))?;
    list.push(None)?;
    Ok(list)
}

#[test]
fn names_of_a_list(rt: HostRuntime) -> Result<(), Fail> {
    assert!(rt; RuleList::new(rt.alloc()).names().is_empty());
    let list = list_of_two(&rt, rt.alloc())?;
    let names = list.names();
    assert!(rt; names.len() == 2 && names[0] == saver_id(&rt) && names[1].is_none());
    Ok(())
}

#[test]
fn combines_rules(rt: HostRuntime) -> Result<(), Fail> {
    let tariff = edition(&rt, rt.alloc())?;
    assert!(rt; tariff.unit_ok(saver_id(&rt), None));
    assert!(rt; tariff.ends_ok(saver_id(&rt), saver_id(&rt)));
    assert!(rt; !tariff.unit_ok(saver_id(&rt), RuleId::read(b"OTHER")));
    assert!(rt; !tariff.ends_ok(RuleId::read(b"OTHER"), None));
    Ok(())
}

/// The permitted miles of two cities by an indicator.
fn permitted(tariff: &Edition, from: City, to: City, ind: Indicator) -> Option<u32> {
    tariff.mpm(from, to, ind)
}

/// The ticketed point miles of two cities.
fn ticketed(tariff: &Edition, from: City, to: City) -> Option<u32> {
    tariff.tpm(from, to)
}

/// The allowance of two cities over some.
fn allowed(tariff: &Edition, from: City, to: City, over: &[City]) -> u32 {
    tariff.allowance(from, to, Indicator::EH, over)
}

#[test]
fn looks_up_miles(rt: HostRuntime) -> Result<(), Fail> {
    let tariff = edition(&rt, rt.alloc())?;
    let (london, rome, milan) = (city(&rt, *b"LON"), city(&rt, *b"ROM"), city(&rt, *b"MIL"));
    assert!(rt; permitted(&tariff, rome, london, Indicator::EH) == Some(1_100));
    assert!(rt; permitted(&tariff, rome, london, Indicator::AT).is_none());
    assert!(rt; ticketed(&tariff, london, rome) == Some(900));
    assert!(rt; ticketed(&tariff, london, milan).is_none());
    assert!(rt; allowed(&tariff, london, rome, &[]) == 10);
    assert!(rt; allowed(&tariff, rome, london, &[london, milan]) == 50);
    Ok(())
}

#[test]
fn compares_records(rt: HostRuntime) -> Result<(), Fail> {
    let tariff = edition(&rt, rt.alloc())?;
    let again = list_of(&rt, rt.alloc(), &FILED)?;
    let places = list_of(&rt, rt.alloc(), &[])?;
    assert!(rt; same_records(tariff.records(), again.as_slice()));
    assert!(rt; !same_records(tariff.records(), places.as_slice()));
    overlap_is_a_shared_day(Season::whole_year(), Season::whole_year());
    fare_of_a_day_is_one(&tariff);
    fares_come_in_turn(&tariff);
    Ok(())
}
