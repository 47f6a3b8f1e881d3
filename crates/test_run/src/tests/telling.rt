//! Answers for programs, the faults of tariffs, what changed between editions, and what would make trips cheaper.

use super::cases::Told;
use super::cases::checks::{CHECKS, COMPARISONS, DIFFERENCES};
use super::cases::programs::{ANSWERS, Barred, FAULTS, KINDS, OUTSIDE, REASONS};
use super::stores::fails;
use super::tariffs::{END, MILES, PLACES, WORLD, WORLD_FARES};
use super::{Outside, ended, ended_over, joined};
use fare_outside::{PlainKeeper, PlainSink, PlainSource};
use fare_ports::{Bodies, Keeper};
use fare_run::fault_text;
use fare_split::Turnstile;
use std::alloc::Global;
use std::process::Abort;
use std::test::Fail;
use std::thread::Threads;

/// Compares all that comes of a command.
fn tells<R: Threads + Sync + Abort>(rt: &R, alloc: Global, case: &Told) -> Result<(), Fail> {
    let mut bodies = Bodies::new(alloc);
    for body in case.bodies {
        bodies.push(joined(alloc, body)?.as_slice())?;
    }
    let mut source = PlainSource::new(joined(alloc, case.source)?);
    let mut sink = PlainSink::new(alloc, 4096)?;
    let mut store = PlainKeeper::new(bodies);
    let gate = Turnstile::new();
    let outside = Outside {
        source: &mut source,
        sink: &mut sink,
        store: &mut store,
        gate: &gate,
    };
    let exit = ended_over(rt, alloc, case.words, outside)?;
    assert!(rt; exit.status() == case.status, "{}", case.text);
    assert!(rt; sink.bytes() == case.text.as_bytes(), "{}", case.text);
    let line = fault_text(alloc, &exit)?;
    assert!(rt; line.as_slice() == case.line.as_bytes(), "{}", case.line);
    assert!(rt; store.kept().len() == case.bodies.len());
    Ok(())
}

/// Compares each case of a table.
fn tells_all<R: Threads + Sync + Abort>(rt: &R, alloc: Global, cases: &[Told]) -> Result<(), Fail> {
    for case in cases {
        tells(rt, alloc, case)?;
    }
    Ok(())
}

#[test]
fn answers_are_told_in_json(rt: HostRuntime) -> Result<(), Fail> {
    tells_all(&rt, rt.alloc(), ANSWERS.as_slice())
}

#[test]
fn refusals_are_told_in_json(rt: HostRuntime) -> Result<(), Fail> {
    tells_all(&rt, rt.alloc(), FAULTS.as_slice())
}

#[test]
fn faults_of_tariffs_are_told(rt: HostRuntime) -> Result<(), Fail> {
    tells_all(&rt, rt.alloc(), CHECKS.as_slice())
}

#[test]
fn differences_are_told(rt: HostRuntime) -> Result<(), Fail> {
    tells_all(&rt, rt.alloc(), DIFFERENCES.as_slice())
}

#[test]
fn trips_are_compared(rt: HostRuntime) -> Result<(), Fail> {
    tells_all(&rt, rt.alloc(), COMPARISONS.as_slice())
}

#[test]
fn reasons_are_told(rt: HostRuntime) -> Result<(), Fail> {
    tells_all(&rt, rt.alloc(), REASONS.as_slice())
}

/// Compares the reason why a trip has no fare.
fn is_barred<R: Threads + Sync + Abort>(rt: &R, alloc: Global, case: &Barred) -> Result<(), Fail> {
    let tariff = format!(in alloc; "{}{}", WORLD_FARES, END)?;
    let ruled = tariff.replace(alloc, "RULE,FLEX,5,5,0,3,365,Y,*,*\n", case.rule)?;
    let mut source = PlainSource::new(joined(alloc, &[WORLD, ruled.as_str()])?);
    let mut sink = PlainSink::new(alloc, 4096)?;
    let exit = ended(
        rt,
        alloc,
        &["price", "--why", "--workers=7"],
        &mut source,
        &mut sink,
    )?;
    assert!(rt; exit.status() == 0, "{}", case.rule);
    let wanted = joined(alloc, &["EDITION 7 2025-01-01\nNO FARE\n", case.reason])?;
    assert!(rt; sink.bytes() == wanted.as_slice(), "{}", case.rule);
    Ok(())
}

#[test]
fn each_kind_of_condition_bars(rt: HostRuntime) -> Result<(), Fail> {
    for case in KINDS.as_slice() {
        is_barred(&rt, rt.alloc(), case)?;
    }
    Ok(())
}

#[test]
fn failing_calls_are_told_in_json(rt: HostRuntime) -> Result<(), Fail> {
    for case in OUTSIDE.as_slice() {
        fails(&rt, rt.alloc(), case)?;
    }
    Ok(())
}

#[test]
fn a_full_sink_has_a_prefix_of_the_faults(rt: HostRuntime) -> Result<(), Fail> {
    let alloc = rt.alloc();
    let misspelled = "FARE,LON,ROM,EH,YY,Y,OW,,400\n";
    let mut source = PlainSource::new(joined(alloc, &[PLACES, misspelled, MILES, END])?);
    let mut sink = PlainSink::new(alloc, 10)?;
    let exit = ended(&rt, alloc, &["check"], &mut source, &mut sink)?;
    assert!(rt; exit.status() == 9);
    assert!(rt; sink.bytes() == b"TARIFF 8 B".as_slice());
    Ok(())
}

#[test]
fn a_long_itinerary_is_refused_in_json(rt: HostRuntime) -> Result<(), Fail> {
    let alloc = rt.alloc();
    let mut source = PlainSource::new(vec![in alloc; b' '; 65_537]?);
    let mut sink = PlainSink::new(alloc, 4096)?;
    let words: &[&str] = &["quote", "--store=s", "--json"];
    let exit = ended(&rt, alloc, words, &mut source, &mut sink)?;
    assert!(rt; exit.status() == 5);
    let text =
        "{\"fault\":{\"text\":\"LIMIT\",\"words\":\"the source holds more than 65536 bytes\"}}\n";
    assert!(rt; sink.bytes() == text.as_bytes());
    Ok(())
}

#[test]
fn the_first_hundred_faults_are_told(rt: HostRuntime) -> Result<(), Fail> {
    let alloc = rt.alloc();
    let mut text = joined(
        alloc,
        &["HEAD,1,1,2025-01-01\nCUR,GB,GBP,0.750000,0,1,U\nCITY,LON,GB,2\n"],
    )?;
    for _ in 0..140 {
        text.extend_from_slice(b"TPM,LON,LON,0\n")?;
    }
    text.extend_from_slice(END.as_bytes())?;
    let mut source = PlainSource::new(text);
    let mut sink = PlainSink::new(alloc, 16_384)?;
    let exit = ended(&rt, alloc, &["check"], &mut source, &mut sink)?;
    assert!(rt; exit.status() == 3);
    let first = "TARIFF 4 SamePoint  TPM,LON,LON,0  its two cities are equal\n\
         TARIFF 5 Duplicate 4  TPM,LON,LON,0  its key is that of record 4\n";
    assert!(rt; sink.bytes().starts_with(first.as_bytes()));
    assert!(rt; sink.bytes().ends_with(b"\nMORE 40\n".as_slice()));
    Ok(())
}
