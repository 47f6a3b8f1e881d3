//! The answers of constructions: the calculation line and the worksheet.

ghost use Rattle.std.specs.Prelude.{◌≡◌, Ok};
ghost use Rattle.fare_rules.specs.Lawful.{lawful_price};

mod lines;
mod whole;

use super::parts::construction;
use fare_calc::{answer_text, line_of, print_line, worksheet_text};
use fare_csv::read_edition;
use fare_tariff::Edition;
use fare_trip::{Trip, read_trip};
use fare_units::{Construction, lawful_price, price_is_of_unbroken};
use lines::LINED;
use std::alloc::Global;
use std::process::Abort;
use std::test::Fail;
use std::thread::Threads;
use whole::ANSWERED;

/// An edition, a trip and parts as end, unit and fare, with the whole answer.
#[derive(Clone, Copy)]
struct Answered {
    edition: &'static str,
    trip: &'static str,
    parts: &'static [(u8, u8, u32)],
    text: &'static str,
}

/// An edition, a trip and parts, with lines that stand in the answer, each with the ends of the lines before and behind it.
#[derive(Clone, Copy)]
struct Lined {
    edition: &'static str,
    trip: &'static str,
    parts: &'static [(u8, u8, u32)],
    lines: &'static [&'static str],
}

/// Whether a text holds another.
fn holds(text: &[u8], piece: &[u8]) -> bool {
    for start in 0..text.len() {
        if text[start..].starts_with(piece) {
            return true;
        }
    }
    false
}

/// The answer of a lawful construction. Its line and its worksheet are those that are answered alone.
fn answer(
    rt: &impl Abort,
    alloc: Global,
    edition: &Edition,
    trip: &Trip,
    c: &Construction,
    price: u64,
) -> Result<Vec<u8>, Fail>
    requires { lawful_price edition.now trip.now c.now ≡ Ok price }
{
    price_is_of_unbroken(edition, trip, c, price);
    let text = answer_text(alloc, edition, trip, Some(c))
        .ok()
        .ok_or("no memory")?;
    let line = line_of(edition, trip, c);
    let printed = print_line(alloc, &line).ok().ok_or("no memory")?;
    assert!(rt; holds(text.as_slice(), printed.as_slice()));
    let worksheet = worksheet_text(alloc, edition, trip, c)
        .ok()
        .ok_or("no memory")?;
    assert!(rt; text.as_slice().ends_with(worksheet.as_slice()));
    Ok(text)
}

/// The answer of some parts on an edition and a trip.
fn answer_of<R: Threads + Sync + Abort>(
    rt: &R,
    alloc: Global,
    edition: &str,
    trip: &str,
    parts: &[(u8, u8, u32)],
) -> Result<Vec<u8>, Fail> {
    let edition = read_edition(rt, alloc, edition.as_bytes())?;
    let trip = read_trip(alloc, trip.as_bytes())?;
    let c = construction(rt, parts);
    match lawful_price(&edition, &trip, &c) {
        Err(_) => Err(Fail::from("broken")),
        Ok(price) => answer(rt, alloc, &edition, &trip, &c, price),
    }
}

#[test]
fn constructions_have_their_whole_answers(rt: HostRuntime) -> Result<(), Fail> {
    for case in &ANSWERED {
        let text = answer_of(&rt, rt.alloc(), case.edition, case.trip, case.parts)?;
        assert!(rt; text.as_slice() == case.text.as_bytes(), "{}", case.text);
    }
    Ok(())
}

#[test]
fn answers_have_their_lines(rt: HostRuntime) -> Result<(), Fail> {
    for case in &LINED {
        let text = answer_of(&rt, rt.alloc(), case.edition, case.trip, case.parts)?;
        for line in case.lines {
            assert!(rt; holds(text.as_slice(), line.as_bytes()), "{line}");
        }
    }
    Ok(())
}

#[test]
fn no_construction_is_no_fare(rt: HostRuntime) -> Result<(), Fail> {
    for case in &ANSWERED {
        let edition = read_edition(&rt, rt.alloc(), case.edition.as_bytes())?;
        let trip = read_trip(rt.alloc(), case.trip.as_bytes())?;
        let text = answer_text(rt.alloc(), &edition, &trip, None)
            .ok()
            .ok_or("no memory")?;
        assert!(rt; text.as_slice().ends_with(b" 2025-01-01\nNO FARE\n"));
    }
    Ok(())
}
