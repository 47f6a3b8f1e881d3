//! The texts of the first constructions of trips.

use super::computed::COMPUTED;
use super::worked::WORKED;
use fare_answers::QuoteFault;
use fare_book::Book;
use fare_codes::{City, Day};
use fare_csv::read_edition;
use fare_listing::best_text;
use fare_trip::{read_short, read_trip};
use std::alloc::Global;
use std::process::Abort;
use std::test::Fail;
use std::thread::Threads;

/// A trip in an edition, how many constructions are asked for, and the text.
#[derive(Clone, Copy)]
pub struct Case {
    pub tariff: &'static str,
    pub trip: &'static str,
    pub k: u32,
    pub text: &'static str,
}

/// Whether the text of a case is as it says.
fn holds<R: Threads + Sync>(rt: &R, alloc: Global, case: &Case) -> Result<bool, Fail> {
    let edition = read_edition(rt, alloc, case.tariff.as_bytes())?;
    let book = Book::of(alloc, edition)?;
    let trip = read_trip(alloc, case.trip.as_bytes())?;
    if case.k < 1 || case.k > 10 {
        return Ok(false);
    }
    let text = best_text(alloc, &book, &trip, case.k)?;
    Ok(text.as_slice() == case.text.as_bytes())
}

#[test]
fn worked_texts(rt: HostRuntime) -> Result<(), Fail> {
    for case in &WORKED {
        assert!(rt; holds(&rt, rt.alloc(), case)?, "{}", case.text);
    }
    Ok(())
}

#[test]
fn computed_texts(rt: HostRuntime) -> Result<(), Fail> {
    for case in &COMPUTED {
        assert!(rt; holds(&rt, rt.alloc(), case)?, "{}", case.text);
    }
    Ok(())
}

/// Why a short line has no text over the first worked edition.
fn refused<R: Threads + Sync>(
    rt: &R,
    alloc: Global,
    line: &[u8],
) -> Result<Option<QuoteFault>, Fail> {
    let edition = read_edition(rt, alloc, WORKED[0].tariff.as_bytes())?;
    let book = Book::of(alloc, edition)?;
    let trip = read_short(line)?;
    Ok(best_text(alloc, &book, &trip, 1).err())
}

#[test]
fn no_edition_comes_before_an_unknown_place(rt: HostRuntime) -> Result<(), Fail> {
    let early = refused(&rt, rt.alloc(), b"TRIP,2024-12-31,LON,MIL,Q1,2025-04-10,Y")?;
    assert!(rt; early == Day::read(b"2024-12-31").map(QuoteFault::NoEdition));
    let unknown = refused(&rt, rt.alloc(), b"TRIP,2025-03-01,LON,MIL,Q1,2025-04-10,Y")?;
    assert!(rt; unknown == City::read(b"MIL").map(QuoteFault::UnknownPlace));
    Ok(())
}
