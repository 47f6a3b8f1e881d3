//! The texts of what would make trips cheaper.

use super::computed::COMPUTED;
use super::worked::WORKED;
use fare_answers::QuoteFault;
use fare_book::Book;
use fare_codes::Day;
use fare_csv::read_edition;
use fare_trip::{read_short, read_trip};
use fare_units::PlainQuoter;
use fare_why::{Searches, why_text};
use std::alloc::Global;
use std::test::Fail;
use std::thread::Threads;

/// A trip in an edition, and the text.
#[derive(Clone, Copy)]
pub struct Case {
    pub tariff: &'static str,
    pub trip: &'static str,
    pub text: &'static str,
}

/// Whether the text of a case, by so many searches side by side, is as it says.
fn holds<R: Threads + Sync>(
    rt: &R,
    alloc: Global,
    case: &Case,
    threads: usize,
) -> Result<bool, Fail> {
    let edition = read_edition(rt, alloc, case.tariff.as_bytes())?;
    let book = Book::of(alloc, edition)?;
    let trip = read_trip(alloc, case.trip.as_bytes())?;
    if threads < 1 {
        return Ok(false);
    }
    let quoter = &PlainQuoter;
    let text = why_text(rt, alloc, &book, &Searches { quoter, threads }, &trip)?;
    Ok(text.as_slice() == case.text.as_bytes())
}

#[test]
fn worked_texts(rt: HostRuntime) -> Result<(), Fail> {
    for case in &WORKED {
        assert!(rt; holds(&rt, rt.alloc(), case, 1)?, "{}", case.text);
    }
    Ok(())
}

#[test]
fn computed_texts(rt: HostRuntime) -> Result<(), Fail> {
    for case in &COMPUTED {
        assert!(rt; holds(&rt, rt.alloc(), case, 3)?, "{}", case.text);
    }
    Ok(())
}

/// Why a short line has no text over the first worked edition.
fn refused<R: Threads + Sync>(
    rt: &R,
    alloc: Global,
    line: &[u8],
) -> Result<Option<QuoteFault>, Fail> {
    let edition = read_edition(rt, alloc, WORKED[0].tariff.as_bytes())?;
    let book = Book::of(alloc, edition)?;
    let trip = read_short(line)?;
    let quoter = &PlainQuoter;
    let threads = 1;
    Ok(why_text(rt, alloc, &book, &Searches { quoter, threads }, &trip).err())
}

#[test]
fn no_edition_is_effective_yet(rt: HostRuntime) -> Result<(), Fail> {
    let fault = refused(&rt, rt.alloc(), b"TRIP,2024-12-31,LON,ROM,Q1,2025-04-10,Y")?;
    assert!(rt; fault == Day::read(b"2024-12-31").map(QuoteFault::NoEdition));
    Ok(())
}
