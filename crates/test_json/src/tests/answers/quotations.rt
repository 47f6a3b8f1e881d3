//! Quotations and first constructions over a book of one edition, to the byte.

use super::worked::{FIRST, WORKED};
use fare_book::Book;
use fare_csv::read_edition;
use fare_json::quote_json;
use fare_listing::best_json;
use fare_trip::read_trip;
use fare_units::PlainQuoter;
use std::alloc::Global;
use std::test::Fail;
use std::thread::Threads;

/// A trip in an edition, and the text that answers it, without the LF that ends it.
#[derive(Clone, Copy)]
pub struct Case {
    pub tariff: &'static str,
    pub trip: &'static str,
    pub text: &'static str,
}

/// Whether a text is a line of these words.
fn is_line(text: &[u8], words: &str) -> bool {
    text.len() == words.len() + 1 && text.starts_with(words.as_bytes()) && text.ends_with(b"\n")
}

/// Whether the quotation of a case is as it says.
fn is_quoted<R: Threads + Sync>(rt: &R, alloc: Global, case: &Case) -> Result<bool, Fail> {
    let edition = read_edition(rt, alloc, case.tariff.as_bytes())?;
    let book = Book::of(alloc, edition)?;
    let trip = read_trip(alloc, case.trip.as_bytes())?;
    let text = quote_json(rt, alloc, &book, &PlainQuoter, &trip)?;
    Ok(is_line(&text, case.text))
}

/// Whether the first three constructions of a case are as it says.
fn is_first<R: Threads + Sync>(rt: &R, alloc: Global, case: &Case) -> Result<bool, Fail> {
    let edition = read_edition(rt, alloc, case.tariff.as_bytes())?;
    let book = Book::of(alloc, edition)?;
    let trip = read_trip(alloc, case.trip.as_bytes())?;
    let text = best_json(alloc, &book, &trip, 3)?;
    Ok(is_line(&text, case.text))
}

#[test]
fn worked_quotations(rt: HostRuntime) -> Result<(), Fail> {
    for case in &WORKED {
        assert!(rt; is_quoted(&rt, rt.alloc(), case)?, "{}", case.text);
    }
    Ok(())
}

#[test]
fn worked_first_constructions(rt: HostRuntime) -> Result<(), Fail> {
    for case in &FIRST {
        assert!(rt; is_first(&rt, rt.alloc(), case)?, "{}", case.text);
    }
    Ok(())
}
