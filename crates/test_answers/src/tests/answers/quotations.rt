//! Quotations over a book of one edition, with the answers of worked examples.

use fare_answers::{QuoteFault, list_text, quote_text};
use fare_book::Book;
use fare_codes::{City, Day};
use fare_csv::read_edition;
use fare_trip::read_short;
use fare_units::PlainQuoter;
use std::alloc::Global;
use std::test::Fail;
use std::thread::Threads;

/// London and Rome, with one fare.
const TARIFF: &[u8] = b"HEAD,1,1,2025-01-01
CUR,GB,GBP,0.750000,0,1,U
CUR,IT,EUR,0.900000,2,1,N
CITY,LON,GB,2
CITY,ROM,IT,2
FARE,LON,ROM,EH,YY,Y,OW,,400.00
END
";

/// What the fare's trip is answered.
const ANSWER: &[u8] = b"EDITION 1 2025-01-01
LON Q1 ROM 400.00 YYYOW/1 NUC400.00END ROE0.750000
PART 1 LON-ROM UNIT 1 OUT
FARE 6 YYYOW 400.00
MILES DIRECT
HIP NONE
AF 400.00
UNIT 1 OW SUM 400.00 CHECK NONE PRICE 400.00
TOTAL NUC 400.00
ROE 0.750000
LOCAL GBP 300
";

/// The answer to a short line over the book of the one edition.
fn quoted<R: Threads + Sync>(
    rt: &R,
    alloc: Global,
    line: &[u8],
) -> Result<Result<Vec<u8>, QuoteFault>, Fail> {
    let book = Book::of(alloc, read_edition(rt, alloc, TARIFF)?)?;
    let trip = read_short(line)?;
    Ok(quote_text(rt, alloc, &book, &PlainQuoter, &trip))
}

#[test]
fn a_trip_is_quoted(rt: HostRuntime) -> Result<(), Fail> {
    let text = quoted(&rt, rt.alloc(), b"TRIP,2025-03-01,LON,ROM,Q1,2025-04-10,Y")??;
    assert!(rt; text.as_slice() == ANSWER);
    Ok(())
}

#[test]
fn no_edition_comes_before_an_unknown_place(rt: HostRuntime) -> Result<(), Fail> {
    let fault = quoted(&rt, rt.alloc(), b"TRIP,2024-12-31,LON,MIL,Q1,2025-04-10,Y")?.err();
    assert!(rt; fault == Day::read(b"2024-12-31").map(QuoteFault::NoEdition));
    Ok(())
}

#[test]
fn an_unknown_place_is_named(rt: HostRuntime) -> Result<(), Fail> {
    let fault = quoted(&rt, rt.alloc(), b"TRIP,2025-03-01,LON,MIL,Q1,2025-04-10,Y")?.err();
    assert!(rt; fault == City::read(b"MIL").map(QuoteFault::UnknownPlace));
    Ok(())
}

#[test]
fn a_book_is_listed(rt: HostRuntime) -> Result<(), Fail> {
    let alloc = rt.alloc();
    let book = Book::of(alloc, read_edition(&rt, alloc, TARIFF)?)?;
    let text = list_text(alloc, &book)?;
    assert!(rt; text.as_slice() == b"EDITION 1 2025-01-01 5\n".as_slice());
    Ok(())
}
