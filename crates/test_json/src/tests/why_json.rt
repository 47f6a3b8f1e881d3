//! A worked answer, to the byte.

use fare_book::Book;
use fare_csv::read_edition;
use fare_trip::read_trip;
use fare_units::PlainQuoter;
use fare_why::Searches;
use fare_why_json::why_json;
use std::alloc::Global;
use std::test::Fail;
use std::thread::Threads;

/// Two rules that don't combine end on end.
const TARIFF: &str = "HEAD,1,1,2025-01-01\n\
    CUR,GB,GBP,0.750000,0,1,U\n\
    CUR,FR,EUR,0.900000,2,1,N\n\
    CUR,IT,EUR,0.900000,2,1,N\n\
    CITY,LON,GB,2\n\
    CITY,PAR,FR,2\n\
    CITY,ROM,IT,2\n\
    RULE,RA,9,9,0,0,365,Y,*,RA\n\
    RULE,RB,9,9,0,0,365,Y,*,*\n\
    FARE,LON,PAR,EH,YY,Y,OW,RA,150.00\n\
    FARE,LON,PAR,EH,YY,Y,OW,,200.00\n\
    FARE,PAR,ROM,EH,YY,Y,OW,RB,100.00\n\
    END\n";

/// From London by Paris to Rome.
const TRIP: &str =
    r#"{"sale":"2025-03-01","from":"LON","sectors":[{"to":"PAR","carrier":"Q1","day":"2025-04-10","cabin":"Y"},{"to":"ROM","carrier":"Q1","day":"2025-04-12","cabin":"Y"}]}"#;

/// What would make it cheaper.
const ANSWER: &str =
    r#"{"edition":{"effective":"2025-01-01","number":1},"total":"300.00","without":[{"broken":{"place":2,"rule":20,"words":"the fare of part 2 isn't combinable end on end with an earlier one"},"kind":"ENDS","line":"LON Q1 PAR 150.00 YYYOWRA/1 Q1 ROM 100.00 YYYOWRB/2 NUC250.00END ROE0.750000","saves":"50.00","total":"250.00"}]}"#;

/// The answer over the book of the one edition.
fn answered<R: Threads + Sync>(rt: &R, alloc: Global) -> Result<Vec<u8>, Fail> {
    let edition = read_edition(rt, alloc, TARIFF.as_bytes())?;
    let book = Book::of(alloc, edition)?;
    let trip = read_trip(alloc, TRIP.as_bytes())?;
    let searches = Searches {
        quoter: &PlainQuoter,
        threads: 2,
    };
    Ok(why_json(rt, alloc, &book, &searches, &trip)?)
}

#[test]
fn a_trip_that_two_rules_make_dearer(rt: HostRuntime) -> Result<(), Fail> {
    let text = answered(&rt, rt.alloc())?;
    assert!(rt; text.starts_with(ANSWER.as_bytes()), "{}", ANSWER);
    assert!(rt; text.len() == ANSWER.len() + 1);
    Ok(())
}
