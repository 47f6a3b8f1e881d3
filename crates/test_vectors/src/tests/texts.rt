//! Tariff texts: their first faults, and their canonical spelling.

mod tariffs;

use fare_csv::{edition_text, read_edition};
use fare_trip::read_trip;
use fare_units::plain_best;
use std::alloc::Global;
use std::process::Abort;
use std::test::Fail;
use std::thread::Threads;
use tariffs::{FAULTY, SPELLED};

#[test]
fn texts_have_their_first_faults(rt: HostRuntime) {
    for (text, wanted) in &FAULTY {
        match read_edition(&rt, rt.alloc(), text.as_bytes()) {
            Ok(_) => assert!(rt; false, "a tariff in place of {wanted}"),
            Err(fault) => assert!(rt; fault.text().as_str() == *wanted, "{wanted}"),
        }
    }
}

/// Holds the canonical text of a tariff, read from its own spelling and from the canonical one.
fn is_spelled<R: Threads + Sync + Abort>(
    rt: &R,
    alloc: Global,
    text: &str,
    wanted: &str,
) -> Result<(), Fail> {
    let edition = read_edition(rt, alloc, text.as_bytes())?;
    let canonical = edition_text(alloc, &edition).ok().ok_or("no memory")?;
    assert!(rt; canonical.as_slice() == wanted.as_bytes());
    let again = read_edition(rt, alloc, canonical.as_slice())?;
    let printed = edition_text(alloc, &again).ok().ok_or("no memory")?;
    assert!(rt; printed.as_slice() == wanted.as_bytes());
    Ok(())
}

#[test]
fn tariffs_have_their_canonical_texts(rt: HostRuntime) -> Result<(), Fail> {
    for (text, wanted) in &SPELLED {
        is_spelled(&rt, rt.alloc(), text, wanted)?;
    }
    Ok(())
}

/// Through and broken fares of one total.
const TIED: &str =
    "HEAD,1,1,2025-01-01\nCUR,GB,GBP,0.750000,0,1,U\nCITY,LON,GB,2\nCITY,PAR,GB,2\nCITY,ROM,GB,2\nFARE,LON,ROM,EH,YY,Y,OW,,400.00\nTPM,LON,PAR,300\nTPM,PAR,ROM,700\nMPM,LON,ROM,EH,1000\nFARE,LON,PAR,EH,YY,Y,OW,,150.00\nFARE,PAR,ROM,EH,YY,Y,OW,,250.00\nEND\n";

/// London to Rome, with a transfer in Paris.
const PASSING: &str =
    r#"{"sale":"2025-03-01","from":"LON","sectors":[{"to":"PAR","carrier":"Q1","day":"2025-04-10","cabin":"Y","stop":false},{"to":"ROM","carrier":"Q1","day":"2025-04-12","cabin":"Y"}]}"#;

#[test]
fn the_longer_first_part_is_best(rt: HostRuntime) -> Result<(), Fail> {
    let edition = read_edition(&rt, rt.alloc(), TIED.as_bytes())?;
    let trip = read_trip(rt.alloc(), PASSING.as_bytes())?;
    let (best, price) = plain_best(&edition, &trip).ok_or("no fare")?;
    assert_eq!(rt; price, 40_000);
    assert_eq!(rt; best.parts().len(), 1);
    Ok(())
}
