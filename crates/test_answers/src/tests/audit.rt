//! Audits of lines whose verdicts are known from worked examples and from a separate program, and the texts that ask
//! for an audit.

mod mixed;
mod surface;
mod worked;

use fare_audit::{
    audit, construction_is_one, price_is_best_and_over, read_audit, verdict_is_one, verdict_text,
};
use fare_csv::read_edition;
use fare_line::read_line;
use fare_trip::read_trip;
use fare_units::PlainQuoter;
use mixed::MIXED;
use std::alloc::Global;
use std::process::Abort;
use std::test::Fail;
use std::thread::Threads;
use surface::SURFACE;
use worked::WORKED;

/// An edition and a trip, with lines that are presented for it, each with the text of its verdict.
#[derive(Clone, Copy)]
struct Presented {
    edition: &'static str,
    trip: &'static str,
    lines: &'static [(&'static str, &'static str)],
}

/// The text of the verdict on a line.
fn verdict_of<R: Threads + Sync + Abort>(
    rt: &R,
    alloc: Global,
    edition: &str,
    trip: &str,
    line: &str,
) -> Result<Vec<u8>, Fail> {
    let edition = read_edition(rt, alloc, edition.as_bytes())?;
    let trip = read_trip(alloc, trip.as_bytes())?;
    let line = read_line(line.as_bytes()).ok().ok_or("no line")?;
    let verdict = audit(rt, alloc, &PlainQuoter, &edition, &trip, &line)?;
    construction_is_one(&edition);
    price_is_best_and_over();
    verdict_is_one();
    Ok(verdict_text(alloc, &verdict)?)
}

/// Each presented line has its verdict.
fn lines_have_verdicts<R: Threads + Sync + Abort>(
    rt: &R,
    alloc: Global,
    case: &Presented,
) -> Result<(), Fail> {
    for (line, expected) in case.lines {
        let text = verdict_of(rt, alloc, case.edition, case.trip, line)?;
        assert!(rt; text.as_slice() == expected.as_bytes(), "{line}");
    }
    Ok(())
}

#[test]
fn lines_of_worked_examples(rt: HostRuntime) -> Result<(), Fail> {
    for case in &WORKED {
        lines_have_verdicts(&rt, rt.alloc(), case)?;
    }
    Ok(())
}

#[test]
fn lines_with_gaps_marks_and_seasons(rt: HostRuntime) -> Result<(), Fail> {
    for case in &SURFACE {
        lines_have_verdicts(&rt, rt.alloc(), case)?;
    }
    Ok(())
}

#[test]
fn lines_of_half_round_trips_and_missing_records(rt: HostRuntime) -> Result<(), Fail> {
    for case in &MIXED {
        lines_have_verdicts(&rt, rt.alloc(), case)?;
    }
    Ok(())
}

/// A text that asks for an audit of a line, with the verdict on it for an edition of one fare from London to Rome.
const ASKED: &[u8] =
    b"{\"line\":\"LON Q1 ROM 400.00 YYYOW/1 NUC400.00END ROE0.750000\",\"trip\":{\"sale\":\"2025-03-01\",\"from\":\"LON\",\"sectors\":[{\"to\":\"ROM\",\"carrier\":\"Q1\",\"day\":\"2025-04-10\",\"cabin\":\"Y\"}]}}";

/// Texts that ask for no audit, each with its fault.
static FAULTS: [(&str, &str); 12] = [
    ("", "TRIP NotJson"),
    ("{\"line\":\"LON\"", "TRIP NotJson"),
    ("[]", "TRIP Bad trip 0"),
    ("\"LON\"", "TRIP Bad trip 0"),
    ("{}", "LINE MISSING"),
    ("{\"line\":7,\"trip\":{}}", "LINE MISSING"),
    ("{\"line\":null}", "LINE MISSING"),
    ("{\"line\":\"\"}", "LINE 0"),
    ("{\"line\":\"LON Q1 RO\",\"trip\":7}", "LINE 9"),
    (
        "{\"line\":\"LON Q1 ROM 400.00 YYYOW/1 NUC400.00END ROE0.750000\"}",
        "TRIP Missing trip 0",
    ),
    (
        "{\"line\":\"LON Q1 ROM 400.00 YYYOW/1 NUC400.00END ROE0.750000\",\"trip\":7}",
        "TRIP Bad trip 0",
    ),
    (
        "{\"line\":\"LON Q1 ROM 400.00 YYYOW/1 NUC400.00END ROE0.750000\",\"trip\":{}}",
        "TRIP Missing sale 0",
    ),
];

#[test]
fn a_text_asks_for_an_audit(rt: HostRuntime) -> Result<(), Fail> {
    let alloc = rt.alloc();
    let (line, trip) = read_audit(alloc, ASKED).ok().ok_or("no audit is asked")?;
    let edition = read_edition(&rt, alloc, WORKED[2].edition.as_bytes())?;
    let verdict = audit(&rt, alloc, &PlainQuoter, &edition, &trip, &line)?;
    let text = verdict_text(alloc, &verdict)?;
    assert!(rt; text.as_slice() == b"LAWFUL 400.00 OVER 0.00\n".as_slice());
    Ok(())
}

#[test]
fn a_text_that_asks_for_none_has_its_fault(rt: HostRuntime) -> Result<(), Fail> {
    for (text, expected) in &FAULTS {
        let fault = read_audit(rt.alloc(), text.as_bytes())
            .err()
            .ok_or("an audit is asked")?;
        assert!(rt; fault.text().as_str() == *expected, "{text}");
    }
    Ok(())
}
