//! The words of faults.

use fare_audit::AuditFault;
use fare_book::Damage;
use fare_csv::TextFault;
use fare_sentences::{Fault, OneMethod, fault_of_audit, fault_text, fault_words, push_broken};
use fare_trip::{Member, TripFault};
use std::alloc::Global;
use std::process::Abort;
use std::test::Fail;

/// A refusal, its plain line and its sentence.
#[derive(Clone, Copy)]
struct Case {
    fault: Fault,
    text: &'static str,
    words: &'static str,
}

/// Refusals of an itinerary, with their plain lines and their sentences.
fn of_itineraries() -> [Case; 3] {
    [
        Case {
            fault: Fault::Trip(TripFault::Missing(Member::Sale, 0)),
            text: "TRIP Missing sale 0",
            words: "the itinerary has no member sale",
        },
        Case {
            fault: Fault::Trip(TripFault::Missing(Member::To, 4)),
            text: "TRIP Missing to 4",
            words: "sector 4 has no member to",
        },
        Case {
            fault: Fault::Trip(TripFault::Bad(Member::From, 0)),
            text: "TRIP Bad from 0",
            words: "the member from of the itinerary has to be three letters A to Z, as a string",
        },
    ]
}

/// The same of a request.
fn of_requests() -> [Case; 5] {
    [
        Case {
            fault: Fault::NoBatch,
            text: "TRIP Bad trip 0",
            words: "the batch isn't a JSON array",
        },
        Case {
            fault: Fault::NoTrip,
            text: "TRIP Missing trip 0",
            words: "the request has no member trip",
        },
        Case {
            fault: Fault::BadLine(147),
            text: "LINE 147",
            words: "the first 147 bytes of the line begin a calculation line, and no more of them do",
        },
        Case {
            fault: Fault::NoRoute,
            text: "NO ROUTE",
            words: "nothing is at this path",
        },
        Case {
            fault: Fault::Method(OneMethod::Post),
            text: "METHOD",
            words: "this path takes POST alone",
        },
    ]
}

/// The same of a source or a store.
fn of_sources_and_stores() -> [Case; 4] {
    [
        Case {
            fault: Fault::SourceLimit(65_536),
            text: "LIMIT",
            words: "the source holds more than 65536 bytes",
        },
        Case {
            fault: Fault::ReadFault,
            text: "READ FAULT",
            words: "standard input can't be read",
        },
        Case {
            fault: Fault::Damaged(3, Damage::Repeat(1)),
            text: "DAMAGED 3 Repeat 1",
            words: "text 3 of the store has the number of text 1",
        },
        Case {
            fault: Fault::Damaged(2, Damage::Text(TextFault::NoHeader)),
            text: "DAMAGED 2 1 NoHeader",
            words: "text 2 of the store is no edition",
        },
    ]
}

/// Compares each refusal with its plain line and its sentence.
fn have_their_words<R: Abort>(rt: &R, alloc: Global, cases: &[Case]) -> Result<(), Fail> {
    for case in cases {
        let text = fault_text(alloc, &case.fault)?;
        assert!(rt; text.as_slice() == case.text.as_bytes(), "{}", case.text);
        let words = fault_words(alloc, &case.fault)?;
        assert!(rt; words.as_slice() == case.words.as_bytes(), "{}", case.text);
    }
    Ok(())
}

#[test]
fn refusals_have_their_words(rt: HostRuntime) -> Result<(), Fail> {
    let alloc = rt.alloc();
    have_their_words(&rt, alloc, &of_itineraries())?;
    have_their_words(&rt, alloc, &of_requests())?;
    have_their_words(&rt, alloc, &of_sources_and_stores())
}

#[test]
fn an_audit_that_is_no_object_is_told_from_a_trip_that_is_none(
    rt: HostRuntime,
) -> Result<(), Fail> {
    let bad = AuditFault::Trip(TripFault::Bad(Member::Trip, 0));
    let array = fault_of_audit(rt.alloc(), b"[]", &bad)?;
    assert!(rt; array == Fault::NoRequest);
    let object = fault_of_audit(rt.alloc(), b"{}", &bad)?;
    assert!(rt; object == Fault::Trip(TripFault::Bad(Member::Trip, 0)));
    Ok(())
}

#[test]
fn a_broken_rule_has_its_sentence(rt: HostRuntime) -> Result<(), Fail> {
    let mut text = Vec::new(rt.alloc());
    push_broken(&mut text, 20, 2)?;
    assert_eq!(rt;
        text.as_slice(),
        b"the fare of part 2 isn't combinable end on end with an earlier one".as_slice()
    );
    Ok(())
}
