//! Requests to a counter over a keeper in memory: each of its own routes, plain and in JSON, with worked answers.

use fare_book::Book;
use fare_counter::Counter;
use fare_desk::Desk;
use fare_http::{Form, Handler};
use fare_outside::MemKeeper;
use fare_ports::{Bodies, Keeper};
use fare_units::PlainQuoter;
use http::Method;
use std::alloc::Global;
use std::test::Fail;
use std::thread::Threads;

/// A request by its method, path and body, and its reply by the status and the body.
type Case = (&'static str, &'static str, &'static str, u16, &'static str);

/// London, Paris and Rome, with a fare between each two of them.
const THREE_FARES: &str =
    "HEAD,1,1,2025-01-01\nCUR,GB,GBP,0.750000,0,1,U\nCUR,FR,EUR,0.900000,2,1,N\nCUR,IT,EUR,0.900000,2,1,N\nCITY,LON,GB,2\nCITY,PAR,FR,2\nCITY,ROM,IT,2\nFARE,LON,ROM,EH,YY,Y,OW,,400.00\nTPM,LON,PAR,300\nTPM,PAR,ROM,700\nMPM,LON,ROM,EH,1000\nFARE,LON,PAR,EH,YY,Y,OW,,150.00\nFARE,PAR,ROM,EH,YY,Y,OW,,250.00\nEND\n";

/// Another edition, in which miles and a fare are others, and a city and its fare are new.
const CHANGED: &str =
    "HEAD,1,2,2025-02-01\nCUR,GB,GBP,0.750000,0,1,U\nCUR,FR,EUR,0.900000,2,1,N\nCUR,IT,EUR,0.900000,2,1,N\nCITY,LON,GB,2\nCITY,PAR,FR,2\nCITY,ROM,IT,2\nFARE,LON,ROM,EH,YY,Y,OW,,400.00\nTPM,LON,PAR,310\nMPM,LON,ROM,EH,1000\nFARE,LON,PAR,EH,YY,Y,OW,,150.00\nFARE,PAR,ROM,EH,YY,Y,OW,,240.00\nCITY,MIL,IT,2\nFARE,LON,MIL,EH,YY,Y,OW,,380.00\nTPM,PAR,ROM,700\nEND\n";

/// What changed from the one to the other.
const CHANGES: &str =
    "DIFF 1 2 removed 2 added 4 same 10\n- TPM,LON,PAR,300\n- FARE,PAR,ROM,EH,YY,Y,OW,,01-01,12-31,250.00\n+ TPM,LON,PAR,310\n+ FARE,PAR,ROM,EH,YY,Y,OW,,01-01,12-31,240.00\n+ CITY,MIL,IT,2\n+ FARE,LON,MIL,EH,YY,Y,OW,,01-01,12-31,380.00\n";

/// An edition with a rule, and with fares to Tokyo, Los Angeles and New York.
const CIRCLE: &str =
    "HEAD,1,7,2025-01-01\nCUR,GB,GBP,0.750000,0,1,U\nCUR,DE,EUR,0.900000,2,1,N\nCUR,JP,JPY,110.000000,0,100,U\nCUR,US,USD,1.000000,2,1,N\nCITY,LON,GB,2\nCITY,FRA,DE,2\nCITY,TYO,JP,3\nCITY,LAX,US,1\nCITY,NYC,US,1\nRULE,FLEX,5,5,0,3,365,Y,*,*\nFARE,LON,TYO,EH,YY,Y,HR,FLEX,1200.00\nFARE,LON,TYO,AP,YY,Y,HR,FLEX,1500.00\nFARE,LON,LAX,PA,YY,Y,HR,FLEX,1300.00\nFARE,LON,NYC,PA,YY,Y,HR,FLEX,1400.00\nFARE,LON,LAX,AT,YY,Y,HR,FLEX,900.00\nFARE,LON,NYC,AT,YY,Y,HR,FLEX,700.00\nTPM,LON,FRA,400\nTPM,FRA,TYO,5900\nTPM,TYO,LAX,5450\nTPM,LAX,NYC,2470\nTPM,NYC,LON,3450\nMPM,LON,TYO,EH,7400\nMPM,LON,TYO,AP,11000\nEND\n";

/// London, Paris and Rome, where the nearer city costs more.
const BACKHAUL: &str =
    "HEAD,1,1,2025-01-01\nCUR,GB,GBP,0.750000,0,1,U\nCUR,FR,EUR,0.900000,2,1,N\nCUR,IT,EUR,0.900000,2,1,N\nCITY,LON,GB,2\nCITY,PAR,FR,2\nCITY,ROM,IT,2\nFARE,LON,ROM,EH,YY,Y,OW,,400.00\nFARE,LON,PAR,EH,YY,Y,OW,,450.00\nFARE,PAR,ROM,EH,YY,Y,OW,,200.00\nTPM,LON,PAR,300\nTPM,PAR,ROM,700\nMPM,LON,ROM,EH,1000\nEND\n";

/// London, Paris and Rome, with fares whose rules bar some combinations.
const END_ON_END: &str =
    "HEAD,1,1,2025-01-01\nCUR,GB,GBP,0.750000,0,1,U\nCUR,FR,EUR,0.900000,2,1,N\nCUR,IT,EUR,0.900000,2,1,N\nCITY,LON,GB,2\nCITY,PAR,FR,2\nCITY,ROM,IT,2\nRULE,RA,9,9,0,0,365,Y,*,RA\nRULE,RB,9,9,0,0,365,Y,*,*\nFARE,LON,PAR,EH,YY,Y,OW,RA,150.00\nFARE,LON,PAR,EH,YY,Y,OW,,200.00\nFARE,PAR,ROM,EH,YY,Y,OW,RB,100.00\nEND\n";

/// A trip by Paris to Rome.
const BY_PARIS: &str =
    "{\"sale\":\"2025-03-01\",\"from\":\"LON\",\"sectors\":[{\"to\":\"PAR\",\"carrier\":\"Q1\",\"day\":\"2025-04-10\",\"cabin\":\"Y\"},{\"to\":\"ROM\",\"carrier\":\"Q1\",\"day\":\"2025-04-12\",\"cabin\":\"Y\"}]}";

/// The same with a transfer at Paris.
const THROUGH_PARIS: &str =
    "{\"sale\":\"2025-03-01\",\"from\":\"LON\",\"sectors\":[{\"to\":\"PAR\",\"carrier\":\"Q1\",\"day\":\"2025-04-10\",\"cabin\":\"Y\",\"stop\":false},{\"to\":\"ROM\",\"carrier\":\"Q1\",\"day\":\"2025-04-12\",\"cabin\":\"Y\"}]}";

/// Every fault of a text that is no tariff.
const JUNK_FAULTS: &str =
    "TARIFF 1 NoHeader  junk  the first record isn't HEAD\nTARIFF 2 NoEnd  the text has no END record\n";

/// The quotation of the trip by Paris, with a higher intermediate point and a backhaul minimum.
const BACKHAUL_ANSWER: &str =
    "{\"edition\":{\"effective\":\"2025-01-01\",\"number\":1},\"quotation\":{\"line\":\"LON Q1 PAR Q1 ROM MLONPAR450.00 YYYOW/1 P/1 50.00 NUC500.00END ROE0.750000\",\"local\":{\"amount\":\"375\",\"currency\":\"GBP\"},\"parts\":[{\"amount\":\"450.00\",\"back\":false,\"fare\":{\"carrier\":\"YY\",\"class\":\"Y\",\"kind\":\"OW\",\"record\":8,\"rule\":null},\"filed\":\"400.00\",\"from\":\"LON\",\"hip\":{\"amount\":\"450.00\",\"from\":\"LON\",\"to\":\"PAR\"},\"miles\":{\"ema\":0,\"mpm\":1000,\"net\":1000,\"surcharge\":0,\"tpm\":1000},\"sectors\":[1,2],\"to\":\"ROM\",\"unit\":1}],\"roe\":\"0.750000\",\"total\":\"500.00\",\"units\":[{\"kind\":\"OW\",\"minimum\":{\"amount\":\"500.00\",\"check\":\"BH\"},\"number\":1,\"price\":\"500.00\",\"sum\":\"450.00\"}]}}\n";

/// The first two constructions of the trip through Paris.
const FIRST_TWO: &str =
    "{\"best\":[{\"line\":\"LON Q1 X/PAR Q1 ROM M400.00 YYYOW/1 NUC400.00END ROE0.750000\",\"total\":\"400.00\"},{\"line\":\"LON Q1 X/PAR 150.00 YYYOW/1 Q1 ROM 250.00 YYYOW/2 NUC400.00END ROE0.750000\",\"total\":\"400.00\"}],\"edition\":{\"effective\":\"2025-01-01\",\"number\":1}}\n";

/// What would make the trip by Paris cheaper.
const REASONS: &str =
    "EDITION 1 2025-01-01\nBEST 300.00\nWITHOUT ENDS 250.00 SAVES 50.00\nLON Q1 PAR 150.00 YYYOWRA/1 Q1 ROM 100.00 YYYOWRB/2 NUC250.00END ROE0.750000\nBROKEN 20 2\n";

/// The same in JSON.
const REASONS_ANSWER: &str =
    "{\"edition\":{\"effective\":\"2025-01-01\",\"number\":1},\"total\":\"300.00\",\"without\":[{\"broken\":{\"place\":2,\"rule\":20,\"words\":\"the fare of part 2 isn't combinable end on end with an earlier one\"},\"kind\":\"ENDS\",\"line\":\"LON Q1 PAR 150.00 YYYOWRA/1 Q1 ROM 100.00 YYYOWRB/2 NUC250.00END ROE0.750000\",\"saves\":\"50.00\",\"total\":\"250.00\"}]}\n";

/// The line of that quotation, presented for its trip.
const BEST_LINE: &str =
    "{\"line\":\"LON Q1 PAR Q1 ROM MLONPAR450.00 YYYOW/1 P/1 50.00 NUC500.00END ROE0.750000\",\"trip\":{\"sale\":\"2025-03-01\",\"from\":\"LON\",\"sectors\":[{\"to\":\"PAR\",\"carrier\":\"Q1\",\"day\":\"2025-04-10\",\"cabin\":\"Y\"},{\"to\":\"ROM\",\"carrier\":\"Q1\",\"day\":\"2025-04-12\",\"cabin\":\"Y\"}]}}";

/// A dearer line, presented for the same trip.
const DEARER_LINE: &str =
    "{\"line\":\"LON Q1 PAR 450.00 YYYOW/1 Q1 ROM 200.00 YYYOW/2 NUC650.00END ROE0.750000\",\"trip\":{\"sale\":\"2025-03-01\",\"from\":\"LON\",\"sectors\":[{\"to\":\"PAR\",\"carrier\":\"Q1\",\"day\":\"2025-04-10\",\"cabin\":\"Y\"},{\"to\":\"ROM\",\"carrier\":\"Q1\",\"day\":\"2025-04-12\",\"cabin\":\"Y\"}]}}";

/// The line of another trip.
const OTHER_LINE: &str =
    "{\"line\":\"LON Q1 X/PAR Q1 ROM M400.00 YYYOW/1 NUC400.00END ROE0.750000\",\"trip\":{\"sale\":\"2025-03-01\",\"from\":\"LON\",\"sectors\":[{\"to\":\"PAR\",\"carrier\":\"Q1\",\"day\":\"2025-04-10\",\"cabin\":\"Y\"},{\"to\":\"ROM\",\"carrier\":\"Q1\",\"day\":\"2025-04-12\",\"cabin\":\"Y\"}]}}";

/// What a path under `/json/` is answered where nothing is.
const NOTHING: &str = "{\"fault\":{\"text\":\"NO ROUTE\",\"words\":\"nothing is at this path\"}}\n";

/// Requests that speak of tariffs.
static TARIFF_CASES: [Case; 12] = [
    ("POST", "/editions", THREE_FARES, 201, "PUBLISHED 1\n"),
    ("POST", "/editions", CHANGED, 201, "PUBLISHED 2\n"),
    ("GET", "/editions/1/diff/2", "", 200, CHANGES),
    ("GET", "/editions/01/diff/2", "", 404, "NO ROUTE\n"),
    ("GET", "/editions/1/diff/02", "", 404, "NO ROUTE\n"),
    ("GET", "/editions/8/diff/9", "", 404, "NO SUCH EDITION 8\n"),
    ("GET", "/editions/1/diff/9", "", 404, "NO SUCH EDITION 9\n"),
    ("GET", "/editions/1/diff/", "", 404, "NO ROUTE\n"),
    ("POST", "/editions/1/diff/2", "", 405, "METHOD\n"),
    ("POST", "/check", CIRCLE, 200, "CHECKED 7 2025-01-01 23\n"),
    ("POST", "/check", "junk", 400, JUNK_FAULTS),
    ("GET", "/check", "", 405, "METHOD\n"),
];

/// Requests for quotations and audits in JSON.
static AUDIT_CASES: [Case; 8] = [
    ("POST", "/editions", BACKHAUL, 201, "PUBLISHED 1\n"),
    ("POST", "/json/quote", BY_PARIS, 200, BACKHAUL_ANSWER),
    (
        "POST",
        "/json/audit",
        BEST_LINE,
        200,
        "{\"edition\":{\"effective\":\"2025-01-01\",\"number\":1},\"verdict\":{\"name\":\"LAWFUL\",\"over\":\"0.00\",\"price\":\"500.00\",\"words\":\"the line is lawful, and no lawful one costs less\"}}\n",
    ),
    (
        "POST",
        "/json/audit",
        DEARER_LINE,
        200,
        "{\"edition\":{\"effective\":\"2025-01-01\",\"number\":1},\"verdict\":{\"name\":\"LAWFUL\",\"over\":\"150.00\",\"price\":\"650.00\",\"words\":\"the line is lawful, and a lawful one costs 150.00 less\"}}\n",
    ),
    (
        "POST",
        "/json/audit",
        OTHER_LINE,
        200,
        "{\"edition\":{\"effective\":\"2025-01-01\",\"number\":1},\"verdict\":{\"name\":\"OTHER TRIP\",\"sector\":1,\"words\":\"the line and the trip differ at sector 1\"}}\n",
    ),
    (
        "POST",
        "/json/audit",
        "[]",
        400,
        "{\"fault\":{\"text\":\"TRIP Bad trip 0\",\"words\":\"the request isn't a JSON object\"}}\n",
    ),
    (
        "POST",
        "/json/audit",
        "{}",
        400,
        "{\"fault\":{\"text\":\"LINE MISSING\",\"words\":\"the request has no member line that is a string\"}}\n",
    ),
    (
        "GET",
        "/json/audit",
        "",
        405,
        "{\"fault\":{\"text\":\"METHOD\",\"words\":\"this path takes POST alone\"}}\n",
    ),
];

/// Requests for the first constructions in JSON.
static BEST_CASES: [Case; 5] = [
    ("POST", "/editions", THREE_FARES, 201, "PUBLISHED 1\n"),
    ("POST", "/json/best/2", THROUGH_PARIS, 200, FIRST_TWO),
    ("POST", "/json/best/0", THROUGH_PARIS, 404, NOTHING),
    ("POST", "/json/best/", THROUGH_PARIS, 404, NOTHING),
    (
        "POST",
        "/json/best/2",
        "{}",
        400,
        "{\"fault\":{\"text\":\"TRIP Missing sale 0\",\"words\":\"the itinerary has no member sale\"}}\n",
    ),
];

/// Requests for what would make a trip cheaper, plain and in JSON.
static WHY_CASES: [Case; 7] = [
    ("POST", "/editions", END_ON_END, 201, "PUBLISHED 1\n"),
    ("POST", "/why", BY_PARIS, 200, REASONS),
    ("POST", "/why", "{}", 400, "TRIP Missing sale 0\n"),
    ("GET", "/why", "", 405, "METHOD\n"),
    ("POST", "/json/why", BY_PARIS, 200, REASONS_ANSWER),
    (
        "POST",
        "/json/why",
        "{}",
        400,
        "{\"fault\":{\"text\":\"TRIP Missing sale 0\",\"words\":\"the itinerary has no member sale\"}}\n",
    ),
    (
        "GET",
        "/json/why",
        "",
        405,
        "{\"fault\":{\"text\":\"METHOD\",\"words\":\"this path takes POST alone\"}}\n",
    ),
];

/// Whether requests, one after the other, have these replies, each in the form of its path.
fn are_answered<R: Threads + Sync>(rt: &R, alloc: Global, cases: &[Case]) -> Result<bool, Fail> {
    let mut keeper = MemKeeper::new(Bodies::new(alloc), Vec::new(alloc));
    keeper.open(alloc, "editions")?;
    let book = Book::restore(rt, alloc, &mut keeper)?;
    let desk = Desk::new(rt, alloc, book, &mut keeper, PlainQuoter)?;
    let mut counter = Counter::new(alloc, desk)?;
    for case in cases {
        let method = Method::from_bytes(alloc, case.0.as_bytes())?;
        let reply = counter.answer(rt, alloc, &method, case.1, case.2.as_bytes())?;
        let is_json = reply.form == Form::Json;
        if is_json != case.1.starts_with("/json/")
            || reply.status.number() != case.3
            || reply.body.as_slice() != case.4.as_bytes()
        {
            return Ok(false);
        }
    }
    Ok(true)
}

#[test]
fn tariffs_are_checked_and_compared(rt: HostRuntime) -> Result<(), Fail> {
    assert!(rt; are_answered(&rt, rt.alloc(), &TARIFF_CASES)?);
    Ok(())
}

#[test]
fn audits_are_answered_in_json(rt: HostRuntime) -> Result<(), Fail> {
    assert!(rt; are_answered(&rt, rt.alloc(), &AUDIT_CASES)?);
    Ok(())
}

#[test]
fn the_first_ten_are_answered_in_json(rt: HostRuntime) -> Result<(), Fail> {
    assert!(rt; are_answered(&rt, rt.alloc(), &BEST_CASES)?);
    Ok(())
}

#[test]
fn reasons_are_answered(rt: HostRuntime) -> Result<(), Fail> {
    assert!(rt; are_answered(&rt, rt.alloc(), &WHY_CASES)?);
    Ok(())
}
