//! Requests to a desk over a keeper in memory: each status with its text, and worked answers.

use fare_book::Book;
use fare_desk::Desk;
use fare_http::{Allow, Form, Front, Handler};
use fare_outside::{FailAt, MemKeeper};
use fare_ports::{Bodies, Keeper};
use fare_units::PlainQuoter;
use http::Method;
use std::alloc::Global;
use std::test::Fail;
use std::thread::Threads;

/// London, Paris and Rome, with one fare between two of them.
const THROUGH: &str =
    "HEAD,1,1,2025-01-01\nCUR,GB,GBP,0.750000,0,1,U\nCUR,FR,EUR,0.900000,2,1,N\nCUR,IT,EUR,0.900000,2,1,N\nCITY,LON,GB,2\nCITY,PAR,FR,2\nCITY,ROM,IT,2\nFARE,LON,ROM,EH,YY,Y,OW,,400.00\nTPM,LON,PAR,300\nTPM,PAR,ROM,700\nMPM,LON,ROM,EH,1000\nEND\n";

/// The same edition as it is stored.
const CANONICAL: &str =
    "HEAD,2,1,2025-01-01\nCUR,GB,GBP,0.750000,0,1,U\nCUR,FR,EUR,0.900000,2,1,N\nCUR,IT,EUR,0.900000,2,1,N\nCITY,LON,GB,2\nCITY,PAR,FR,2\nCITY,ROM,IT,2\nFARE,LON,ROM,EH,YY,Y,OW,,01-01,12-31,400.00\nTPM,LON,PAR,300\nTPM,PAR,ROM,700\nMPM,LON,ROM,EH,1000\nEND\n";

/// The same number with a dearer fare.
const DEARER: &str =
    "HEAD,1,1,2025-01-01\nCUR,GB,GBP,0.750000,0,1,U\nCUR,FR,EUR,0.900000,2,1,N\nCUR,IT,EUR,0.900000,2,1,N\nCITY,LON,GB,2\nCITY,PAR,FR,2\nCITY,ROM,IT,2\nFARE,LON,ROM,EH,YY,Y,OW,,401.00\nTPM,LON,PAR,300\nTPM,PAR,ROM,700\nMPM,LON,ROM,EH,1000\nEND\n";

/// An edition without a record.
const SECOND: &str = "HEAD,1,2,2025-02-01\nEND\n";

/// A trip by Paris to Rome.
const BY_PARIS: &str =
    "{\"sale\":\"2025-03-01\",\"from\":\"LON\",\"sectors\":[{\"to\":\"PAR\",\"carrier\":\"Q1\",\"day\":\"2025-04-10\",\"cabin\":\"Y\"},{\"to\":\"ROM\",\"carrier\":\"Q1\",\"day\":\"2025-04-12\",\"cabin\":\"Y\"}]}";

/// The same trip, sold before there was an edition.
const EARLY: &str =
    "{\"sale\":\"2024-12-31\",\"from\":\"LON\",\"sectors\":[{\"to\":\"PAR\",\"carrier\":\"Q1\",\"day\":\"2025-04-10\",\"cabin\":\"Y\"},{\"to\":\"ROM\",\"carrier\":\"Q1\",\"day\":\"2025-04-12\",\"cabin\":\"Y\"}]}";

/// The same trip to a city that the edition doesn't know.
const TO_MILAN: &str =
    "{\"sale\":\"2025-03-01\",\"from\":\"LON\",\"sectors\":[{\"to\":\"PAR\",\"carrier\":\"Q1\",\"day\":\"2025-04-10\",\"cabin\":\"Y\"},{\"to\":\"MIL\",\"carrier\":\"Q1\",\"day\":\"2025-04-12\",\"cabin\":\"Y\"}]}";

/// What the trip by Paris is answered.
const ANSWER: &str =
    "EDITION 1 2025-01-01\nLON Q1 PAR Q1 ROM M400.00 YYYOW/1 NUC400.00END ROE0.750000\nPART 1 LON-ROM UNIT 1 OUT\nFARE 8 YYYOW 400.00\nMILES TPM 1000 EMA 0 NET 1000 MPM 1000 M\nHIP NONE\nAF 400.00\nUNIT 1 OW SUM 400.00 CHECK NONE PRICE 400.00\nTOTAL NUC 400.00\nROE 0.750000\nLOCAL GBP 300\n";

/// That trip and an object without members.
const TWO_ITEMS: &str =
    "[{\"sale\":\"2025-03-01\",\"from\":\"LON\",\"sectors\":[{\"to\":\"PAR\",\"carrier\":\"Q1\",\"day\":\"2025-04-10\",\"cabin\":\"Y\"},{\"to\":\"ROM\",\"carrier\":\"Q1\",\"day\":\"2025-04-12\",\"cabin\":\"Y\"}]},{}]";

/// What these two are answered.
const TWO_REPLIES: &str =
    "ITEM 1 200\nEDITION 1 2025-01-01\nLON Q1 PAR Q1 ROM M400.00 YYYOW/1 NUC400.00END ROE0.750000\nPART 1 LON-ROM UNIT 1 OUT\nFARE 8 YYYOW 400.00\nMILES TPM 1000 EMA 0 NET 1000 MPM 1000 M\nHIP NONE\nAF 400.00\nUNIT 1 OW SUM 400.00 CHECK NONE PRICE 400.00\nTOTAL NUC 400.00\nROE 0.750000\nLOCAL GBP 300\nITEM 2 400\nTRIP Missing sale 0\n";

/// A batch of a trip from a city that the edition doesn't know, and an object without members.
const UNKNOWN_ITEMS: &str =
    "[{\"sale\":\"2025-03-01\",\"from\":\"XXX\",\"sectors\":[{\"to\":\"PAR\",\"carrier\":\"Q1\",\"day\":\"2025-04-10\",\"cabin\":\"Y\"},{\"to\":\"ROM\",\"carrier\":\"Q1\",\"day\":\"2025-04-12\",\"cabin\":\"Y\"}]},{}]";

/// What these two are answered in JSON.
const UNKNOWN_REPLIES: &str =
    "{\"items\":[{\"answer\":{\"fault\":{\"text\":\"UNKNOWN PLACE XXX\",\"words\":\"the edition has no record of the city XXX\"}},\"status\":422},{\"answer\":{\"fault\":{\"text\":\"TRIP Missing sale 0\",\"words\":\"the itinerary has no member sale\"}},\"status\":400}]}\n";

/// What a trip to Milan is answered in JSON.
const NO_MILAN: &str =
    "{\"fault\":{\"text\":\"UNKNOWN PLACE MIL\",\"words\":\"the edition has no record of the city MIL\"}}\n";

/// What a path under `/json/` is answered where nothing is.
const NOTHING: &str = "{\"fault\":{\"text\":\"NO ROUTE\",\"words\":\"nothing is at this path\"}}\n";

/// Requests one after the other, by method, path and body, each with the status and the text of its reply.
static CASES: [(&str, &str, &str, u16, &str); 29] = [
    ("GET", "/editions", "", 200, ""),
    ("POST", "/editions", THROUGH, 201, "PUBLISHED 1\n"),
    ("POST", "/editions", THROUGH, 200, "ALREADY 1\n"),
    ("POST", "/editions", DEARER, 409, "DIFFERS 1\n"),
    ("POST", "/editions", "junk", 400, "TARIFF 1 NoHeader\n"),
    ("GET", "/editions", "", 200, "EDITION 1 2025-01-01 10\n"),
    ("GET", "/editions/1", "", 200, CANONICAL),
    ("GET", "/editions/2", "", 404, "NO SUCH EDITION 2\n"),
    ("GET", "/editions/01", "", 404, "NO ROUTE\n"),
    ("GET", "/editions/100000", "", 404, "NO ROUTE\n"),
    ("GET", "/editions/", "", 404, "NO ROUTE\n"),
    ("GET", "/editions/%31", "", 404, "NO ROUTE\n"),
    ("GET", "/editions/1/2", "", 404, "NO ROUTE\n"),
    ("GET", "/batch/", "", 404, "NO ROUTE\n"),
    ("POST", "http://h/editions", THROUGH, 404, "NO ROUTE\n"),
    ("PUT", "/editions", THROUGH, 405, "METHOD\n"),
    ("POST", "/editions/01", "", 405, "METHOD\n"),
    ("GET", "/quote", "", 405, "METHOD\n"),
    ("get", "/batch", "", 405, "METHOD\n"),
    ("POST", "/quote", BY_PARIS, 200, ANSWER),
    ("POST", "/quote", "{}", 400, "TRIP Missing sale 0\n"),
    ("POST", "/quote", "", 400, "TRIP NotJson\n"),
    ("POST", "/quote", EARLY, 422, "NO EDITION 2024-12-31\n"),
    ("POST", "/quote", TO_MILAN, 422, "UNKNOWN PLACE MIL\n"),
    ("POST", "/batch", "[]", 200, ""),
    ("POST", "/batch", TWO_ITEMS, 200, TWO_REPLIES),
    ("POST", "/batch", "[", 400, "TRIP NotJson\n"),
    ("POST", "/batch", "{}", 400, "TRIP Bad trip 0\n"),
    ("GET", "/", "", 404, "NO ROUTE\n"),
];

/// Requests for JSON over the first edition, in the same way.
static JSON_CASES: [(&str, &str, &str, u16, &str); 10] = [
    ("POST", "/json/quote", TO_MILAN, 422, NO_MILAN),
    ("POST", "/json/batch", UNKNOWN_ITEMS, 200, UNKNOWN_REPLIES),
    ("POST", "/json/batch", "[]", 200, "{\"items\":[]}\n"),
    (
        "POST",
        "/json/batch",
        "{}",
        400,
        "{\"fault\":{\"text\":\"TRIP Bad trip 0\",\"words\":\"the batch isn't a JSON array\"}}\n",
    ),
    (
        "GET",
        "/json/editions",
        "",
        200,
        "{\"editions\":[{\"effective\":\"2025-01-01\",\"number\":1,\"records\":10}]}\n",
    ),
    (
        "POST",
        "/json/editions",
        SECOND,
        405,
        "{\"fault\":{\"text\":\"METHOD\",\"words\":\"this path takes GET alone\"}}\n",
    ),
    (
        "GET",
        "/json/quote",
        "",
        405,
        "{\"fault\":{\"text\":\"METHOD\",\"words\":\"this path takes POST alone\"}}\n",
    ),
    ("POST", "/json/fares", "", 404, NOTHING),
    ("GET", "/json/editions/1", "", 404, NOTHING),
    ("GET", "/json/", "", 404, NOTHING),
];

/// A request to a desk: the number of its reply's status, and its text.
fn asked<R: Threads + Sync>(
    rt: &R,
    alloc: Global,
    desk: &mut Desk<'_, MemKeeper, PlainQuoter>,
    method: &str,
    path: &str,
    body: &[u8],
) -> Result<(u16, Vec<u8>), Fail> {
    let method = Method::from_bytes(alloc, method.as_bytes())?;
    let reply = desk.answer(rt, alloc, &method, path, body)?;
    let text = Vec::from_slice(alloc, reply.body.as_slice())?;
    Ok((reply.status.number(), text))
}

#[test]
fn each_status_has_its_text(rt: HostRuntime) -> Result<(), Fail> {
    let alloc = rt.alloc();
    let mut keeper = MemKeeper::new(Bodies::new(alloc), Vec::new(alloc));
    keeper.open(alloc, "editions")?;
    let book = Book::restore(&rt, alloc, &mut keeper)?;
    let mut desk = Desk::new(&rt, alloc, book, &mut keeper, PlainQuoter)?;
    for case in &CASES {
        let (status, text) = asked(&rt, alloc, &mut desk, case.0, case.1, case.2.as_bytes())?;
        assert_eq!(rt; status, case.3);
        assert!(rt; text.as_slice() == case.4.as_bytes());
    }
    Ok(())
}

#[test]
fn each_status_has_its_answer_in_json(rt: HostRuntime) -> Result<(), Fail> {
    let alloc = rt.alloc();
    let mut bodies = Bodies::new(alloc);
    bodies.push(CANONICAL.as_bytes())?;
    let mut keeper = MemKeeper::new(bodies, Vec::new(alloc));
    keeper.open(alloc, "editions")?;
    let book = Book::restore(&rt, alloc, &mut keeper)?;
    let desk = Desk::new(&rt, alloc, book, &mut keeper, PlainQuoter)?;
    for case in &JSON_CASES {
        let method = Method::from_bytes(alloc, case.0.as_bytes())?;
        let reply = desk
            .front()
            .view(&rt, alloc, &method, case.1, case.2.as_bytes())?;
        assert!(rt; reply.form == Form::Json && reply.status.number() == case.3);
        assert!(rt; reply.body.as_slice() == case.4.as_bytes());
    }
    Ok(())
}

#[test]
fn a_batch_of_257_items_is_too_long(rt: HostRuntime) -> Result<(), Fail> {
    let alloc = rt.alloc();
    let mut batch = Vec::from_slice(alloc, b"[0")?;
    for _ in 0..256 {
        batch.extend_from_slice(b",0")?;
    }
    batch.push(b']')?;
    let mut keeper = MemKeeper::new(Bodies::new(alloc), Vec::new(alloc));
    keeper.open(alloc, "editions")?;
    let book = Book::restore(&rt, alloc, &mut keeper)?;
    let mut desk = Desk::new(&rt, alloc, book, &mut keeper, PlainQuoter)?;
    let (status, text) = asked(&rt, alloc, &mut desk, "POST", "/batch", batch.as_slice())?;
    assert_eq!(rt; status, 413);
    assert!(rt; text.as_slice() == b"LIMIT\n".as_slice());
    Ok(())
}

/// The replies to a second edition over a keeper whose second append fails, its body kept or not: at first, to a list of
/// the editions, and again.
fn after_a_failed_append<R: Threads + Sync>(
    rt: &R,
    alloc: Global,
    kept: bool,
) -> Result<[(u16, Vec<u8>); 3], Fail> {
    let mut listed = Vec::new(alloc);
    listed.push(FailAt { call: 4, kept })?;
    let mut keeper = MemKeeper::new(Bodies::new(alloc), listed);
    keeper.open(alloc, "editions")?;
    let book = Book::restore(rt, alloc, &mut keeper)?;
    let mut desk = Desk::new(rt, alloc, book, &mut keeper, PlainQuoter)?;
    asked(
        rt,
        alloc,
        &mut desk,
        "POST",
        "/editions",
        THROUGH.as_bytes(),
    )?;
    let first = asked(rt, alloc, &mut desk, "POST", "/editions", SECOND.as_bytes())?;
    let list = asked(rt, alloc, &mut desk, "GET", "/editions", b"")?;
    let again = asked(rt, alloc, &mut desk, "POST", "/editions", SECOND.as_bytes())?;
    Ok([first, list, again])
}

#[test]
fn a_failed_append_is_a_fault_until_the_book_is_reopened(rt: HostRuntime) -> Result<(), Fail> {
    let [first, list, again] = after_a_failed_append(&rt, rt.alloc(), false)?;
    assert!(rt; first.0 == 503 && first.1.as_slice() == b"KEEPER FAULT\n".as_slice());
    assert!(rt; list.0 == 200 && list.1.as_slice() == b"EDITION 1 2025-01-01 10\n".as_slice());
    assert!(rt; again.0 == 201 && again.1.as_slice() == b"PUBLISHED 2\n".as_slice());
    let [first, list, again] = after_a_failed_append(&rt, rt.alloc(), true)?;
    assert!(rt; first.0 == 503 && list.0 == 200);
    assert!(rt; again.0 == 200 && again.1.as_slice() == b"ALREADY 2\n".as_slice());
    Ok(())
}

#[test]
fn a_front_says_what_a_route_takes(rt: HostRuntime) -> Result<(), Fail> {
    let alloc = rt.alloc();
    let mut keeper = MemKeeper::new(Bodies::new(alloc), Vec::new(alloc));
    keeper.open(alloc, "editions")?;
    let book = Book::restore(&rt, alloc, &mut keeper)?;
    let desk = Desk::new(&rt, alloc, book, &mut keeper, PlainQuoter)?;
    let put = Method::from_bytes(alloc, b"PUT")?;
    let editions = desk.front().view(&rt, alloc, &put, "/editions", b"")?;
    assert!(rt; editions.status.number() == 405 && editions.allow == Allow::Get);
    let quote = desk.front().view(&rt, alloc, &put, "/quote", b"")?;
    assert!(rt; quote.status.number() == 405 && quote.allow == Allow::Post);
    assert_eq!(rt; desk.book().editions().len(), 0);
    Ok(())
}

/// A stored edition of another program's example.
const STORED: &str =
    "HEAD,2,53,2025-01-01\nTPM,PAR,OSA,2595\nCITY,LYS,FR,2\nRULE,SAVER21,5,2,0,1,7,Y,*,FLEX\nTPM,PAR,LYS,505\nTPM,LAX,OSA,2778\nFARE,PAR,OSA,EH,YY,Y,HR,SAVER21,01-01,12-31,300.00\nFARE,OSA,PAR,EH,YY,Y,HR,SAVER21,01-01,12-31,300.00\nCUR,JP,JPY,0.000001,1,1,U\nCITY,MAN,GB,2\nFARE,PAR,LYS,EH,YY,Y,OW,SAVER21,01-01,12-31,128.26\nCUR,GB,GBP,0.912345,1,10000,U\nCUR,FR,EUR,110.000000,2,10000,U\nFARE,PAR,LYS,EH,YY,Y,HR,,01-01,12-31,116.94\nCITY,MIL,IT,2\nTPM,LYS,OSA,2360\nCITY,PAR,FR,2\nCUR,IT,EUR,0.912345,0,5,U\nCITY,NYC,US,1\nTPM,LYS,MIL,2119\nCITY,LAX,US,1\nTPM,PAR,MAN,2248\nFARE,PAR,LYS,EH,YY,Y,HR,SAVER21,01-01,12-31,158.59\nRULE,FLEX,1,16,3,3,999,Y,*,*\nFARE,OSA,PAR,EH,YY,Y,OW,,01-01,12-31,332.73\nCITY,OSA,JP,3\nFARE,LYS,PAR,EH,YY,Y,HR,SAVER21,01-01,12-31,100.00\nFARE,PAR,OSA,EH,YY,Y,HR,,01-01,12-31,300.00\nTPM,MIL,LAX,2426\nFARE,OSA,PAR,EH,YY,Y,HR,,01-01,12-31,463.25\nCUR,US,USD,1.000000,2,100,N\nTPM,NYC,LAX,1233\nFARE,OSA,PAR,EH,YY,Y,OW,SAVER21,01-01,12-31,366.48\nFARE,LYS,PAR,EH,YY,Y,HR,,01-01,12-31,141.39\nTPM,NYC,MIL,1684\nTPM,LYS,LAX,438\nEND\n";

/// A batch of trips in it.
const STORED_BATCH: &str =
    "[{},{\"from\":\"PAR\",\"sale\":\"2025-04-03\",\"sectors\":[{\"cabin\":\"Y\",\"carrier\":\"Q1\",\"day\":\"2025-06-02\",\"over\":\"AT\",\"stop\":true,\"surface\":false,\"to\":\"LYS\"},{\"cabin\":\"Y\",\"carrier\":\"Q1\",\"day\":\"2025-06-03\",\"over\":\"\",\"stop\":true,\"surface\":true,\"to\":\"OSA\"},{\"cabin\":\"Y\",\"carrier\":\"Q1\",\"day\":\"2025-06-06\",\"over\":\"\",\"stop\":true,\"surface\":false,\"to\":\"PAR\"}]}]";

/// What that program answers.
const STORED_REPLY: &str =
    "ITEM 1 400\nTRIP Missing sale 0\nITEM 2 200\nEDITION 53 2025-01-01\nNO FARE\n";

#[test]
fn a_batch_is_answered_as_another_program_does(rt: HostRuntime) -> Result<(), Fail> {
    let alloc = rt.alloc();
    let mut bodies = Bodies::new(alloc);
    bodies.push(STORED.as_bytes())?;
    let mut keeper = MemKeeper::new(bodies, Vec::new(alloc));
    keeper.open(alloc, "editions")?;
    let book = Book::restore(&rt, alloc, &mut keeper)?;
    let mut desk = Desk::new(&rt, alloc, book, &mut keeper, PlainQuoter)?;
    let (status, text) = asked(
        &rt,
        alloc,
        &mut desk,
        "POST",
        "/batch",
        STORED_BATCH.as_bytes(),
    )?;
    assert_eq!(rt; status, 200);
    assert!(rt; text.as_slice() == STORED_REPLY.as_bytes());
    Ok(())
}
