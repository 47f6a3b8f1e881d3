//! Rounds as their clients see them: who is answered, in which order, and from which book.

use super::{EDITION_7, LIST, LISTED_7, NO_TEXT, PUBLISHED_7, served, served_twice, was_sent};
use fare_rounds::*;
use std::test::Fail;

/// An edition of 25 records.
const EDITION_73: &[u8] =
    b"POST /editions HTTP/1.1\r\nContent-Length: 972\r\n\r\nHEAD,2,73,2025-01-01\n\
FARE,OSA,SYD,EH,YY,Y,HR,FLEX,12-18,07-20,350.00\nFARE,SYD,OSA,EH,YY,Y,HR,FLEX,04-05,04-12,300.00\n\
FARE,TYO,OSA,EH,YY,Y,HR,FLEX,01-01,12-31,268.87\nFARE,TYO,OSA,AP,YY,Y,OW,,03-11,05-12,350.05\n\
CITY,SYD,AU,3\nCITY,OSA,JP,3\nCITY,TYO,JP,3\nFARE,SYD,OSA,EH,YY,Y,HR,FLEX,04-13,04-04,400.00\n\
TPM,OSA,SYD,2738\nFARE,TYO,OSA,EH,YY,Y,OW,,01-01,12-31,350.00\n\
FARE,OSA,SYD,EH,YY,Y,HR,FLEX,10-17,12-17,345.15\nFARE,SYD,OSA,EH,YY,Y,OW,FLEX,01-01,12-31,322.15\n\
CUR,AU,AUD,0.912345,1,5,U\nFARE,SYD,TYO,WH,YY,Y,HR,FLEX,01-01,12-31,154.80\n\
FARE,SYD,TYO,AT,YY,Y,OW,,05-02,06-29,250.00\nFARE,TYO,OSA,EH,YY,Y,HR,,01-01,12-31,213.64\n\
FARE,OSA,TYO,EH,YY,Y,HR,,01-01,12-31,417.29\nFARE,SYD,OSA,EH,YY,Y,HR,,12-18,03-27,350.00\n\
FARE,SYD,OSA,EH,YY,Y,HR,,03-28,12-17,450.00\nFARE,SYD,OSA,EH,YY,Y,OW,,01-08,05-24,400.00\n\
FARE,OSA,SYD,EH,YY,Y,HR,FLEX,07-21,10-16,200.00\nCUR,JP,JPY,0.912345,0,10000,U\nTPM,TYO,OSA,2267\n\
RULE,FLEX,16,0,0,0,999,N,- GHOST,*\nFARE,TYO,OSA,AP,YY,Y,OW,,05-13,03-10,464.89\nEND\n";

/// An edition of 18 records.
const EDITION_51: &[u8] =
    b"POST /editions HTTP/1.1\r\nContent-Length: 624\r\n\r\nHEAD,2,51,2025-01-01\n\
CUR,CA,CAD,110.000000,2,100,N\nCUR,US,USD,110.000000,1,5,N\nCITY,YYZ,CA,1\nCITY,LAX,US,1\n\
CITY,NYC,US,1\nRULE,A,0,5,0,0,999,Y,*,*\nFARE,YYZ,LAX,WH,YY,Y,OW,,01-01,12-31,150.00\n\
FARE,YYZ,LAX,WH,YY,Y,HR,,01-01,12-31,191.53\nFARE,LAX,YYZ,WH,YY,Y,HR,,01-01,12-31,119.10\n\
FARE,YYZ,LAX,WH,Q2,F,OW,A,01-01,12-31,211.07\nFARE,LAX,YYZ,WH,Q2,F,HR,A,01-01,12-31,150.00\n\
FARE,YYZ,LAX,WH,YY,F,HR,,01-01,12-31,450.00\nFARE,LAX,YYZ,WH,YY,F,HR,,01-01,12-31,400.00\n\
FARE,YYZ,NYC,AT,YY,F,HR,,01-01,12-31,679.35\nFARE,YYZ,LAX,EH,YY,Y,HR,,01-01,12-31,118.19\n\
FARE,YYZ,LAX,PA,YY,F,HR,,01-01,12-31,414.43\nTPM,YYZ,LAX,496\nTPM,LAX,NYC,752\nEND\n";

/// A publication, and the list.
static PUBLISHED_AND_LISTED: [&[u8]; 2] = [EDITION_7, LIST];

static PUBLISHED_AND_NONE: [&[u8]; 2] = [PUBLISHED_7, NO_TEXT];

#[test]
fn a_publication_comes_after_what_is_only_asked(rt: HostRuntime) -> Result<(), Fail> {
    let (first, second) = served_twice(&rt, &PUBLISHED_AND_LISTED, 2)?;
    assert!(rt; first == (DoorEnd::Open, Counts { served: 2, cut: 0 }));
    assert!(rt; second.end == DoorEnd::NoMore && second.counts_are(0, 0));
    assert!(rt; second.sent(&PUBLISHED_AND_NONE));
    Ok(())
}

#[test]
fn a_round_of_one_is_serving(rt: HostRuntime) -> Result<(), Fail> {
    let (first, second) = served_twice(&rt, &PUBLISHED_AND_LISTED, 1)?;
    assert!(rt; first.1.served == 1 && first.1.cut == 0);
    assert!(rt; second.counts_are(1, 0));
    assert!(rt; was_sent(&second.door, 1, LISTED_7));
    Ok(())
}

/// One edition that is published twice, and what is answered.
static TWICE: [&[u8]; 2] = [EDITION_7, EDITION_7];

static NEW_AND_KNOWN: [&[u8]; 2] = [
    PUBLISHED_7,
    b"HTTP/1.1 200 OK\r\nContent-Type: text/plain\r\n\
Content-Length: 10\r\nConnection: close\r\n\r\nALREADY 7\n",
];

#[test]
fn publications_take_turns(rt: HostRuntime) -> Result<(), Fail> {
    let round = served(&rt, b"", &TWICE, 2)?;
    assert!(rt; round.sent(&NEW_AND_KNOWN));
    Ok(())
}

/// No route, a publication, and a method that the route hasn't, and what is answered.
static THREE: [&[u8]; 3] = [
    b"GET //editions HTTP/1.0\r\nhost:x\r\n\r\n",
    EDITION_73,
    b"M-SEARCH /editions HTTP/1.1\r\nhost:x\r\n\r\nGET / HTTP/1.1\r\n\r\n",
];

static ANSWERS_TO_THREE: [&[u8]; 3] = [
    b"HTTP/1.1 404 Not Found\r\nContent-Type: text/plain\r\n\
Content-Length: 9\r\nConnection: close\r\n\r\nNO ROUTE\n",
    b"HTTP/1.1 201 Created\r\nContent-Type: text/plain\r\n\
Content-Length: 13\r\nConnection: close\r\n\r\nPUBLISHED 73\n",
    b"HTTP/1.1 405 Method Not Allowed\r\nContent-Type: text/plain\r\n\
Content-Length: 7\r\nAllow: GET\r\nConnection: close\r\n\r\nMETHOD\n",
];

#[test]
fn a_round_keeps_the_order_of_its_connections(rt: HostRuntime) -> Result<(), Fail> {
    let round = served(&rt, b"", &THREE, 3)?;
    assert!(rt; round.counts_are(3, 0));
    assert!(rt; round.sent(&ANSWERS_TO_THREE));
    Ok(())
}

/// The list of a book of two editions, and what is answered.
const TWO_EDITIONS: &[u8] = b"EDITION 18 2025-01-01 29\nEDITION 59 2025-01-01 68\n";

const TWO_LISTED: &[u8] = b"HTTP/1.1 200 OK\r\nContent-Type: text/plain\r\nContent-Length: 50\r\n\
Connection: close\r\n\r\nEDITION 18 2025-01-01 29\nEDITION 59 2025-01-01 68\n";

const LIST_OF_1_0: &[u8] = b"GET /editions HTTP/1.0\r\nHost: localhost\r\n\r\n";

/// A publication, the list twice, and the batch by a method that it hasn't, and what is answered.
static FOUR: [&[u8]; 4] = [
    EDITION_51,
    LIST_OF_1_0,
    LIST_OF_1_0,
    b"OPTIONS /batch HTTP/1.1\r\nAccept: */*\r\nContent-Length:\t2\r\nX: \r\n\r\n[]tail",
];

static ANSWERS_TO_FOUR: [&[u8]; 4] = [
    b"HTTP/1.1 201 Created\r\nContent-Type: text/plain\r\n\
Content-Length: 13\r\nConnection: close\r\n\r\nPUBLISHED 51\n",
    TWO_LISTED,
    TWO_LISTED,
    b"HTTP/1.1 405 Method Not Allowed\r\nContent-Type: text/plain\r\n\
Content-Length: 7\r\nAllow: POST\r\nConnection: close\r\n\r\nMETHOD\n",
];

#[test]
fn a_round_sees_the_book_at_its_start(rt: HostRuntime) -> Result<(), Fail> {
    let round = served(&rt, TWO_EDITIONS, &FOUR, 7)?;
    assert!(rt; round.counts_are(4, 0));
    assert!(rt; round.sent(&ANSWERS_TO_FOUR));
    Ok(())
}
