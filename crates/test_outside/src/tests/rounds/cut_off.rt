//! What a failed call, or the early end of a connection, cuts off from a round: its own exchange alone.

use super::{EDITION_7, LIST, LISTED_7, Outcome, clerk_with, failing_door, serve, served};
use fare_rounds::*;
use std::test::Fail;
use std::thread::Threads;

static THREE: [&[u8]; 3] = [EDITION_7, LIST, LIST];

static ONLY_THE_LAST: [&[u8]; 3] = [
    b"",
    b"",
    b"HTTP/1.1 200 OK\r\nContent-Type: text/plain\r\n\
Content-Length: 25\r\nConnection: close\r\n\r\nEDITION 18 2025-01-01 29\n",
];

/// Serves a round of three connections. The calls are next and read for each of them, of which the first read fails,
/// and then the writes, of which the first one fails.
fn served_with_failures<R: AllocGlobal + Threads + Sync>(rt: &R) -> Result<Outcome, Fail> {
    let alloc = rt.alloc();
    let mut clerk = clerk_with(alloc, b"EDITION 18 2025-01-01 29\n")?;
    let fail = Vec::from_slice(alloc, &[2, 7])?;
    let mut door = failing_door(alloc, &THREE, fail)?;
    let (end, counts) = serve(rt, alloc, &mut door, &mut clerk, 3);
    Ok(Outcome { end, counts, door })
}

#[test]
fn a_failed_call_cuts_off_its_own_exchange_alone(rt: HostRuntime) -> Result<(), Fail> {
    let round = served_with_failures(&rt)?;
    assert!(rt; round.counts_are(1, 2));
    assert!(rt; round.sent(&ONLY_THE_LAST));
    Ok(())
}

static SECOND_ENDS_EARLY: [&[u8]; 3] = [
    LIST,
    b"POST /editions HTTP/1.1\r\nContent-Length: 3\r\n\r\nHE",
    LIST,
];

static ALL_BUT_THE_SECOND: [&[u8]; 3] = [LISTED_7, b"", LISTED_7];

#[test]
fn a_connection_that_ends_early_is_cut_off_alone(rt: HostRuntime) -> Result<(), Fail> {
    let round = served(&rt, b"EDITION 7 2025-01-01 23\n", &SECOND_ENDS_EARLY, 8)?;
    assert!(rt; round.end == DoorEnd::Open);
    assert!(rt; round.counts_are(2, 1));
    assert!(rt; round.sent(&ALL_BUT_THE_SECOND));
    Ok(())
}
