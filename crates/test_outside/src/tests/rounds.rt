//! Rounds of connections over a door in memory, by a clerk who lists what was published.

ghost use Rattle.std.specs.Prelude.{◌≡◌, ◌≤◌, [], IfOk, ⊤};

mod cut_off;
mod seen;
mod side_by_side;

use fare_http::{Allow, Form, Front, Handler, Reply, Status};
use fare_outside::MemDoor;
use fare_ports::{Bodies, Bytes, NoMemory};
use fare_rounds::*;
use http::Method;
use std::alloc::Global;
use std::str::from_utf8;
use std::test::Fail;
use std::thread::Threads;

/// The first edition of a book, of 23 records.
const EDITION_7: &[u8] =
    b"POST /editions HTTP/1.1\r\nContent-Length: 575\r\n\r\nHEAD,1,7,2025-01-01\n\
CUR,GB,GBP,0.750000,0,1,U\nCUR,DE,EUR,0.900000,2,1,N\nCUR,JP,JPY,110.000000,0,100,U\n\
CUR,US,USD,1.000000,2,1,N\nCITY,LON,GB,2\nCITY,FRA,DE,2\nCITY,TYO,JP,3\nCITY,LAX,US,1\n\
CITY,NYC,US,1\nRULE,FLEX,5,5,0,3,365,Y,*,*\nFARE,LON,TYO,EH,YY,Y,HR,FLEX,1200.00\n\
FARE,LON,TYO,AP,YY,Y,HR,FLEX,1500.00\nFARE,LON,LAX,PA,YY,Y,HR,FLEX,1300.00\n\
FARE,LON,NYC,PA,YY,Y,HR,FLEX,1400.00\nFARE,LON,LAX,AT,YY,Y,HR,FLEX,900.00\n\
FARE,LON,NYC,AT,YY,Y,HR,FLEX,700.00\nTPM,LON,FRA,400\nTPM,FRA,TYO,5900\nTPM,TYO,LAX,5450\n\
TPM,LAX,NYC,2470\nTPM,NYC,LON,3450\nMPM,LON,TYO,EH,7400\nMPM,LON,TYO,AP,11000\nEND\n";

/// Asks for the list of editions.
const LIST: &[u8] = b"GET /editions HTTP/1.1\r\n\r\n";

/// What the publication of the first edition is answered.
const PUBLISHED_7: &[u8] =
    b"HTTP/1.1 201 Created\r\nContent-Type: text/plain\r\nContent-Length: 12\r\n\
Connection: close\r\n\r\nPUBLISHED 7\n";

/// What the list of the first edition is answered.
const LISTED_7: &[u8] = b"HTTP/1.1 200 OK\r\nContent-Type: text/plain\r\nContent-Length: 24\r\n\
Connection: close\r\n\r\nEDITION 7 2025-01-01 23\n";

/// An answer without a text, as that of a list of no edition.
const NO_TEXT: &[u8] = b"HTTP/1.1 200 OK\r\nContent-Type: text/plain\r\nContent-Length: 0\r\n\
Connection: close\r\n\r\n";

/// A clerk who lists what was published, and takes the first line of a tariff at its word.
#[derive(Drop)]
struct Clerk {
    list: Bytes,
}

fn reply(alloc: Global, status: Status, allow: Allow, text: &[u8]) -> Result<Reply, NoMemory> {
    let mut body = Bytes::new(alloc);
    body.extend(text)?;
    Ok(Reply {
        status,
        form: Form::Text,
        allow,
        body,
    })
}

impl Clerk {
    fn publish(&mut self, alloc: Global, tariff: &[u8]) -> Result<Reply, NoMemory> {
        let Ok(tariff) = from_utf8(tariff) else {
            return reply(alloc, Status::BadRequest, Allow::Unsaid, b"TARIFF\n");
        };
        let records = tariff.lines().count().saturating_sub(2);
        let mut fields = tariff.lines().next().unwrap_or("").split(',');
        let number = fields.nth(2).unwrap_or("");
        let day = fields.next().unwrap_or("");
        let line = format!(in alloc; "EDITION {number} {day} {records}\n")?;
        if self.list.as_slice().ends_with(line.as_bytes()) {
            let text = format!(in alloc; "ALREADY {number}\n")?;
            return reply(alloc, Status::Okay, Allow::Unsaid, text.as_bytes());
        }
        self.list.extend(line.as_bytes())?;
        let text = format!(in alloc; "PUBLISHED {number}\n")?;
        reply(alloc, Status::Created, Allow::Unsaid, text.as_bytes())
    }
}

impl Front for Clerk {
    ghost reply = { λ _ _ _ _ _. ⊤ };

    fn view<R: Threads + Sync>(
        &self,
        _rt: &R,
        alloc: Global,
        method: &Method,
        path: &str,
        _body: &[u8],
    ) -> Result<Reply, NoMemory> {
        match path {
            "/editions" if method.as_str() == "GET" => {
                reply(alloc, Status::Okay, Allow::Unsaid, self.list.as_slice())
            }
            "/editions" => reply(alloc, Status::MethodNotAllowed, Allow::Get, b"METHOD\n"),
            "/batch" => reply(alloc, Status::MethodNotAllowed, Allow::Post, b"METHOD\n"),
            _ => reply(alloc, Status::NotFound, Allow::Unsaid, b"NO ROUTE\n"),
        }
    }
}

impl Handler for Clerk {
    ghost step = { λ _ _ _ _ _ _. ⊤ };

    fn answer<R: Threads + Sync>(
        &mut self,
        _rt: &R,
        alloc: Global,
        _method: &Method,
        _path: &str,
        body: &[u8],
    ) -> Result<Reply, NoMemory> {
        self.publish(alloc, body)
    }
}

impl RoundHandler for Clerk {
    ghost reply = { λ _ _ _ _ _. ⊤ };

    fn view<R: Threads + Sync>(&self, rt: &R, alloc: Global, round: &mut Round) {
        round.view_all(rt, alloc, self)
    }

    ghost shows = { λ _ _ _ _ _ _ _. tt };
}

fn clerk_with(alloc: Global, list: &[u8]) -> Result<Clerk, Fail> {
    let mut held = Bytes::new(alloc);
    held.extend(list)?;
    Ok(Clerk { list: held })
}

fn door_of(alloc: Global, connections: &[&[u8]]) -> Result<MemDoor, Fail>
    ensures { IfOk result (λ door. door.held ≡ []) }
{
    failing_door(alloc, connections, Vec::new(alloc))
}

/// A door to which these connections come, whose calls of these numbers fail.
fn failing_door(alloc: Global, connections: &[&[u8]], fail: Vec<u32>) -> Result<MemDoor, Fail>
    ensures { IfOk result (λ door. door.held ≡ []) }
{
    let mut waiting = Bodies::new(alloc);
    for connection in connections {
        waiting.push(*connection)?;
    }
    Ok(MemDoor::new(alloc, waiting, 4096, fail)?)
}

/// Serves a round at a door that holds no connection.
fn serve<R: Threads + Sync, H: RoundHandler>(
    rt: &R,
    alloc: Global,
    door: &mut MemDoor,
    clerk: &mut H,
    most: u32,
) -> (DoorEnd, Counts)
    requires some { 1 ≤ most }
    requires few { most ≤ 8 }
    requires none_held { door.old.held ≡ [] }
    ensures { door.new.held ≡ [] }
{
    serve_round(rt, alloc, door, clerk, most)
}

/// How a round ends, and the door behind it.
#[derive(Drop)]
struct Outcome {
    end: DoorEnd,
    counts: Counts,
    door: MemDoor,
}

impl Outcome {
    fn counts_are(&self, served: u32, cut: u32) -> bool {
        self.counts.served == served && self.counts.cut == cut
    }

    /// Whether these answers were sent, each on the connection at its place.
    fn sent(&self, answers: &[&[u8]]) -> bool {
        for (i, answer) in answers.iter().enumerate() {
            if !was_sent(&self.door, i, answer) {
                return false;
            }
        }
        true
    }
}

/// Serves one round of these connections, by a clerk who holds this list.
fn served<R: AllocGlobal + Threads + Sync>(
    rt: &R,
    list: &[u8],
    connections: &[&[u8]],
    most: u32,
) -> Result<Outcome, Fail>
    requires some { 1 ≤ most }
    requires few { most ≤ 8 }
{
    let mut clerk = clerk_with(rt.alloc(), list)?;
    let mut door = door_of(rt.alloc(), connections)?;
    let (end, counts) = serve(rt, rt.alloc(), &mut door, &mut clerk, most);
    Ok(Outcome { end, counts, door })
}

/// Serves two rounds of these connections, by a clerk whose list is empty.
fn served_twice<R: AllocGlobal + Threads + Sync>(
    rt: &R,
    connections: &[&[u8]],
    most: u32,
) -> Result<((DoorEnd, Counts), Outcome), Fail>
    requires some { 1 ≤ most }
    requires few { most ≤ 8 }
{
    let mut clerk = clerk_with(rt.alloc(), b"")?;
    let mut door = door_of(rt.alloc(), connections)?;
    let first = serve(rt, rt.alloc(), &mut door, &mut clerk, most);
    let (end, counts) = serve(rt, rt.alloc(), &mut door, &mut clerk, most);
    Ok((first, Outcome { end, counts, door }))
}

fn was_sent(door: &MemDoor, i: usize, bytes: &[u8]) -> bool {
    match door.sent_to(i) {
        Some(sent) => sent == bytes,
        None => false,
    }
}
