//! What a publication is answered where the store fails, is damaged, or has no room.

ghost use Rattle.std.specs.Prelude.{Some, [], is_some};

use super::door_of;
use fare_book::Book;
use fare_outside::{FailAt, MemKeeper, PlainKeeper};
use fare_ports::{Bodies, FirstName, KeepFault, Keeper};
use fare_serve::{Service, serve};
use fare_split::Turnstile;
use std::alloc::Global;
use std::process::Abort;
use std::test::Fail;
use std::thread::Threads;

/// Publishes an edition without a record.
const PUBLISH: &[u8] =
    b"POST /editions HTTP/1.1\r\nContent-Length: 24\r\n\r\nHEAD,1,2,2025-02-01\nEND\n";

const FAILED: &[u8] = b"HTTP/1.1 503 Service Unavailable\r\nContent-Type: text/plain\r\n\
Content-Length: 13\r\nConnection: close\r\n\r\nKEEPER FAULT\n";

const DAMAGED: &[u8] = b"HTTP/1.1 500 Internal Server Error\r\nContent-Type: text/plain\r\n\
Content-Length: 21\r\nConnection: close\r\n\r\nDAMAGED 1 1 NoHeader\n";

const NO_MEMORY: &[u8] = b"HTTP/1.1 507 Insufficient Storage\r\nContent-Type: text/plain\r\n\
Content-Length: 10\r\nConnection: close\r\n\r\nNO MEMORY\n";

/// A keeper of nothing, which has no room for a body.
#[derive(Drop)]
struct FullKeeper {
    name: FirstName,
}

impl Keeper for FullKeeper {
    ghost bodies = { λ _. Some [] };

    ghost faults = { λ _. 0 };

    ghost ready = { λ keeper. is_some keeper.name };

    ghost opened_as = { λ keeper. keeper.name };

    fn open(&mut self, alloc: Global, name: &str) -> Result<(), KeepFault> {
        Ok(self.name.keep(alloc, name)?)
    }

    fn len(&mut self, _alloc: Global) -> Result<u64, KeepFault> {
        Ok(0)
    }

    fn load(&mut self, _alloc: Global, _place: u32) -> Result<Vec<u8>, KeepFault> {
        Err(KeepFault::Memory)
    }

    fn append(&mut self, _alloc: Global, _body: &[u8]) -> Result<(), KeepFault> {
        Err(KeepFault::Memory)
    }

    fn replace(&mut self, _alloc: Global, _place: u32, _body: &[u8]) -> Result<(), KeepFault> {
        Err(KeepFault::Memory)
    }
}

/// Compares what two publications are answered, one after the other, by a desk whose book has no edition yet.
fn publications_get<R: Threads + Sync + Abort, P: Keeper>(
    rt: &R,
    alloc: Global,
    keeper: &mut P,
    sent: [&[u8]; 2],
) -> Result<(), Fail> {
    let mut empty = PlainKeeper::new(Bodies::new(alloc));
    empty.open(alloc, "editions")?;
    let book = Book::restore(rt, alloc, &mut empty)?;
    keeper.open(alloc, "editions")?;
    let mut door = door_of(alloc, &[PUBLISH, PUBLISH])?;
    let gate = Turnstile::new();
    let service = Service {
        port: 80,
        count: 2,
        round: 1,
        workers: 1,
        gate: &gate,
    };
    serve(rt, alloc, book, keeper, &mut door, &service)?;
    assert!(rt; door.sent_to(0) == Some(sent[0]));
    assert!(rt; door.sent_to(1) == Some(sent[1]));
    Ok(())
}

#[test]
fn a_store_that_failed_is_read_anew_and_found_damaged(rt: HostRuntime) -> Result<(), Fail> {
    let alloc = rt.alloc();
    let mut bodies = Bodies::new(alloc);
    bodies.push(b"junk")?;
    let mut failing = Vec::new(alloc);
    failing.push(FailAt {
        call: 2,
        kept: false,
    })?;
    let mut keeper = MemKeeper::new(bodies, failing);
    publications_get(&rt, alloc, &mut keeper, [FAILED, DAMAGED])
}

#[test]
fn a_store_without_room_is_want_of_memory(rt: HostRuntime) -> Result<(), Fail> {
    let mut keeper = FullKeeper {
        name: FirstName::new(),
    };
    publications_get(&rt, rt.alloc(), &mut keeper, [NO_MEMORY, NO_MEMORY])
}
