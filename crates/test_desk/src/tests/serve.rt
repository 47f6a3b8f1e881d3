//! What is sent on each connection that a counter is asked through, over a store and a door in memory.

ghost use Rattle.std.specs.Prelude.{◌≡◌, [], IfOk};

mod computed;
mod further;
mod store_faults;
mod worked;

use computed::COMPUTED;
use fare_book::Book;
use fare_outside::{MemDoor, MemKeeper};
use fare_ports::{Bodies, Keeper};
use fare_serve::{Service, serve};
use fare_split::Turnstile;
use further::{FURTHER, IN_JSON};
use std::alloc::Global;
use std::process::Abort;
use std::test::Fail;
use std::thread::Threads;
use worked::WORKED;

/// Connections over a store of these bodies, taken in rounds of at most so many, with what is sent on each.
#[derive(Clone, Copy)]
pub struct Served {
    pub bodies: &'static [&'static str],
    pub round: u32,
    pub connections: &'static [&'static [u8]],
    pub sent: &'static [&'static [u8]],
}

/// A door of these connections.
fn door_of(alloc: Global, connections: &[&[u8]]) -> Result<MemDoor, Fail>
    ensures { IfOk result (λ door. door.held ≡ []) }
{
    let mut waiting = Bodies::new(alloc);
    for connection in connections {
        waiting.push(*connection)?;
    }
    Ok(MemDoor::new(alloc, waiting, 4096, Vec::new(alloc))?)
}

/// Serves all connections of a door over a store of these bodies.
fn serve_all<R: Threads + Sync>(
    rt: &R,
    alloc: Global,
    bodies: &[&str],
    round: u32,
    door: &mut MemDoor,
) -> Result<Vec<u8>, Fail>
    requires { door.old.held ≡ [] }
{
    if round < 1 || round > 8 {
        return Err(Fail::from("no round"));
    }
    let mut stored = Bodies::new(alloc);
    for body in bodies {
        stored.push(body.as_bytes())?;
    }
    let mut keeper = MemKeeper::new(stored, Vec::new(alloc));
    keeper.open(alloc, "editions")?;
    let book = Book::restore(rt, alloc, &mut keeper)?;
    let gate = Turnstile::new();
    let service = Service {
        port: 80,
        count: 8,
        round,
        workers: 1,
        gate: &gate,
    };
    Ok(serve(rt, alloc, book, &mut keeper, door, &service)?)
}

/// Compares what is sent on each connection of a case.
fn sends<R: Threads + Sync + Abort>(rt: &R, alloc: Global, case: &Served) -> Result<(), Fail> {
    let mut door = door_of(alloc, case.connections)?;
    serve_all(rt, alloc, case.bodies, case.round, &mut door)?;
    for (i, bytes) in case.sent.iter().enumerate() {
        assert!(rt; door.sent_to(i) == Some(*bytes));
    }
    assert!(rt; door.sent_to(case.sent.len()) == None);
    Ok(())
}

#[test]
fn worked_rows_are_sent(rt: HostRuntime) -> Result<(), Fail> {
    for case in &WORKED {
        sends(&rt, rt.alloc(), case)?;
    }
    Ok(())
}

#[test]
fn computed_answers_are_sent(rt: HostRuntime) -> Result<(), Fail> {
    for case in &COMPUTED {
        sends(&rt, rt.alloc(), case)?;
    }
    Ok(())
}

#[test]
fn answers_in_json_are_sent(rt: HostRuntime) -> Result<(), Fail> {
    for case in &IN_JSON {
        sends(&rt, rt.alloc(), case)?;
    }
    Ok(())
}

#[test]
fn checks_differences_and_reasons_are_sent(rt: HostRuntime) -> Result<(), Fail> {
    for case in &FURTHER {
        sends(&rt, rt.alloc(), case)?;
    }
    Ok(())
}
