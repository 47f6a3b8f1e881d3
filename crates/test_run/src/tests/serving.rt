//! `serve` over a keeper and a door in memory.

ghost use Rattle.std.specs.Prelude.{◌≡◌, [], IfOk};

use super::cases::Served;
use super::cases::rounds::{APART, TOGETHER};
use super::cases::serving::{DOORS, ROUNDS, STORES};
use super::stores::failing;
use super::{Outside, ended_at};
use fare_outside::{MemDoor, PlainSink, PlainSource};
use fare_ports::Bodies;
use fare_split::Turnstile;
use std::alloc::Global;
use std::process::Abort;
use std::test::Fail;
use std::thread::Threads;

/// A door of connections, with calls that fail.
fn door_of(alloc: Global, connections: &[&[u8]], fail: &[u32]) -> Result<MemDoor, Fail>
    ensures { IfOk result (λ door. door.held ≡ []) }
{
    let mut waiting = Bodies::new(alloc);
    for connection in connections {
        waiting.push(*connection)?;
    }
    Ok(MemDoor::new(alloc, waiting, 4096, fail.to_vec(alloc)?)?)
}

/// Compares what is sent on each connection, and how many were taken.
fn was_sent<R: Abort>(rt: &R, door: &MemDoor, case: &Served) {
    for (i, bytes) in case.sent.iter().enumerate() {
        assert!(rt; door.sent_to(i) == Some(*bytes));
    }
    assert!(rt; door.sent_to(case.sent.len()) == None);
}

/// Serves connections, and compares all that comes of them.
fn serves<R: Threads + Sync + Abort>(rt: &R, alloc: Global, case: &Served) -> Result<(), Fail> {
    let mut bodies = Bodies::new(alloc);
    for body in case.bodies {
        bodies.push(body.as_bytes())?;
    }
    let mut source = PlainSource::new(Vec::new(alloc));
    let mut sink = PlainSink::new(alloc, 64)?;
    let mut store = failing(alloc, bodies, case.store)?;
    let mut door = door_of(alloc, case.connections, case.door)?;
    let gate = Turnstile::new();
    let outside = Outside {
        source: &mut source,
        sink: &mut sink,
        store: &mut store,
        gate: &gate,
    };
    let exit = ended_at(rt, alloc, case.words, outside, &mut door)?;
    assert!(rt; exit.status() == case.status);
    assert!(rt; sink.bytes() == case.text.as_bytes());
    was_sent(rt, &door, case);
    assert!(rt; store.kept().len() == case.left.len());
    for (i, body) in case.left.iter().enumerate() {
        assert!(rt; store.kept().get(i) == Some(body.as_bytes()));
    }
    Ok(())
}

/// Serves each case of a table.
fn serves_all<R: Threads + Sync + Abort>(
    rt: &R,
    alloc: Global,
    cases: &[Served],
) -> Result<(), Fail> {
    for case in cases {
        serves(rt, alloc, case)?;
    }
    Ok(())
}

#[test]
fn rounds_are_served(rt: HostRuntime) -> Result<(), Fail> {
    serves_all(&rt, rt.alloc(), ROUNDS.as_slice())
}

#[test]
fn a_failing_store_is_answered(rt: HostRuntime) -> Result<(), Fail> {
    serves_all(&rt, rt.alloc(), STORES.as_slice())
}

#[test]
fn each_failing_call_of_the_door_has_its_end(rt: HostRuntime) -> Result<(), Fail> {
    serves_all(&rt, rt.alloc(), DOORS.as_slice())
}

#[test]
fn odd_heads_are_answered_together(rt: HostRuntime) -> Result<(), Fail> {
    serves_all(&rt, rt.alloc(), TOGETHER.as_slice())
}

#[test]
fn publications_are_answered_apart(rt: HostRuntime) -> Result<(), Fail> {
    serves_all(&rt, rt.alloc(), APART.as_slice())
}
