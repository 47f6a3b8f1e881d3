//! Doors in memory.

use fare_outside::*;
use std::alloc::Global;
use std::test::Fail;

/// Whether a door brings no connection.
fn brings_none(door: &mut PlainDoor) -> bool {
    door.next() == Ok(false) && !door.more() && !door.resume()
}

/// Whether a door gives no byte, and takes all.
fn takes_all(door: &mut PlainDoor, bytes: &[u8]) -> bool {
    door.read(&mut [0; 4]) == Ok(0) && door.write(bytes) == Ok(bytes.len())
}

#[test]
fn a_plain_door_stays_shut(rt: HostRuntime) {
    let mut door = PlainDoor::new();
    assert!(rt; door.listen(80) == Ok(()));
    assert!(rt; brings_none(&mut door));
    assert!(rt; takes_all(&mut door, b"none reads it"));
    door.close();
}

/// A door to which two connections come, each with room for four bytes.
fn door_of_two(alloc: Global, fail: Vec<u32>) -> Result<MemDoor, Fail> {
    let mut waiting = Bodies::new(alloc);
    waiting.push(b"first")?;
    waiting.push(b"second")?;
    Ok(MemDoor::new(alloc, waiting, 4, fail)?)
}

fn listened(door: &mut MemDoor) -> bool {
    door.listen(80).is_ok()
}

fn taken(door: &mut MemDoor) -> Option<bool> {
    door.next().ok()
}

fn taken_and_held(door: &mut MemDoor) -> bool {
    match door.next() {
        Ok(true) => door.hold(),
        Ok(false) | Err(Failed) => false,
    }
}

/// Whether a read gives just these bytes.
fn gives(door: &mut MemDoor, bytes: &[u8]) -> bool {
    let mut buf = [0; 3];
    match door.read(&mut buf) {
        Ok(count) => &buf[..count] == bytes,
        Err(Failed) => false,
    }
}

/// How many of these bytes are taken.
fn put(door: &mut MemDoor, bytes: &[u8]) -> Option<usize> {
    door.write(bytes).ok()
}

fn was_sent(door: &MemDoor, i: usize, bytes: &[u8]) -> bool {
    match door.sent_to(i) {
        Some(sent) => sent == bytes,
        None => false,
    }
}

#[test]
fn a_listed_call_of_a_door_fails(rt: HostRuntime) -> Result<(), Fail> {
    let alloc = rt.alloc();
    // The calls: listen, listen, next, read, write, next and all after it.
    let mut fail = vec![in alloc; 1]?;
    fail.push(6)?;
    let mut door = door_of_two(alloc, fail)?;
    assert!(rt; !listened(&mut door));
    assert!(rt; listened(&mut door));
    assert!(rt; taken(&mut door) == Some(true));
    assert!(rt; gives(&mut door, b"fir"));
    assert!(rt; put(&mut door, b"to the first") == Some(4));
    assert!(rt; taken(&mut door).is_none());
    assert!(rt; was_sent(&door, 0, b"to t"));
    assert!(rt; door.sent_to(1).is_none());
    Ok(())
}

#[test]
fn a_full_room_takes_no_more(rt: HostRuntime) -> Result<(), Fail> {
    let mut door = door_of_two(rt.alloc(), Vec::new(rt.alloc()))?;
    assert!(rt; put(&mut door, b"none").is_none());
    assert!(rt; gives(&mut door, b""));
    assert!(rt; taken(&mut door) == Some(true));
    assert!(rt; put(&mut door, b"to the first") == Some(4));
    assert!(rt; put(&mut door, b"more").is_none());
    door.close();
    assert!(rt; door.more());
    assert!(rt; taken(&mut door) == Some(true));
    assert!(rt; taken(&mut door) == Some(false));
    assert!(rt; !door.more());
    Ok(())
}

#[test]
fn the_first_held_connection_is_resumed_first(rt: HostRuntime) -> Result<(), Fail> {
    let mut door = door_of_two(rt.alloc(), Vec::new(rt.alloc()))?;
    assert!(rt; taken_and_held(&mut door));
    assert!(rt; taken_and_held(&mut door));
    assert!(rt; door.resume());
    assert!(rt; put(&mut door, b"one") == Some(3));
    assert!(rt; door.resume());
    assert!(rt; put(&mut door, b"two") == Some(3));
    assert!(rt; !door.resume());
    assert!(rt; was_sent(&door, 0, b"one"));
    assert!(rt; was_sent(&door, 1, b"two"));
    Ok(())
}
