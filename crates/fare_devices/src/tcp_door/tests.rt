use super::*;
use std::io::{Read, Write};
use std::net::{Ipv4Addr, Shutdown, SocketAddr, TcpStream};
use std::test::Fail;
use std::thread;
use std::time::{Duration, Instant};

/// A door on a free port, and where it listens.
fn open(rt: &HostRuntime, limits: TcpLimits) -> Result<(TcpDoor, SocketAddr), Fail> {
    let mut door = TcpDoor::with_limits(rt, limits);
    door.listen(0)?;
    match door.arrivals.listener() {
        Some(listener) => {
            let address = listener.local_addr()?;
            Ok((door, address))
        }
        None => Err(Fail::new("no listener")),
    }
}

/// A door on a free port, and the port.
pub fn listening(rt: &HostRuntime, limits: TcpLimits) -> Result<(TcpDoor, u16), Fail> {
    let (door, address) = open(rt, limits)?;
    Ok((door, address.port()))
}

pub fn dialed(rt: &HostRuntime, port: u16) -> Result<TcpStream, Fail> {
    Ok(TcpStream::connect(rt, (Ipv4Addr::LOCALHOST, port))?)
}

/// One that has sent all that it has.
fn asking(rt: &HostRuntime, port: u16, bytes: &[u8]) -> Result<TcpStream, Fail> {
    let mut peer = dialed(rt, port)?;
    peer.write_all(bytes)?;
    peer.shutdown(Shutdown::Write)?;
    Ok(peer)
}

/// Whether a peer gets just these bytes, and then the end.
fn gets(peer: &mut TcpStream, bytes: &[u8]) -> Result<bool, Fail> {
    let mut buf = [0; 16];
    let count = peer.read(&mut buf)?;
    Ok(&buf[..count] == bytes && peer.read(&mut [0; 1])? == 0)
}

/// Whether the current connection brings just these bytes next.
fn begins(door: &mut TcpDoor, bytes: &[u8]) -> Result<bool, Fail> {
    let mut buf = [0; 32];
    let count = door.read(&mut buf)?;
    Ok(&buf[..count] == bytes)
}

/// Whether the current connection brings just these bytes, and then the end.
fn brings(door: &mut TcpDoor, bytes: &[u8]) -> Result<bool, Fail> {
    Ok(begins(door, bytes)? && door.read(&mut [0; 1])? == 0)
}

/// Whether a connection is found within a second: the system may need a moment to tell of it.
fn finds(rt: &HostRuntime, door: &mut TcpDoor) -> bool {
    for _ in 0..100 {
        if door.arrivals.gather(rt).is_ok() && door.more() {
            return true;
        }
        thread::sleep(rt, Duration::from_millis(10));
    }
    false
}

fn taken_and_held(door: &mut TcpDoor) -> bool {
    match door.next() {
        Ok(true) => door.hold(),
        Ok(false) | Err(Failed) => false,
    }
}

pub fn taken(door: &mut TcpDoor) -> bool {
    door.next() == Ok(true)
}

fn is_cut(door: &mut TcpDoor) -> bool {
    door.read(&mut [0; 4]).is_err()
}

/// Limits of some milliseconds.
fn limits(silence: u64, exchange: u64) -> TcpLimits {
    TcpLimits {
        silence: Duration::from_millis(silence),
        exchange: Duration::from_millis(exchange),
        end: Duration::from_millis(100),
    }
}

/// Takes two peers, the second as soon as it is found, and holds both.
fn holds_two(rt: &HostRuntime, door: &mut TcpDoor) -> bool {
    taken_and_held(door) && finds(rt, door) && taken_and_held(door) && !door.more()
}

/// Whether the next held connection brings just these bytes, and takes an answer.
fn answers(door: &mut TcpDoor, bytes: &[u8], answer: &[u8]) -> Result<bool, Fail> {
    Ok(door.resume() && brings(door, bytes)? && door.write(answer) == Ok(answer.len()))
}

#[test]
fn two_peers_are_answered_in_one_round(rt: HostRuntime) -> Result<(), Fail> {
    let (mut door, port) = listening(&rt, TcpLimits::default())?;
    let mut first = asking(&rt, port, b"one")?;
    let mut second = asking(&rt, port, b"two")?;
    assert!(rt; holds_two(&rt, &mut door));
    assert!(rt; answers(&mut door, b"one", b"first")?);
    assert!(rt; answers(&mut door, b"two", b"second")?);
    door.close();
    assert!(rt; gets(&mut first, b"first")? && gets(&mut second, b"second")?);
    Ok(())
}

#[test]
fn none_waits_at_a_new_door(rt: HostRuntime) -> Result<(), Fail> {
    let (mut door, _port) = listening(&rt, TcpLimits::default())?;
    assert!(rt; !door.more());
    Ok(())
}

/// Whether a door cuts off a peer that sends nothing.
fn cuts_silence(rt: &HostRuntime, limits: TcpLimits) -> Result<bool, Fail> {
    let (mut door, port) = listening(rt, limits)?;
    let _silent = dialed(rt, port)?;
    Ok(taken(&mut door) && is_cut(&mut door))
}

#[test]
fn a_silent_peer_is_cut_off(rt: HostRuntime) -> Result<(), Fail> {
    assert!(rt; cuts_silence(&rt, limits(100, 60_000))?);
    Ok(())
}

#[test]
fn nothing_is_written_after_the_time_of_an_exchange(rt: HostRuntime) -> Result<(), Fail> {
    let (mut door, port) = listening(&rt, limits(60_000, 100))?;
    let _slow = dialed(&rt, port)?;
    assert!(rt; taken(&mut door) && is_cut(&mut door));
    assert!(rt; door.write(b"late").is_err());
    Ok(())
}

/// Whether a peer that is ready is taken at once, and no other with it.
fn takes_the_ready(rt: &HostRuntime, door: &mut TcpDoor) -> Result<bool, Fail> {
    let begun = Instant::now(rt)?;
    let is_taken = taken(door);
    let is_soon = begun.elapsed(rt)? < Duration::from_secs(5);
    Ok(is_taken && is_soon && brings(door, b"ready")? && !door.more())
}

#[test]
fn a_silent_peer_stands_before_no_other(rt: HostRuntime) -> Result<(), Fail> {
    let (mut door, port) = listening(&rt, TcpLimits::default())?;
    let _silent = dialed(&rt, port)?;
    let mut slow = dialed(&rt, port)?;
    slow.write_all(b"GET /editions HTTP/1.1\r\n")?;
    let _ready = asking(&rt, port, b"ready")?;
    assert!(rt; takes_the_ready(&rt, &mut door)?);
    slow.write_all(b"\r\n")?;
    assert!(rt; finds(&rt, &mut door) && taken(&mut door));
    assert!(rt; begins(&mut door, b"GET /editions HTTP/1.1\r\n\r\n")?);
    Ok(())
}

#[test]
fn the_door_listens_at_loopback_alone(rt: HostRuntime) -> Result<(), Fail> {
    let (_door, address) = open(&rt, TcpLimits::default())?;
    assert!(rt; address.ip().is_loopback());
    Ok(())
}

/// Whether a peer that resets its connection is cut off: one that ends with bytes unread does.
fn cuts_a_reset(rt: &HostRuntime, door: &mut TcpDoor, port: u16) -> Result<bool, Fail> {
    let mut peer = dialed(rt, port)?;
    peer.write_all(b"GET / HTTP/1.1\r\n\r\n")?;
    let is_unread = taken(door) && door.write(b"unread") == Ok(6);
    let is_begun = is_unread && begins(door, b"GET / HTTP/1.1\r\n\r\n")?;
    drop(peer);
    Ok(is_begun && is_cut(door))
}

#[test]
fn a_peer_that_resets_is_cut_off_alone(rt: HostRuntime) -> Result<(), Fail> {
    let (mut door, port) = listening(&rt, TcpLimits::default())?;
    assert!(rt; cuts_a_reset(&rt, &mut door, port)?);
    door.close();
    let _next = asking(&rt, port, b"next")?;
    assert!(rt; taken(&mut door) && brings(&mut door, b"next")?);
    Ok(())
}

#[test]
fn unread_bytes_do_not_lose_the_answer(rt: HostRuntime) -> Result<(), Fail> {
    let (mut door, port) = listening(&rt, TcpLimits::default())?;
    // More than is read ahead, since no request begins so.
    let bytes = Vec::from_elem(rt.alloc(), b'?', 50_000)?;
    let mut peer = asking(&rt, port, &bytes)?;
    assert!(rt; taken(&mut door));
    assert_eq!(rt; door.write(b"refused"), Ok(7));
    door.close();
    assert!(rt; gets(&mut peer, b"refused")?);
    Ok(())
}
