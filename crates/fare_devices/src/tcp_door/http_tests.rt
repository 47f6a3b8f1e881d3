ghost use Rattle.std.specs.Prelude.{⊤};

use super::tests::{dialed, listening, taken};
use super::*;
use fare_http::{Allow, Exchange, Form, Handler, Reply, Status, exchange, send};
use fare_ports::{Bytes, NoMemory};
use http::Method;
use std::alloc::Global;
use std::io::{Read, Write};
use std::net::TcpStream;
use std::test::Fail;
use std::thread;
use std::thread::Threads;
use std::time::Duration;

/// A piece of a slow peer, and how many of them it reads at most.
const SLOW_PIECE: usize = 32_768;

const MOST_SLOW_PIECES: usize = 100_000;

const LONG_ANSWER: usize = 4_194_304;

/// A handler that answers each request with the list of one edition.
#[derive(Drop)]
struct OneEdition;

impl Handler for OneEdition {
    ghost step = { λ _ _ _ _ _ _. ⊤ };

    fn answer<R: Threads + Sync>(
        &mut self,
        _rt: &R,
        alloc: Global,
        _method: &Method,
        _path: &str,
        _body: &[u8],
    ) -> Result<Reply, NoMemory> {
        let mut text = Bytes::new(alloc);
        text.extend(b"EDITION 7 2025-01-01 23\n")?;
        Ok(Reply {
            status: Status::Okay,
            form: Form::Text,
            allow: Allow::Unsaid,
            body: text,
        })
    }
}

#[test]
fn an_exchange_over_a_real_connection(rt: HostRuntime) -> Result<(), Fail> {
    let (mut door, port) = listening(&rt, TcpLimits::default())?;
    let mut peer = dialed(&rt, port)?;
    peer.write_all(b"GET /editions HTTP/1.1\r\nHost: localhost\r\n\r\n")?;
    assert!(rt; taken(&mut door));
    let ending = exchange(&rt, rt.alloc(), &mut door, &mut OneEdition);
    assert_eq!(rt; ending, Exchange::Served);
    let mut answer = Vec::new(rt.alloc());
    peer.read_to_end(&mut answer)?;
    let wanted: &[u8] = b"HTTP/1.1 200 OK\r\nContent-Type: text/plain\r\nContent-Length: 24\r\n\
Connection: close\r\n\r\nEDITION 7 2025-01-01 23\n";
    assert_eq!(rt; answer.as_slice(), wanted);
    Ok(())
}

/// How many bytes a peer gets until the end that takes its time for each piece.
fn read_slowly(rt: &HostRuntime, mut peer: TcpStream) -> usize {
    let mut piece = [0; SLOW_PIECE];
    let mut total: usize = 0;
    for _ in 0..MOST_SLOW_PIECES {
        thread::sleep(rt, Duration::from_millis(10));
        match peer.read(&mut piece) {
            Ok(count) if count > 0 => total = total.saturating_add(count),
            Ok(_) | Err(_) => break,
        }
    }
    total
}

#[test]
fn a_slow_peer_gets_a_long_answer_whole(rt: HostRuntime) -> Result<(), Fail> {
    let (mut door, port) = listening(&rt, TcpLimits::default())?;
    let mut peer = dialed(&rt, port)?;
    peer.write_all(b"GET / HTTP/1.1\r\n\r\n")?;
    assert!(rt; taken(&mut door));
    let answer = Reply {
        status: Status::Okay,
        form: Form::Text,
        allow: Allow::Unsaid,
        body: Bytes::from(Vec::from_elem(rt.alloc(), b'.', LONG_ANSWER)?),
    };
    let head = b"HTTP/1.1 200 OK\r\nContent-Type: text/plain\r\nContent-Length: 4194304\r\n\
Connection: close\r\n\r\n";
    let (count, ending) = thread::join(
        &rt,
        || read_slowly(&rt, peer),
        || send(&mut door, Some(&answer)),
    );
    assert_eq!(rt; ending, Exchange::Served);
    assert_eq!(rt; count, head.len() + LONG_ANSWER);
    Ok(())
}
