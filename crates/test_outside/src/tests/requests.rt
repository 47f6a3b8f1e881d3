ghost use Rattle.std.specs.Prelude.{◌≡◌, ◌≤◌, None, [], false, vec_len, ⊤};

use fare_http::*;
use fare_ports::{Bytes, Door, Failed, NoMemory};
use http::Method;
use std::alloc::Global;
use std::test::Fail;
use std::thread::Threads;

/// A door with one connection, whose bytes come in pieces of at most three; it tells nothing of
/// them.
#[derive(Drop)]
struct PiecesDoor {
    port: Option<u16>,
    bytes: Vec<u8>,
    read: usize,
    sent: Vec<u8>,
    ghost in_range: { read ≤ vec_len bytes },
}

impl Door for PiecesDoor {
    ghost waiting = { λ _. None };

    ghost left = { λ _. None };

    ghost sent = { λ _. None };

    ghost held = { λ _. [] };

    ghost current = { λ _. None };

    ghost listens_at = { λ door. door.port };

    ghost faults = { λ _. 0 };

    ghost cuts = { λ _. 0 };

    fn listen(&mut self, port: u16) -> Result<(), Failed> {
        self.port = Some(port);
        Ok(())
    }

    fn next(&mut self) -> Result<bool, Failed> {
        Ok(false)
    }

    fn read(&mut self, buf: &mut [u8]) -> Result<usize, Failed> {
        let left = self.bytes.len() - self.read;
        let count = left.min(buf.len()).min(3);
        buf[..count].copy_from_slice(&self.bytes[self.read..self.read + count]);
        self.read += count;
        Ok(count)
    }

    fn write(&mut self, buf: &[u8]) -> Result<usize, Failed> {
        let _ = self.sent.extend_from_slice(buf);
        Ok(buf.len())
    }

    fn close(&mut self) {}

    fn more(&mut self) -> bool {
        false
    }

    fn hold(&mut self) -> bool
        ensures { result ≡ false }
    {
        false
    }

    fn resume(&mut self) -> bool {
        false
    }
}

fn door_with(alloc: Global, bytes: &[u8]) -> Result<PiecesDoor, Fail> {
    Ok(PiecesDoor {
        port: None,
        bytes: Vec::from_slice(alloc, bytes)?,
        read: 0,
        sent: Vec::new(alloc),
    })
}

fn taken(alloc: Global, bytes: &[u8]) -> Result<Taken, Fail> {
    let mut door = door_with(alloc, bytes)?;
    Ok(read_request(alloc, &mut door))
}

/// The answer to a request that no handler sees; nothing where there is none.
fn fixed_text(alloc: Global, bytes: &[u8]) -> Result<Vec<u8>, Fail> {
    match taken(alloc, bytes)? {
        Taken::Fixed(reply) => Ok(Vec::from_slice(alloc, reply.body.as_slice())?),
        Taken::Whole(_) | Taken::NoMemory | Taken::Cut => Ok(Vec::new(alloc)),
    }
}

fn whole_request(alloc: Global, bytes: &[u8]) -> Result<Request, Fail> {
    match taken(alloc, bytes)? {
        Taken::Whole(request) => Ok(request),
        Taken::Fixed(_) | Taken::NoMemory | Taken::Cut => Err("a whole request")?,
    }
}

#[test]
fn a_request_is_read_in_pieces(rt: HostRuntime) -> Result<(), Fail> {
    let bytes = b"POST /quote?now HTTP/1.1\r\nHost: a\r\ncontent-length: 05\r\n\r\nabcdefg";
    let request = whole_request(rt.alloc(), bytes)?;
    assert!(rt; request.method.as_str() == "POST");
    assert!(rt; request.path.as_str() == "/quote");
    assert!(rt; request.body.as_slice() == b"abcde".as_slice());
    Ok(())
}

/// Requests that no handler sees, and what the first failing step answers.
static FIXED: [(&[u8], &[u8]); 4] = [
    (b"GET /\x01 HTTP/1.1\r\n\r\n", b"BAD HEAD\n"),
    (
        b"GET / HTTP/1.1\r\nTRANSFER-encoding: x\r\nContent-Length: y\r\n\r\n",
        b"CODED BODY\n",
    ),
    (
        b"GET / HTTP/1.1\r\nContent-Length: 1\r\nContent-Length: 1\r\n\r\na",
        b"BAD LENGTH\n",
    ),
    (
        b"GET / HTTP/1.1\r\nContent-Length: 16777217\r\n\r\n",
        b"LIMIT\n",
    ),
];

#[test]
fn the_first_failing_step_answers(rt: HostRuntime) -> Result<(), Fail> {
    for (request, answer) in &FIXED {
        let found = fixed_text(rt.alloc(), request)?;
        assert!(rt; found.as_slice() == *answer);
    }
    Ok(())
}

fn refusal(alloc: Global) -> Result<Reply, Fail> {
    let mut body = Bytes::new(alloc);
    body.extend(b"[405]\n")?;
    Ok(Reply {
        status: Status::MethodNotAllowed,
        form: Form::Json,
        allow: Allow::Post,
        body,
    })
}

#[test]
fn a_reply_is_sent(rt: HostRuntime) -> Result<(), Fail> {
    let mut door = door_with(rt.alloc(), b"")?;
    let reply = refusal(rt.alloc())?;
    assert!(rt; send(&mut door, Some(&reply)) == Exchange::Served);
    let answer: &[u8] =
        b"HTTP/1.1 405 Method Not Allowed\r\nContent-Type: application/json\r\nContent-Length: 6\r\n\
Allow: POST\r\nConnection: close\r\n\r\n[405]\n";
    assert!(rt; door.sent.as_slice() == answer);
    Ok(())
}

/// A handler that answers with the body of the request, and counts.
#[derive(Drop)]
struct Echo {
    asked: u64,
}

impl Handler for Echo {
    ghost step = { λ _ _ _ _ _ _. ⊤ };

    fn answer<R: Threads + Sync>(
        &mut self,
        _rt: &R,
        alloc: Global,
        _method: &Method,
        _path: &str,
        body: &[u8],
    ) -> Result<Reply, NoMemory> {
        self.asked = self.asked.wrapping_add(1);
        let mut text = Bytes::new(alloc);
        text.extend(body)?;
        Ok(Reply {
            status: Status::Okay,
            form: Form::Text,
            allow: Allow::Unsaid,
            body: text,
        })
    }
}

/// How the exchange over a connection with these bytes ends, and what is sent.
fn exchanged<R: AllocGlobal + Threads + Sync>(
    rt: &R,
    bytes: &[u8],
    handler: &mut Echo,
) -> Result<(Exchange, Vec<u8>), Fail> {
    let mut door = door_with(rt.alloc(), bytes)?;
    let ending = exchange(rt, rt.alloc(), &mut door, handler);
    Ok((ending, door.sent))
}

#[test]
fn a_whole_request_reaches_the_handler(rt: HostRuntime) -> Result<(), Fail> {
    let mut handler = Echo { asked: 0 };
    let whole = b"PUT / HTTP/1.0\nContent-Length: 2\n\nabc";
    let (ending, sent) = exchanged(&rt, whole, &mut handler)?;
    assert!(rt; ending == Exchange::Served);
    let answer: &[u8] = b"HTTP/1.1 200 OK\r\nContent-Type: text/plain\r\nContent-Length: 2\r\n\
Connection: close\r\n\r\nab";
    assert!(rt; sent.as_slice() == answer);
    assert!(rt; handler.asked == 1);
    Ok(())
}

#[test]
fn no_other_request_reaches_the_handler(rt: HostRuntime) -> Result<(), Fail> {
    let mut handler = Echo { asked: 0 };
    let early = b"PUT / HTTP/1.0\nContent-Length: 3\n\nab";
    let (ending, sent) = exchanged(&rt, early, &mut handler)?;
    assert!(rt; ending == Exchange::Cut && sent.is_empty());
    let bad = b"PUT / HTTP/1.0\nContent-Length: x\n\n";
    let (ending, _sent) = exchanged(&rt, bad, &mut handler)?;
    assert!(rt; ending == Exchange::Served);
    assert!(rt; handler.asked == 0);
    Ok(())
}
