ghost use Rattle.std.specs.Prelude.{◌≤◌, ◌<◌, length, IfOk, IfSome};

use crate::TcpLimits;
use crate::tcp_ahead::TcpAhead;
use std::alloc::Global;
use std::io;
use std::io::{ErrorKind, Read, Write};
use std::net::{Shutdown, TcpStream};
use std::os::fd::{AsRawFd, RawFd};
use std::time::{Duration, Instant};

/// How often a call is tried again that a signal broke off.
const MOST_TRIES: usize = 1_000;

/// How many pieces are read away, at most, of what a peer still sends after its answer.
const MOST_PIECES: usize = 256;

/// The size of such a piece in bytes.
const PIECE: usize = 4_096;

/// The size in bytes of a piece that is read ahead.
const PIECE_AHEAD: usize = 16_384;

/// The other end of a connection, which is gone once it was cut off.
#[derive(Drop)]
pub struct TcpPeer {
    line: Option<Line>,
    /// For how long it has kept the door waiting.
    waited: Duration,
    /// For how long of it nothing came, while it is read ahead.
    silent: Duration,
}

/// A connection that stands, and what was read ahead of it.
#[derive(Drop)]
struct Line {
    stream: TcpStream,
    ahead: TcpAhead,
}

impl Default for TcpPeer {
    /// One that is gone.
    fn default() -> TcpPeer {
        TcpPeer {
            line: None,
            waited: Duration::ZERO,
            silent: Duration::ZERO,
        }
    }
}

impl TcpPeer {
    /// A peer that hasn't kept the door waiting yet, and is read ahead without waiting.
    pub fn new(alloc: Global, stream: TcpStream) -> TcpPeer {
        let mut peer = TcpPeer::default();
        if stream.set_nonblocking(true).is_ok() {
            let ahead = TcpAhead::new(alloc);
            peer.line = Some(Line { stream, ahead });
        }
        peer
    }

    /// The system's number of its socket, or -1 where it is gone.
    pub fn socket(&self) -> RawFd {
        match &self.line {
            Some(line) => line.stream.as_raw_fd(),
            None => -1,
        }
    }

    /// How many bytes are kept that were read ahead.
    pub fn kept(&self) -> usize {
        match &self.line {
            Some(line) => line.ahead.len(),
            None => 0,
        }
    }

    /// How much longer it may be silent.
    pub fn patience(&self, limits: &TcpLimits) -> Duration {
        let silence = limits.silence.saturating_sub(self.silent);
        silence.min(limits.exchange.saturating_sub(self.waited))
    }

    /// Whether the door needn't wait for it any longer: enough came, or it is late, or gone.
    pub fn is_ready(&self, limits: &TcpLimits) -> bool {
        match &self.line {
            Some(line) => line.ahead.is_enough() || self.patience(limits).is_zero(),
            None => true,
        }
    }

    /// It has kept the door waiting for so long, and nothing came.
    pub fn wait(&mut self, time: Duration) {
        self.waited = self.waited.saturating_add(time);
        self.silent = self.silent.saturating_add(time);
    }

    /// Reads on without waiting, unless enough came. What comes beyond so many bytes of room is the last that is read
    /// ahead.
    pub fn read_ahead(&mut self, room: usize) {
        let Some(line) = &mut self.line else {
            return;
        };
        if line.ahead.is_enough() {
            return;
        }
        match line.read_ahead(room) {
            Ok(()) => self.silent = Duration::ZERO,
            Err(error) if is_not_yet(error.kind()) => {}
            Err(_) => self.line = None,
        }
    }

    /// The door turns to it, so that its reads and writes wait from now on. One of which not enough came is cut off.
    pub fn begin(&mut self) {
        let stands = match &self.line {
            Some(line) => line.ahead.is_enough() && line.stream.set_nonblocking(false).is_ok(),
            None => false,
        };
        if !stands {
            self.line = None;
        }
    }

    /// Reads what comes next, and says how many bytes; none says that the peer was cut off.
    pub fn read(&mut self, rt: &HostRuntime, limits: &TcpLimits, buf: &mut [u8]) -> Option<usize>
        ensures { IfSome result (λ count. count ≤ length buf.new) }
    {
        for _ in 0..MOST_TRIES {
            match self.read_once(rt, limits, buf) {
                Ok(count) => return Some(count),
                Err(error) if error.kind() == ErrorKind::Interrupted => {}
                Err(_) => break,
            }
        }
        self.line = None;
        None
    }

    /// Writes, and says how many bytes were taken; none says that the peer was cut off.
    pub fn write(&mut self, rt: &HostRuntime, limits: &TcpLimits, buf: &[u8]) -> Option<usize>
        ensures within { IfSome result (λ count. count ≤ length buf.now) }
        ensures progress { IfSome result (λ count. 0 < length buf.now → 0 < count) }
    {
        if buf.is_empty() {
            return Some(0);
        }
        for _ in 0..MOST_TRIES {
            match self.write_once(rt, limits, buf) {
                Ok(count) if count > 0 => return Some(count),
                Err(error) if error.kind() == ErrorKind::Interrupted => {}
                Ok(_) | Err(_) => break,
            }
        }
        self.line = None;
        None
    }

    /// Ends the connection so that the peer gets all that was sent: bytes of the peer that nobody
    /// reads would make the system break it off.
    pub fn end(self, rt: &HostRuntime, limits: &TcpLimits) {
        let TcpPeer {
            line,
            waited: _,
            silent: _,
        } = self;
        if let Some(line) = line {
            let _ = read_away(rt, limits.end, &line.stream);
        }
    }
}

impl TcpPeer {
    /// What was read ahead comes first.
    fn read_once(
        &mut self,
        rt: &HostRuntime,
        limits: &TcpLimits,
        buf: &mut [u8],
    ) -> io::Result<usize>
        ensures { IfOk result (λ count. count ≤ length buf.new) }
    {
        let Some(line) = &mut self.line else {
            return Err(io::Error::from(ErrorKind::NotConnected));
        };
        let given = line.ahead.give(buf);
        if given > 0 {
            return Ok(given);
        }
        line.stream
            .set_read_timeout(Some(allowed(limits, self.waited)))?;
        let begun = Instant::now(rt)?;
        let count = line.stream.read(buf);
        self.waited = self.waited.saturating_add(begun.elapsed(rt)?);
        count
    }

    fn write_once(&mut self, rt: &HostRuntime, limits: &TcpLimits, buf: &[u8]) -> io::Result<usize>
        ensures { IfOk result (λ count. count ≤ length buf.now) }
    {
        let Some(line) = &mut self.line else {
            return Err(io::Error::from(ErrorKind::NotConnected));
        };
        line.stream
            .set_write_timeout(Some(allowed(limits, self.waited)))?;
        let begun = Instant::now(rt)?;
        let count = line.stream.write(buf);
        self.waited = self.waited.saturating_add(begun.elapsed(rt)?);
        count
    }
}

impl Line {
    /// Keeps what came, at most a piece. At the peer's end, and where memory is wanting or the room is used up, nothing
    /// more is read ahead.
    fn read_ahead(&mut self, room: usize) -> io::Result<()> {
        if self.ahead.reserve(PIECE_AHEAD).is_err() {
            self.ahead.stop();
            return Ok(());
        }
        let mut piece = [0; PIECE_AHEAD];
        let count = self.stream.read(&mut piece)?;
        self.ahead.keep(&piece[..count])?;
        if count == 0 || room < count {
            self.ahead.stop();
        }
        Ok(())
    }
}

/// Nothing came yet, or a signal broke the call off.
fn is_not_yet(kind: ErrorKind) -> bool {
    matches!(kind, ErrorKind::WouldBlock | ErrorKind::Interrupted)
}

/// How long a call may wait after so long a wait: not at all, which the system refuses, where the
/// exchange has used up its time.
fn allowed(limits: &TcpLimits, waited: Duration) -> Duration {
    limits.silence.min(limits.exchange.saturating_sub(waited))
}

/// Tells the peer that nothing more comes, and reads away what it sends until its end, but no longer
/// than the limit, and at most so many pieces.
fn read_away(rt: &HostRuntime, limit: Duration, stream: &TcpStream) -> io::Result<()> {
    stream.shutdown(Shutdown::Write)?;
    let begun = Instant::now(rt)?;
    let mut piece = [0; PIECE];
    for _ in 0..MOST_PIECES {
        let left = limit.saturating_sub(begun.elapsed(rt)?);
        stream.set_read_timeout(Some(left))?;
        let mut reader = stream;
        if reader.read(&mut piece)? == 0 {
            break;
        }
    }
    Ok(())
}
