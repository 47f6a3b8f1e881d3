use crate::TcpLimits;
use crate::tcp_peer::TcpPeer;
use arrayvec::ArrayVec;
use libc::net::{POLLIN, poll};
use libc::types::pollfd;
use std::io::ErrorKind;
use std::net::{Ipv4Addr, TcpListener};
use std::os::fd::AsRawFd;
use std::time::{Duration, Instant};
use std::{io, thread};

/// The most peers that are read side by side; further ones wait to be accepted.
pub const MOST_PENDING: usize = 64;

/// The most bytes that are kept of all their requests together, but for the piece of each that comes last. A peer that
/// sends more has to be waited for by itself.
pub const MOST_AHEAD: usize = 67_108_864;

/// The sockets that are polled: the peers', and the listener's.
const MOST_POLLED: usize = 65;

/// How often an accept is tried again that failed for the peer's sake.
const MOST_TRIES: usize = 1_000;

/// How often an accept is tried again for which no descriptor was left, and the pause before each.
const MOST_PAUSES: u32 = 600;

const PAUSE_MILLISECONDS: u64 = 100;

/// The system's error numbers for no descriptor that is left to a process, and to all of them.
const EMFILE: i32 = 24;

const ENFILE: i32 = 23;

/// A place of no socket, which the system passes over.
const NO_SOCKET: pollfd = pollfd {
    fd: -1,
    events: POLLIN,
    revents: 0,
};

/// The connections that come in at a port, and the peers that were accepted and are read side by side until the door
/// can turn to them.
#[derive(Drop)]
pub struct TcpArrivals {
    listener: Option<TcpListener>,
    pending: ArrayVec<TcpPeer, MOST_PENDING>,
}

impl TcpArrivals {
    /// No port yet.
    pub fn new() -> TcpArrivals {
        TcpArrivals {
            listener: None,
            pending: ArrayVec::new(),
        }
    }

    /// Lets connections in at a port of this machine's own address.
    pub fn listen(&mut self, rt: &HostRuntime, port: u16) -> io::Result<()> {
        let listener = TcpListener::bind(rt, (Ipv4Addr::LOCALHOST, port))?;
        listener.set_nonblocking(true)?;
        self.listener = Some(listener);
        Ok(())
    }

    /// Where the port is.
    #[cfg(test)]
    pub fn listener(&self) -> Option<&TcpListener> {
        self.listener.as_ref()
    }

    /// The first of the peers for which the door needn't wait any longer; waits until there is one.
    pub fn next(&mut self, rt: &HostRuntime, limits: &TcpLimits) -> io::Result<TcpPeer> {
        let mut pauses = 0;
        for _ in 0..u64::MAX {
            let accepted = self.gather(rt);
            if let Some(peer) = self.take_ready(limits) {
                return Ok(peer);
            }
            match accepted {
                Ok(()) => {
                    pauses = 0;
                    self.wait(rt, limits)?;
                }
                Err(error) if lacks_descriptor(&error) && pauses < MOST_PAUSES => {
                    pauses += 1;
                    self.pause(rt)?;
                }
                Err(error) => return Err(error),
            }
        }
        Err(io::Error::from(ErrorKind::TimedOut))
    }

    /// Whether what came last, when it was looked for, has a peer for which the door needn't wait. It doesn't look
    /// again: calls of the system take as long as a short answer, and what came since is for the next look.
    pub fn more(&self, limits: &TcpLimits) -> bool {
        self.first_ready(limits).is_some()
    }

    /// Takes what came, without waiting: connections, and the next bytes of each peer.
    pub fn gather(&mut self, rt: &HostRuntime) -> io::Result<()> {
        let accepted = self.accept_all(rt);
        let room = self.room();
        for peer in self.pending.as_mut_slice() {
            peer.read_ahead(room);
        }
        accepted
    }
}

impl TcpArrivals {
    /// Accepts the connections that wait, as many as may be pending.
    fn accept_all(&mut self, rt: &HostRuntime) -> io::Result<()> {
        let Some(listener) = &self.listener else {
            return Err(io::Error::from(ErrorKind::NotConnected));
        };
        for _ in 0..MOST_TRIES {
            if self.pending.is_full() {
                break;
            }
            match listener.accept() {
                Ok((stream, _)) => self.pending.push(TcpPeer::new(rt.alloc(), stream)),
                Err(error) if error.kind() == ErrorKind::WouldBlock => break,
                Err(error) if is_of_the_peer(error.kind()) => {}
                Err(error) => return Err(error),
            }
        }
        Ok(())
    }

    /// How many bytes more may be kept.
    fn room(&self) -> usize {
        let mut room = MOST_AHEAD;
        for peer in self.pending.as_slice() {
            room = room.saturating_sub(peer.kept());
        }
        room
    }

    /// The place of the first peer for which the door needn't wait.
    fn first_ready(&self, limits: &TcpLimits) -> Option<usize> {
        for (place, peer) in self.pending.as_slice().iter().enumerate() {
            if peer.is_ready(limits) {
                return Some(place);
            }
        }
        None
    }

    fn take_ready(&mut self, limits: &TcpLimits) -> Option<TcpPeer> {
        let place = self.first_ready(limits)?;
        let mut peer = self.pending.pop_at(place)?;
        peer.begin();
        Some(peer)
    }

    /// Waits until a connection or a byte comes, or a peer is late.
    fn wait(&mut self, rt: &HostRuntime, limits: &TcpLimits) -> io::Result<()> {
        let begun = Instant::now(rt)?;
        poll(&mut self.sockets(), milliseconds(self.patience(limits)));
        self.keep_waiting(begun.elapsed(rt)?);
        Ok(())
    }

    /// Waits a little for a descriptor.
    fn pause(&mut self, rt: &HostRuntime) -> io::Result<()> {
        let begun = Instant::now(rt)?;
        thread::sleep(rt, Duration::from_millis(PAUSE_MILLISECONDS));
        self.keep_waiting(begun.elapsed(rt)?);
        Ok(())
    }

    /// Each peer has kept the door waiting for so long.
    fn keep_waiting(&mut self, time: Duration) {
        for peer in self.pending.as_mut_slice() {
            peer.wait(time);
        }
    }

    /// How long the door may wait until a peer is late.
    fn patience(&self, limits: &TcpLimits) -> Duration {
        let mut patience = limits.exchange;
        for peer in self.pending.as_slice() {
            patience = patience.min(peer.patience(limits));
        }
        patience
    }

    /// The sockets that are waited for. The listener's isn't where no further peer may be pending.
    fn sockets(&self) -> [pollfd; MOST_POLLED] {
        let mut sockets = [NO_SOCKET; MOST_POLLED];
        for (socket, peer) in sockets.iter_mut().zip(self.pending.as_slice()) {
            socket.fd = peer.socket();
        }
        if let Some(listener) = &self.listener {
            if !self.pending.is_full() {
                sockets[MOST_PENDING].fd = listener.as_raw_fd();
            }
        }
        sockets
    }
}

/// The milliseconds of a wait, of which the last may be begun.
fn milliseconds(wait: Duration) -> i32 {
    i32::try_from(wait.as_millis()).map_or(i32::MAX, |whole| whole.saturating_add(1))
}

/// A peer gave up, or a signal broke the call off: the next connection may well be accepted.
fn is_of_the_peer(kind: ErrorKind) -> bool {
    matches!(
        kind,
        ErrorKind::ConnectionAborted | ErrorKind::ConnectionReset | ErrorKind::Interrupted
    )
}

/// No descriptor is left for a connection, until one is given back.
fn lacks_descriptor(error: &io::Error) -> bool {
    matches!(error.raw_os_error(), Some(EMFILE | ENFILE))
}

#[cfg(test)]
mod tests {
    use super::*;
    use std::test::Fail;

    #[test]
    fn a_lack_of_descriptors_is_told_from_other_failures(rt: HostRuntime) -> Result<(), Fail> {
        let lacks = |number: i32| lacks_descriptor(&io::Error::from_raw_os_error(number));
        assert!(rt; lacks(23) && lacks(24));
        assert!(rt; !lacks(11) && !lacks(103));
        Ok(())
    }
}
