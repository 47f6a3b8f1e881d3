ghost use Rattle.std.specs.Prelude.{◌≡◌, ◌≤◌, IfOk, OnErr, None, false, Some};
ghost use Rattle.fare_ports.specs.Cause.{Rose};
ghost use Rattle.fare_devices.specs.OpenDoor.{places_of, place_of};

use crate::TcpLimits;
use crate::tcp_arrivals::TcpArrivals;
use crate::tcp_peer::TcpPeer;
use arrayvec::ArrayVec;
use fare_ports::{Door, Failed, MOST_HELD, raised};
use std::marker::Model;

/// A door over a port of this machine's own address, 127.0.0.1. It tells nothing of what is sent,
/// and counts each call that fails.
///
/// Connections are read side by side until a request is whole, so a peer that is silent or slow stands before no other.
#[derive(Drop)]
pub struct TcpDoor {
    runtime: HostRuntime,
    limits: TcpLimits,
    arrivals: TcpArrivals,
    current: Option<TcpPeer>,
    held: ArrayVec<TcpPeer, MOST_HELD>,
    port: Option<u16>,
    faults: u64,
    cuts: u64,
}

impl Model for TcpDoor {
    ghost use Rattle.std.specs.Prelude.{length, is_some};
    ghost use Rattle.fare_devices.specs.OpenDoor.{OpenDoor};

    ghost Value = { OpenDoor };

    ghost view = { λ d. record {
      held = length d.held.items;
      is_current = is_some d.current;
      port = d.port;
      faults = d.faults;
      cuts = d.cuts;
    } };
}

impl TcpDoor {
    /// A door that lets nobody in yet. A peer that sends or takes nothing for ten seconds, or keeps
    /// the door waiting for a minute in all, is cut off.
    pub fn new(rt: &HostRuntime) -> TcpDoor
        ensures { result ≡ record { held = 0; is_current = false; port = None; faults = 0; cuts = 0 } }
    {
        TcpDoor::with_limits(rt, TcpLimits::default())
    }

    /// The same with other limits.
    pub fn with_limits(rt: &HostRuntime, limits: TcpLimits) -> TcpDoor
        ensures { result ≡ record { held = 0; is_current = false; port = None; faults = 0; cuts = 0 } }
    {
        TcpDoor {
            runtime: *rt,
            limits,
            arrivals: TcpArrivals::new(),
            current: None,
            held: ArrayVec::new(),
            port: None,
            faults: 0,
            cuts: 0,
        }
    }
}

impl Door for TcpDoor {
    ghost waiting = { λ _. None };

    ghost left = { λ _. None };

    ghost sent = { λ _. None };

    ghost held = { places_of };

    ghost current = { place_of };

    ghost listens_at = { λ door. door.port };

    ghost faults = { λ door. door.faults };

    ghost cuts = { λ door. door.cuts };

    fn listen(&mut self, port: u16) -> Result<(), Failed> {
        match self.arrivals.listen(&self.runtime, port) {
            Ok(()) => {
                self.port = Some(port);
                Ok(())
            }
            Err(_) => {
                self.faults = raised(self.faults);
                Err(Failed)
            }
        }
    }

    /// Waits for a connection as long as it takes, so it never answers that none will come. The one that it takes has
    /// sent a whole request, or its end, or is late.
    fn next(&mut self) -> Result<bool, Failed> {
        self.close();
        match self.arrivals.next(&self.runtime, &self.limits) {
            Ok(arrived) => {
                self.current = Some(arrived);
                Ok(true)
            }
            Err(_) => {
                self.faults = raised(self.faults);
                Err(Failed)
            }
        }
    }

    /// Where none is current, a read gives nothing.
    fn read(&mut self, buf: &mut [u8]) -> Result<usize, Failed> {
        let Some(peer) = &mut self.current else {
            return Ok(0);
        };
        match peer.read(&self.runtime, &self.limits, buf) {
            Some(count) => Ok(count),
            None => {
                self.cuts = raised(self.cuts);
                Err(Failed)
            }
        }
    }

    /// Where none is current, a write is a counted failure.
    fn write(&mut self, buf: &[u8]) -> Result<usize, Failed> {
        if let Some(peer) = &mut self.current {
            if let Some(count) = peer.write(&self.runtime, &self.limits, buf) {
                return Ok(count);
            }
        }
        self.cuts = raised(self.cuts);
        Err(Failed)
    }

    /// The peer gets all that was sent, and then the end.
    fn close(&mut self) {
        if let Some(peer) = self.current.take() {
            peer.end(&self.runtime, &self.limits);
        }
    }

    /// Tells of what `next` found beside the one that it took. Where it tells of a connection, `next` needn't wait.
    fn more(&mut self) -> bool {
        self.arrivals.more(&self.limits)
    }

    fn hold(&mut self) -> bool {
        if self.held.is_full() {
            return false;
        }
        if let Some(peer) = self.current.take() {
            self.held.push(peer);
        }
        true
    }

    fn resume(&mut self) -> bool {
        match self.held.pop_at(0) {
            Some(peer) => {
                self.close();
                self.current = Some(peer);
                true
            }
            None => false,
        }
    }
}

#[cfg(test)]
mod http_tests;
#[cfg(test)]
mod tests;
