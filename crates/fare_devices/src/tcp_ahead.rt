ghost use Rattle.std.specs.Prelude.{◌≤◌, length};

use crate::request_length::request_length;
use std::alloc::{AllocError, Global};

/// What a peer has sent that was read before the door asks for it.
#[derive(Drop)]
pub struct TcpAhead {
    bytes: Vec<u8>,
    given: usize,
    wanted: Option<usize>,
}

impl TcpAhead {
    /// Nothing yet. It takes no memory.
    pub fn new(alloc: Global) -> TcpAhead {
        TcpAhead {
            bytes: Vec::new(alloc),
            given: 0,
            wanted: None,
        }
    }

    /// How many bytes are kept.
    pub fn len(&self) -> usize {
        self.bytes.len()
    }

    /// Whether nothing more is read ahead: the request is whole, or the reading was stopped.
    pub fn is_enough(&self) -> bool {
        match self.wanted {
            Some(wanted) => wanted <= self.bytes.len(),
            None => false,
        }
    }

    /// Reads no further ahead.
    pub fn stop(&mut self) {
        self.wanted = Some(0);
    }

    /// Takes memory for so many bytes more.
    pub fn reserve(&mut self, count: usize) -> Result<(), AllocError> {
        self.bytes.reserve(count)
    }

    /// Keeps these bytes too, and looks how long the request is, unless that is known.
    pub fn keep(&mut self, piece: &[u8]) -> Result<(), AllocError> {
        self.bytes.extend_from_slice(piece)?;
        if self.wanted.is_none() {
            self.wanted = request_length(&self.bytes);
        }
        Ok(())
    }

    /// Gives the next bytes that are kept, and says how many.
    pub fn give(&mut self, buf: &mut [u8]) -> usize
        ensures { result ≤ length buf.new }
    {
        let from = self.given.min(self.bytes.len());
        let left = &self.bytes[from..];
        let count = left.len().min(buf.len());
        buf[..count].copy_from_slice(&left[..count]);
        self.given = from + count;
        count
    }
}
