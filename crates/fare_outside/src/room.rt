ghost use Rattle.std.specs.Prelude.{◌≡◌, [], false, IfOk, MatchOption, IsTrue};

use fare_ports::NoMemory;
use std::alloc::Global;
use std::marker::Model;

/// Bytes written into a room of a fixed size, whose memory was taken at once.
#[derive(Drop)]
pub struct Room {
    bytes: Vec<u8>,
    room: usize,
}

impl Model for Room {
    ghost use Rattle.std.specs.Prelude.{◌≤◌, vec_len, vec_capacity};
    ghost use Rattle.fare_outside.specs.Room.{Filled};

    ghost Value = { Filled };

    ghost view = { λ r. record { taken = r.bytes.items; room = r.room } };

    ghost invariant = { λ r. (vec_len r.bytes ≤ r.room) × (r.room ≤ vec_capacity r.bytes) };
}

impl Room {
    ghost use Rattle.fare_outside.specs.Room.{fitting, is_refused, after_put};

    /// An empty room for that many bytes.
    pub fn new(alloc: Global, room: usize) -> Result<Room, NoMemory>
        ensures { IfOk result (λ made. made ≡ record { taken = []; room = room }) }
    {
        let bytes = Vec::with_capacity(alloc, room)?;
        Ok(Room { bytes, room })
    }

    /// Takes what still fits of these bytes and says how many: none is an answer only where there
    /// are bytes and no room is left.
    pub fn put(&mut self, bytes: &[u8]) -> Option<usize>
        ensures answer { MatchOption result (IsTrue (is_refused self.old bytes.now))
            (λ count. (count ≡ fitting self.old bytes.now)
            × (is_refused self.old bytes.now ≡ false)) }
        ensures room { self.new ≡ after_put self.old bytes.now }
    {
        let count = bytes.len().min(self.room - self.bytes.len());
        if count == 0 && !bytes.is_empty() {
            return None;
        }
        self.bytes.extend_from_slice(&bytes[..count]).unwrap();
        Some(count)
    }

    /// The bytes taken.
    pub fn bytes(&self) -> &[u8]
        ensures { result.now ≡ self.now.taken }
    {
        &self.bytes
    }
}
