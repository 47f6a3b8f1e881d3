ghost use Rattle.std.specs.Prelude.{◌≡◌, ◌<◌, ◌≤◌, [], Some, length, is_err, if◌then◌else◌, IfOk, OnErr};
ghost use Rattle.std.specs.Io.{WritesAtMost};
ghost use Rattle.std.specs.Io.KnownBytes.{WriteAppends};
ghost use Rattle.fare_ports.specs.Cause.{Rose, one_more};
ghost use Rattle.fare_outside.specs.Room.{fitting, is_refused, after_put};

use crate::room::Room;
use fare_ports::{Failed, NoMemory, Sink, raised};
use std::alloc::Global;
use std::marker::Model;

/// A sink in memory with a room of a fixed size. Only a write that finds no room fails.
#[derive(Drop)]
pub struct PlainSink {
    room: Room,
    faults: u64,
}

impl Model for PlainSink {
    ghost use Rattle.fare_outside.specs.Objects.{SinkState};

    ghost Value = { SinkState };

    ghost view = { λ s. record { filled = s.room; faults = s.faults } };
}

impl PlainSink {
    /// An empty sink for that many bytes, whose memory is taken at once.
    pub fn new(alloc: Global, room: usize) -> Result<PlainSink, NoMemory>
        ensures { IfOk result (λ sink. sink ≡ record {
          filled = record { taken = []; room = room };
          faults = 0;
        }) }
    {
        Ok(PlainSink {
            room: Room::new(alloc, room)?,
            faults: 0,
        })
    }

    /// The bytes taken.
    pub fn bytes(&self) -> &[u8]
        ensures { result.now ≡ self.now.filled.taken }
    {
        self.room.bytes()
    }
}

impl Sink for PlainSink {
    ghost taken = { λ sink. Some sink.filled.taken };

    ghost faults = { λ sink. sink.faults };

    fn write(&mut self, buf: &[u8]) -> Result<usize, Failed>
        ensures within { WritesAtMost result buf.now }
        ensures progress { IfOk result (λ count. 0 < length buf.now → 0 < count) }
        ensures bytes { WriteAppends (Some self.old.filled.taken) (Some self.new.filled.taken) result buf.now }
        ensures never_falls { self.old.faults ≤ self.new.faults }
        ensures cause { OnErr result (Rose self.old.faults self.new.faults) }
        ensures refused { is_err result ≡ is_refused self.old.filled buf.now }
        ensures answer { IfOk result (λ count. count ≡ fitting self.old.filled buf.now) }
        ensures filled { self.new.filled ≡ after_put self.old.filled buf.now }
        ensures counted { self.new.faults ≡
            (if is_err result then one_more self.old.faults else self.old.faults) }
    {
        match self.room.put(buf) {
            Some(count) => Ok(count),
            None => {
                self.faults = raised(self.faults);
                Err(Failed)
            }
        }
    }
}
