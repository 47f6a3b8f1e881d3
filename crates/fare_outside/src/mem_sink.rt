ghost use Rattle.std.specs.Prelude.{◌≡◌, ◌<◌, ◌≤◌, ◌||◌, [], Some, length, is_err, if◌then◌else◌, IfOk, OnErr};
ghost use Rattle.std.specs.Io.{WritesAtMost};
ghost use Rattle.std.specs.Io.KnownBytes.{WriteAppends};
ghost use Rattle.fare_ports.specs.Cause.{Rose, one_more};
ghost use Rattle.fare_outside.specs.Calls.{fails_next, after_call};
ghost use Rattle.fare_outside.specs.Room.{fitting, is_refused, after_put};

use crate::calls::Calls;
use crate::room::Room;
use fare_ports::{Failed, NoMemory, Sink, raised};
use std::alloc::Global;
use std::marker::Model;

/// A sink in memory with a room of a fixed size, whose listed writes fail, and those that find no
/// room.
#[derive(Drop)]
pub struct MemSink {
    room: Room,
    calls: Calls,
    faults: u64,
}

impl Model for MemSink {
    ghost use Rattle.fare_outside.specs.Objects.{ListedSink};

    ghost Value = { ListedSink };

    ghost view = { λ s. record { filled = s.room; calls = s.calls; faults = s.faults } };
}

impl MemSink {
    /// An empty sink for `room` bytes, whose memory is taken at once. The writes of these numbers
    /// fail, counted from 1; 4,294,967,295 stands for all from that one on.
    pub fn new(alloc: Global, room: usize, fail: Vec<u32>) -> Result<MemSink, NoMemory>
        ensures { IfOk result (λ sink. sink ≡ record {
          filled = record { taken = []; room = room };
          calls = record { fail = fail.items; made = 0 };
          faults = 0;
        }) }
    {
        Ok(MemSink {
            room: Room::new(alloc, room)?,
            calls: Calls::new(fail),
            faults: 0,
        })
    }

    /// The bytes taken.
    pub fn bytes(&self) -> &[u8]
        ensures { result.now ≡ self.now.filled.taken }
    {
        self.room.bytes()
    }
}

impl Sink for MemSink {
    ghost taken = { λ sink. Some sink.filled.taken };

    ghost faults = { λ sink. sink.faults };

    fn write(&mut self, buf: &[u8]) -> Result<usize, Failed>
        ensures within { WritesAtMost result buf.now }
        ensures progress { IfOk result (λ count. 0 < length buf.now → 0 < count) }
        ensures bytes { WriteAppends (Some self.old.filled.taken) (Some self.new.filled.taken) result buf.now }
        ensures never_falls { self.old.faults ≤ self.new.faults }
        ensures cause { OnErr result (Rose self.old.faults self.new.faults) }
        ensures refused { is_err result ≡
            (fails_next self.old.calls || is_refused self.old.filled buf.now) }
        ensures answer { IfOk result (λ count. count ≡ fitting self.old.filled buf.now) }
        ensures filled { IfOk result (λ _. self.new.filled ≡ after_put self.old.filled buf.now) }
        ensures kept { OnErr result (self.new.filled ≡ self.old.filled) }
        ensures calls { self.new.calls ≡ after_call self.old.calls }
        ensures counted { self.new.faults ≡
            (if is_err result then one_more self.old.faults else self.old.faults) }
    {
        let is_listed = self.calls.next();
        if !is_listed {
            if let Some(count) = self.room.put(buf) {
                return Ok(count);
            }
        }
        self.faults = raised(self.faults);
        Err(Failed)
    }
}
