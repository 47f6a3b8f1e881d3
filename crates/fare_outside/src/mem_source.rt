ghost use Rattle.std.specs.Prelude.{◌≡◌, ◌≤◌, Some, length, min, is_err, if◌then◌else◌, IfOk, OnErr};
ghost use Rattle.std.specs.Io.{ReadsAtMost};
ghost use Rattle.std.specs.Io.KnownBytes.{ReadConsumes};
ghost use Rattle.fare_ports.specs.Cause.{Rose, one_more};
ghost use Rattle.fare_outside.specs.Calls.{fails_next, after_call};

use crate::calls::Calls;
use crate::plain_source::PlainSource;
use fare_ports::{Failed, Source, raised};
use std::marker::Model;

/// A source in memory whose listed reads fail.
#[derive(Drop)]
pub struct MemSource {
    source: PlainSource,
    calls: Calls,
    faults: u64,
}

impl Model for MemSource {
    ghost use Rattle.fare_outside.specs.Objects.{ListedSource};

    ghost Value = { ListedSource };

    ghost view = { λ s. record { left = s.source; calls = s.calls; faults = s.faults } };
}

impl MemSource {
    /// A source of these bytes. The reads of these numbers fail, counted from 1; 4,294,967,295
    /// stands for all from that one on.
    pub fn new(bytes: Vec<u8>, fail: Vec<u32>) -> MemSource
        ensures { result ≡ record {
          left = bytes.items;
          calls = record { fail = fail.items; made = 0 };
          faults = 0;
        } }
    {
        MemSource {
            source: PlainSource::new(bytes),
            calls: Calls::new(fail),
            faults: 0,
        }
    }
}

impl Source for MemSource {
    ghost left = { λ source. Some source.left };

    ghost faults = { λ source. source.faults };

    fn read(&mut self, buf: &mut [u8]) -> Result<usize, Failed>
        ensures within { ReadsAtMost result buf.new }
        ensures bytes { ReadConsumes (Some self.old.left) (Some self.new.left) result buf.new }
        ensures never_falls { self.old.faults ≤ self.new.faults }
        ensures cause { OnErr result (Rose self.old.faults self.new.faults) }
        ensures listed { is_err result ≡ fails_next self.old.calls }
        ensures answer { IfOk result (λ count.
            count ≡ min (length buf.old) (length self.old.left)) }
        ensures calls { self.new.calls ≡ after_call self.old.calls }
        ensures counted { self.new.faults ≡
            (if is_err result then one_more self.old.faults else self.old.faults) }
    {
        if self.calls.next() {
            self.faults = raised(self.faults);
            return Err(Failed);
        }
        self.source.read(buf)
    }
}
