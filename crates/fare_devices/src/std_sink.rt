ghost use Rattle.std.specs.Prelude.{◌≡◌, None};

use fare_ports::{Failed, Sink, raised};
use std::io::Write;
use std::marker::Model;

/// Standard output. It doesn't tell its bytes, and counts each write that fails or takes nothing:
/// it is seen as that count.
#[derive(Drop)]
pub struct StdSink {
    runtime: HostRuntime,
    faults: u64,
}

impl Model for StdSink {
    ghost use Rattle.std.specs.Prelude.{ℕ};

    ghost Value = { ℕ };

    ghost view = { λ s. s.faults };
}

impl StdSink {
    /// Standard output of this process.
    pub fn new(rt: &HostRuntime) -> StdSink
        ensures { result ≡ 0 }
    {
        StdSink {
            runtime: *rt,
            faults: 0,
        }
    }
}

impl Sink for StdSink {
    ghost taken = { λ _. None };

    ghost faults = { λ sink. sink };

    fn write(&mut self, buf: &[u8]) -> Result<usize, Failed> {
        match self.runtime.stdout().write(buf) {
            Ok(count) if count > 0 || buf.is_empty() => Ok(count),
            _ => {
                self.faults = raised(self.faults);
                Err(Failed)
            }
        }
    }
}
