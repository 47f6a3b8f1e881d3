ghost use Rattle.std.specs.Prelude.{◌≡◌, None};

use fare_ports::{Failed, Source, raised};
use std::io::Read;
use std::marker::Model;

/// Standard input. It doesn't tell its bytes, and counts each read that fails: it is seen as that
/// count.
#[derive(Drop)]
pub struct StdSource {
    runtime: HostRuntime,
    faults: u64,
}

impl Model for StdSource {
    ghost use Rattle.std.specs.Prelude.{ℕ};

    ghost Value = { ℕ };

    ghost view = { λ s. s.faults };
}

impl StdSource {
    /// Standard input of this process.
    pub fn new(rt: &HostRuntime) -> StdSource
        ensures { result ≡ 0 }
    {
        StdSource {
            runtime: *rt,
            faults: 0,
        }
    }
}

impl Source for StdSource {
    ghost left = { λ _. None };

    ghost faults = { λ source. source };

    fn read(&mut self, buf: &mut [u8]) -> Result<usize, Failed> {
        match self.runtime.stdin().read(buf) {
            Ok(count) => Ok(count),
            Err(_) => {
                self.faults = raised(self.faults);
                Err(Failed)
            }
        }
    }
}
