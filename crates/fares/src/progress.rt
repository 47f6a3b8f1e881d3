use fare_changes::Watch;
use std::io::IsTerminal;

/// Shows on standard error how many itineraries of a batch are done, where that is a terminal.
#[derive(Drop)]
pub struct Progress {
    runtime: HostRuntime,
    shown: bool,
}

impl Progress {
    /// The progress of a batch of which nothing is done.
    pub fn new(rt: &HostRuntime) -> Progress {
        Progress {
            runtime: *rt,
            shown: rt.stderr().is_terminal(),
        }
    }
}

impl Watch for Progress {
    fn done(&mut self, done: usize, all: usize) {
        if !self.shown {
            return;
        }
        let _ = eprint!(self.runtime; "\r{done} of {all}");
        if done == all {
            let _ = eprintln!(self.runtime);
        }
    }
}
