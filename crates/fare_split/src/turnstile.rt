//! A gate that counts.

use fare_ports::Gate;
use std::sync::atomic::{AtomicU64, Ordering};

/// A gate that lets every worker through at once, and counts how many have begun. No answer depends on the count.
#[derive(Drop)]
pub struct Turnstile {
    begun: AtomicU64,
}

impl Turnstile {
    /// A gate through which no worker has gone yet.
    pub fn new() -> Turnstile {
        Turnstile {
            begun: AtomicU64::new(0),
        }
    }

    /// How many workers have begun.
    pub fn begun(&self) -> u64 {
        self.begun.load(Ordering::SeqCst)
    }
}

impl Gate for Turnstile {
    fn begin(&self, _worker: u32) {
        self.begun.fetch_add(1, Ordering::SeqCst);
    }
}
