//! What every command works with.

ghost use Rattle.std.specs.Prelude.{◌≡◌, ◌<◌};

use fare_split::{SplitQuoter, Turnstile};
use std::alloc::Global;

/// What every command works with, which changes no answer.
#[derive(Clone, Copy)]
pub struct Context<'c, R> {
    /// What starts the threads of a search.
    pub rt: &'c R,
    /// The memory that answers are made in.
    pub alloc: Global,
    /// What finds the best constructions.
    pub quoter: &'c SplitQuoter<'c, Turnstile>,
}

impl<R> Context<'_, R> {
    /// The most threads on which searches run side by side: one for each worker.
    pub(crate) fn threads(&self) -> usize
        ensures workers { result ≡ self.now.quoter.now.workers }
        ensures some { 0 < result }
    {
        let quoter = self.quoter;
        quoter.workers as usize
    }
}
