//! Who is told how many items are done.

/// Who is told how many items of a batch are done. What it does with that is its own: no answer depends on it.
pub trait Watch {
    /// So many items of so many are done.
    fn done(&mut self, done: usize, all: usize);
}

/// Nobody, who is told all the same.
#[derive(Clone, Copy, Debug)]
pub struct Unwatched;

impl Watch for Unwatched {
    fn done(&mut self, _done: usize, _all: usize) {}
}
