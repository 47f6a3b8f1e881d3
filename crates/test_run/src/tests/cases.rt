//! Sources of `price`, with what comes of them.

pub mod allowances;
pub mod best;
pub mod checks;
pub mod keepers;
pub mod migrations;
pub mod mileage;
pub mod one_sector;
pub mod points;
pub mod programs;
pub mod refusals;
pub mod rounds;
pub mod serving;
pub mod steps;
pub mod units;

/// A source in pieces, with the answer to it.
#[derive(Clone, Copy)]
pub struct Quotation {
    pub source: &'static [&'static str],
    pub text: &'static str,
}

/// A source in pieces that isn't answered, with the status of the run and its line on standard error.
#[derive(Clone, Copy)]
pub struct Refusal {
    pub source: &'static [&'static str],
    pub status: u8,
    pub fault: &'static str,
}

/// A command with a store, over a source in pieces: the status of the run, and what it writes or, on another status
/// than 0, its line on standard error.
#[derive(Clone, Copy)]
pub struct Step {
    pub words: &'static [&'static str],
    pub source: &'static [&'static str],
    pub status: u8,
    pub text: &'static str,
}

/// A command over a source in pieces and a store of these bodies in pieces, which it leaves: the status of the run,
/// what it writes, and its line on standard error.
#[derive(Clone, Copy)]
pub struct Told {
    pub words: &'static [&'static str],
    pub source: &'static [&'static str],
    pub bodies: &'static [&'static [&'static str]],
    pub status: u8,
    pub text: &'static str,
    pub line: &'static str,
}

/// A command with a store whose calls, or those of the source or the sink, fail: the calls by their numbers, and
/// whether a failed append keeps its body; the status, what is written, and how many bodies there are in the end.
#[derive(Clone, Copy)]
pub struct Failure {
    pub words: &'static [&'static str],
    pub read: &'static [u32],
    pub write: &'static [u32],
    pub room: usize,
    pub store: &'static [(u32, bool)],
    pub status: u8,
    pub text: &'static str,
    pub bodies: usize,
}

/// A command with a store of these bodies whose calls fail: the status, what is written, and the bodies in the end.
#[derive(Clone, Copy)]
pub struct Kept {
    pub words: &'static [&'static str],
    pub source: &'static str,
    pub bodies: &'static [&'static str],
    pub store: &'static [(u32, bool)],
    pub status: u8,
    pub text: &'static str,
    pub left: &'static [&'static str],
}

/// A `serve` over a store of these bodies and a door of these connections, calls of which fail: the status, what is
/// written, what is sent on each connection that was taken, and the bodies in the end.
#[derive(Clone, Copy)]
pub struct Served {
    pub words: &'static [&'static str],
    pub bodies: &'static [&'static str],
    pub store: &'static [(u32, bool)],
    pub door: &'static [u32],
    pub connections: &'static [&'static [u8]],
    pub status: u8,
    pub text: &'static str,
    pub sent: &'static [&'static [u8]],
    pub left: &'static [&'static str],
}
