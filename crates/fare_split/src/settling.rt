//! What the shares of workers come to together: the least price that any worker knows, and at it the earliest of what
//! they found in each piece.

ghost use Rattle.std.specs.Prelude.{◌≡◌, ◌≤◌, ◌<◌, All, None, length, map};
ghost use Rattle.fare_branch.specs.declared.bound.TheConstants.{NO_PRICE};
ghost use Rattle.fare_split.specs.Rows.{fresh, rows_of};
ghost use Rattle.fare_split.specs.Workers.{HasAll, HasAt, least_from, merged_from, results_of};

use crate::earliest::{Found, earlier_of};
use crate::worker::Worker;
use fare_branch::{Finds, MOST_PIECES, NO_PRICE, Piece, kept_at};

/// The least price that any worker knows.
fn least_known(workers: &[Worker]) -> u64
    ensures { result ≡ least_from NO_PRICE workers.now }
{
    let mut least = NO_PRICE;
    for worker in workers {
        least = least.min(worker.least);
    }
    least
}

/// The earliest of what workers found in the piece of a number.
fn merged(workers: &[Worker], number: usize) -> Found
    requires { All (HasAt number) workers.now }
    ensures { result ≡ merged_from None workers.now number }
{
    let mut best = None;
    for worker in workers {
        best = earlier_of(best, &worker.finds[number]);
    }
    best
}

/// The least price that any worker knows, and the earliest at it of what they found in each of so many pieces.
pub(crate) fn settled(workers: &[Worker], pieces: usize) -> (u64, Finds)
    requires few { pieces ≤ MOST_PIECES }
    requires all { All (HasAll pieces) workers.now }
    ensures least { result.0 ≡ least_from NO_PRICE workers.now }
    ensures results { result.1.items ≡ results_of workers.now result.0 pieces }
{
    let least = least_known(workers);
    let mut results = Finds::new();
    for number in 0..pieces {
        results.push(kept_at(merged(workers, number), least));
    }
    (least, results)
}

/// Nothing for each piece.
pub(crate) fn unsettled(pieces: &[Piece]) -> Finds
    requires { length pieces.now ≤ MOST_PIECES }
    ensures count { length result.items ≡ length pieces.now }
    ensures rows { rows_of pieces.now NO_PRICE result.items ≡ map fresh pieces.now }
{
    let mut results = Finds::new();
    for _piece in pieces {
        results.push(None);
    }
    results
}
