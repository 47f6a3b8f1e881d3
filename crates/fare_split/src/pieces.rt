//! The pieces of the workers: ranges of the numbers of the first-part choices, with about as much work each.

ghost use Rattle.std.specs.Prelude.{◌≡◌, ◌≤◌, IfOk, length};
ghost use Rattle.fare_split.specs.Rows.{ArePieces, choice_count};

use crate::shares::{choices_within, whole_work};
use fare_branch::{Piece, choices};
use fare_codes::MOST_WORKERS;
use fare_component::Table;
use fare_ports::NoMemory;
use std::alloc::Global;

/// As many pieces as workers, which share out the first-part choices of a table: each lies in exactly one.
#[tactic(auto, using(crate::proofs::RangeLemmas::none_shared, crate::proofs::RangeLemmas::one_more))]
pub(crate) fn shared_out(alloc: Global, table: &Table, workers: u32) -> Result<Vec<Piece>, NoMemory>
    requires some { 1 ≤ workers }
    requires few { workers ≤ MOST_WORKERS }
    ensures count { IfOk result (λ pieces. length pieces.items ≡ workers) }
    ensures split { IfOk result (λ pieces. ArePieces (choice_count table.now) pieces.items) }
{
    let count = choices(table);
    let share = whole_work(table) / workers as u64;
    let mut pieces = Vec::new(alloc);
    let mut first = 0;
    for place in 1..workers {
        let past = choices_within(table, share.saturating_mul(place as u64))
            .max(first)
            .min(count);
        pieces.push(Piece { first, past })?;
        first = past;
    }
    pieces.push(Piece { first, past: count })?;
    Ok(pieces)
}
