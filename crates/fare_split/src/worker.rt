//! One worker: its seat at the word, and what it found of its share in each piece.

ghost use Rattle.std.specs.Prelude.{◌≡◌, ◌≤◌, ◌<◌, length};
ghost use Rattle.fare_branch.specs.Shares.{AreFoundIn, IsPlan};
ghost use Rattle.fare_split.specs.PriceWord.{floor_of};

use crate::lane::{Lane, Named};
use crate::word::{Seat, Word};
use fare_branch::{Bound, Finds, Plan, search_share};
use std::marker::PhantomData;

/// A worker. Between its runs it has a seat.
#[derive(Drop)]
pub(crate) struct Worker {
    pub(crate) seat: Option<Seat>,
    /// What it found of its share in each piece, by the least price that it knows.
    pub(crate) finds: Finds,
    pub(crate) least: u64,
}

/// Searches the share of a number with a seat at the word of a name, and gives back the seat with what was found and
/// the least price that is known.
pub(crate) fn search_at<N: Named>(
    word: &Word,
    plan: &Plan,
    number: u32,
    seat: Seat,
) -> (Seat, Finds, u64)
    requires one_word { N.id.words ≡ 1 }
    requires word { word.now.shared.table_id ≡ N.id }
    requires seat { seat.table_id ≡ N.id }
    requires low { seat.me.0.floor ≤ seat.me.0.least }
    requires floor { seat.me.0.floor ≡ floor_of plan.now.table.now }
    requires plan { IsPlan plan.now.table.now plan.now.homing.now plan.now.pieces.now plan.now.known }
    requires number { number < length plan.now.pieces.now }
    ensures seat { result.0.table_id ≡ N.id }
    ensures floor { result.0.me.0.floor ≡ seat.me.0.floor }
    ensures low { seat.me.0.floor ≤ result.0.me.0.least }
    ensures known { seat.me.0.floor ≤ result.2 }
    ensures found { AreFoundIn plan.now.table.now.edition plan.now.table.now.trip
        (record { number = number; count = length plan.now.pieces.now }) result.2 plan.now.pieces.now result.1.items }
{
    let mut lane = Lane::<N> {
        word,
        seat,
        of: PhantomData,
    };
    let finds = search_share(plan, number, &mut lane);
    let least = lane.seen();
    let Lane {
        word: _,
        seat,
        of: _,
    } = lane;
    (seat, finds, least)
}
