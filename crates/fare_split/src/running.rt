//! The run of one worker.

ghost use Rattle.std.specs.Prelude.{◌≡◌, ◌<◌, length};
ghost use Rattle.fare_branch.specs.Shares.{IsPlan};
ghost use Rattle.fare_split.specs.PriceWord.{floor_of};
ghost use Rattle.fare_split.specs.Workers.{HasRun, IsSeated};

use crate::word::Word;
use crate::worker::{Worker, search_at};
use fare_branch::Plan;
use fare_ports::Gate;
use std::marker::Brand;

/// Lets a worker of a number search its share of all pieces, once the gate has let it through.
pub(crate) fn run<G: Gate>(gate: &G, number: u32, word: &Word, plan: &Plan, worker: &mut Worker)
    requires one_word { word.now.shared.table_id.words ≡ 1 }
    requires plan { IsPlan plan.now.table.now plan.now.homing.now plan.now.pieces.now plan.now.known }
    requires number { number < length plan.now.pieces.now }
    requires seated { IsSeated word.now.shared.table_id (floor_of plan.now.table.now) worker.old }
    ensures { HasRun word.now.shared.table_id plan.now.table.now plan.now.pieces.now number worker.new }
{
    gate.begin(number);
    let Some(seat) = worker.seat.take() else {
        unreachable!()
    };
    let (seat, finds, least) = search_at::<Brand>(word, plan, number, seat);
    worker.seat = Some(seat);
    worker.finds = finds;
    worker.least = least;
}
