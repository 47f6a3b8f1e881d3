//! The runs of all workers, each in a thread of its own.

ghost use Rattle.std.specs.Prelude.{◌≡◌, ◌≤◌, ◌<◌, length, All};
ghost use Rattle.fare_branch.specs.Shares.{IsPlan};
ghost use Rattle.fare_split.specs.PriceWord.{floor_of};
ghost use Rattle.fare_split.specs.Workers.{HasRun, HaveRun, IsSeated};

use crate::running::run;
use crate::word::Word;
use crate::worker::Worker;
use fare_branch::{MOST_PIECES, Piece, Plan, opening_price};
use fare_component::Table;
use fare_homing::{make_homing, unknown_homing};
use fare_ports::Gate;
use std::thread;
use std::thread::Threads;

/// Lets all workers search their shares of all pieces, by what dives into all of these come to. What is behind each
/// point takes tens of pages, so this stands apart: a search by one worker alone doesn't touch them.
#[inline(never)]
pub(crate) fn search_all<R: Threads + Sync, G: Gate>(
    rt: &R,
    gate: &G,
    word: &Word,
    table: &Table,
    pieces: &[Piece],
    workers: &mut [Worker],
)
    requires one_word { word.now.shared.table_id.words ≡ 1 }
    requires some { 1 ≤ length workers.old }
    requires few { length pieces.now ≤ MOST_PIECES }
    requires each { length workers.old ≡ length pieces.now }
    requires seated { All (IsSeated word.now.shared.table_id (floor_of table.now)) workers.old }
    ensures { HaveRun word.now.shared.table_id table.now pieces.now workers.new }
{
    let mut homing = unknown_homing();
    make_homing(&mut homing, table, None);
    let known = opening_price(table, &mut homing);
    let plan = Plan {
        table,
        homing: &homing,
        pieces,
        known,
    };
    run_all(rt, gate, word, &plan, workers);
}

/// Lets all workers search their shares by a plan. One worker starts no thread.
fn run_all<R: Threads + Sync, G: Gate>(
    rt: &R,
    gate: &G,
    word: &Word,
    plan: &Plan,
    workers: &mut [Worker],
)
    requires one_word { word.now.shared.table_id.words ≡ 1 }
    requires some { 1 ≤ length workers.old }
    requires plan { IsPlan plan.now.table.now plan.now.homing.now plan.now.pieces.now plan.now.known }
    requires each { length workers.old ≡ length plan.now.pieces.now }
    requires seated { All (IsSeated word.now.shared.table_id (floor_of plan.now.table.now)) workers.old }
    ensures { HaveRun word.now.shared.table_id plan.now.table.now plan.now.pieces.now workers.new }
{
    let threads = workers.len();
    thread::for_each_mut(
        rt,
        workers,
        threads,
        &|number: usize, worker: &mut Worker|
            requires plan { IsPlan plan.now.table.now plan.now.homing.now plan.now.pieces.now plan.now.known }
            requires number { number < length plan.now.pieces.now }
            requires one_word { word.now.shared.table_id.words ≡ 1 }
            requires seated { IsSeated word.now.shared.table_id (floor_of plan.now.table.now) worker.old }
            ensures { HasRun word.entry.now.shared.table_id plan.entry.now.table.now plan.entry.now.pieces.now number
                worker.new }
        { run(gate, number as u32, word, plan, worker) },
    );
}
