ghost use Rattle.std.specs.Prelude.{◌≡◌, ◌<◌, ◌≤◌, Some, All, IfOk, length, map, option_map, slice_get};
ghost use Rattle.fare_rules.specs.Best.{IsBestAnswer};
ghost use Rattle.fare_split.specs.Rows.{ArePieces, IsEarliest, IsFresh, IsRun, choice_count, piece_of, result_of};

use crate::earliest::earliest;
use crate::opening::opened;
use crate::pieces::shared_out;
use crate::seating::seated;
use crate::settling::{settled, unsettled};
use crate::threads::search_all;
use crate::word::Word;
use crate::worker::Worker;
use fare_branch::{Finds, NO_PRICE, Piece};
use fare_codes::MOST_WORKERS;
use fare_component::Table;
use fare_ports::{Gate, NoMemory};
use fare_rules::edition_is_valid;
use fare_tariff::Edition;
use fare_trip::Trip;
use fare_units::Construction;
use std::alloc::Global;
use std::marker::Model;
use std::thread::Threads;

/// All that a search on some workers needs. A contract sees what is priced and a row for each worker: its piece, the
/// least price that is known, and what was found there. Until a search these two are `NO_PRICE` and nothing.
#[derive(Drop)]
pub struct Prepared<'a> {
    table: Table<'a>,
    word: Word<'a>,
    workers: Vec<Worker>,
    pieces: Vec<Piece>,
    /// The least price that any worker knows, and what was found at it in each piece.
    least: u64,
    results: Finds,
}

impl<'a> Model for Prepared<'a> {
    ghost use Rattle.fare_split.specs.Rows.{Preparation, rows_of};
    ghost use Rattle.fare_split.specs.Workers.{IsPrepared};

    ghost Value = { Preparation };

    ghost view = { λ p. record { prices = p.table; rows = rows_of p.pieces.items p.least p.results.items } };

    ghost invariant = { λ p. IsPrepared p.table p.word.shared.table_id p.workers.items p.pieces.items p.results.items };
}

impl<'a> Prepared<'a> {
    /// Prepares the search for the best construction of a trip on some workers. It takes all the memory that the search
    /// needs.
    pub fn new(
        alloc: Global,
        edition: &'a Edition,
        trip: &'a Trip,
        workers: u32,
    ) -> Result<Prepared<'a>, NoMemory>
        requires some { 1 ≤ workers }
        requires few { workers ≤ MOST_WORKERS }
        ensures { IfOk result (IsFresh edition.now trip.now workers) }
    {
        let table = Table::prepare(alloc, edition, trip)?;
        Prepared::over(alloc, table, workers)
    }

    /// Prepares the search of a table on some workers.
    pub(crate) fn over(
        alloc: Global,
        table: Table<'a>,
        workers: u32,
    ) -> Result<Prepared<'a>, NoMemory>
        requires some { 1 ≤ workers }
        requires few { workers ≤ MOST_WORKERS }
        ensures { IfOk result (IsFresh table.entry.edition table.entry.trip workers) }
    {
        edition_is_valid(table.edition());
        let _sectors = table.trip().count();
        let pieces = shared_out(alloc, &table, workers)?;
        let (word, seat) = opened(alloc, &table)?;
        let workers = seated(alloc, &word, seat, workers)?;
        let results = unsettled(pieces.as_slice());
        Ok(Prepared {
            table,
            word,
            workers,
            pieces,
            least: NO_PRICE,
            results,
        })
    }

    /// The pieces of the workers: one for each, and each first-part choice lies in exactly one.
    pub fn pieces(&self) -> &[Piece]
        ensures pieces { result.now ≡ map piece_of self.now.rows }
        ensures split { ArePieces (choice_count self.now.prices) result.now }
    {
        self.pieces.as_slice()
    }

    /// What was found in the piece of a worker, counted from 0.
    pub fn result(&self, worker: u32) -> Option<(&Construction, u64)>
        requires { worker < length self.now.rows }
        ensures { slice_get (map result_of self.now.rows) worker
            ≡ Some (option_map (λ found. (found.0.now, found.1)) result) }
    {
        match &self.results[worker as usize] {
            None => None,
            Some((parts, price)) => Some((parts, *price)),
        }
    }

    /// The best construction of the trip, with its price; nothing exactly where none is lawful. Each worker searches
    /// its share of all pieces, once the gate has let it through, and the answer is the earliest of what they found in
    /// any. It takes no memory.
    pub fn solve<R: Threads + Sync, G: Gate>(
        &mut self,
        rt: &R,
        gate: &G,
    ) -> Option<(Construction, u64)>
        ensures best { IsBestAnswer self.old.prices.edition self.old.prices.trip result }
        ensures prices { self.new.prices ≡ self.old.prices }
        ensures pieces { map piece_of self.new.rows ≡ map piece_of self.old.rows }
        ensures run { All (IsRun self.old.prices) self.new.rows }
        ensures earliest { IsEarliest (map result_of self.new.rows) result }
    {
        let word = &self.word;
        let table = &self.table;
        let pieces = self.pieces.as_slice();
        let _sectors = table.trip().count();
        search_all(rt, gate, word, table, pieces, self.workers.as_mut_slice());
        let (least, results) = settled(self.workers.as_slice(), pieces.len());
        self.least = least;
        self.results = results;
        earliest(self.results.as_slice())
    }
}
