//! The quoter that shares its search out among workers.

ghost use Rattle.std.specs.Prelude.{◌≡◌, ◌≤◌, IfOk};
ghost use Rattle.fare_codes.specs.declared.limits.TheConstants.{MOST_WORKERS};
ghost use Rattle.fare_rules.specs.Best.{IsBestAnswer};

use crate::prepared::Prepared;
use crate::shares::whole_work;
use crate::sharing::workers_for;
use crate::turnstile::Turnstile;
use fare_branch::{BranchQuoter, best_of};
use fare_codes::MOST_WORKERS;
use fare_component::Table;
use fare_ports::{Gate, NoMemory, OpenGate};
use fare_tariff::Edition;
use fare_trip::Trip;
use fare_units::{Construction, Quoter};
use std::alloc::Global;
use std::thread::Threads;

/// The quoter whose search is shared out among 1 to `MOST_WORKERS` workers.
#[derive(Drop)]
pub struct SplitQuoter<'g, G: Gate> {
    /// How many workers share a search.
    pub workers: u32,
    /// Where each worker stops for a moment before it starts.
    pub gate: &'g G,
    pub ghost some: { 1 ≤ workers },
    pub ghost few: { workers ≤ MOST_WORKERS },
}

impl<'g, G: Gate> SplitQuoter<'g, G> {
    /// A quoter of so many workers, each of which goes through a gate before it starts.
    pub fn new(workers: u32, gate: &'g G) -> SplitQuoter<'g, G>
        requires some { 1 ≤ workers }
        requires few { workers ≤ MOST_WORKERS }
        ensures workers { result.workers ≡ workers }
        ensures gate { result.gate.now ≡ gate.now }
    {
        SplitQuoter { workers, gate }
    }

    /// The best construction of a trip in an edition, with its price, or nothing exactly where none is lawful, whatever
    /// the gate. One worker starts no thread and shares no word, nor does a trip of one sector; and a search of little
    /// work starts none.
    pub fn best<R: Threads + Sync>(
        &self,
        rt: &R,
        alloc: Global,
        edition: &Edition,
        trip: &Trip,
    ) -> Result<Option<(Construction, u64)>, NoMemory>
        ensures { IfOk result (IsBestAnswer edition.now trip.now) }
    {
        if self.workers == 1 || trip.count() == 1 {
            self.gate.begin(0);
            return BranchQuoter.quote(rt, alloc, edition, trip);
        }
        let table = Table::prepare(alloc, edition, trip)?;
        let workers = workers_for(self.workers, whole_work(&table));
        if workers == 1 {
            self.gate.begin(0);
            return Ok(best_of(&table));
        }
        let mut prepared = Prepared::over(alloc, table, workers)?;
        Ok(prepared.solve(rt, self.gate))
    }
}

impl Quoter for SplitQuoter<'_, OpenGate> {
    fn quote<R: Threads + Sync>(
        &self,
        rt: &R,
        alloc: Global,
        edition: &Edition,
        trip: &Trip,
    ) -> Result<Option<(Construction, u64)>, NoMemory> {
        self.best(rt, alloc, edition, trip)
    }
}

impl Quoter for SplitQuoter<'_, Turnstile> {
    fn quote<R: Threads + Sync>(
        &self,
        rt: &R,
        alloc: Global,
        edition: &Edition,
        trip: &Trip,
    ) -> Result<Option<(Construction, u64)>, NoMemory> {
        self.best(rt, alloc, edition, trip)
    }
}
