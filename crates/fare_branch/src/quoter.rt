//! The quoter that prunes its search.

ghost use Rattle.std.specs.Prelude.{IfOk};
ghost use Rattle.fare_rules.specs.Best.{IsBestAnswer};
ghost use Rattle.fare_branch.specs.Search.{IsLeastPrice, IsPriceOfOne};

use crate::bound::Bound;
use crate::deepening::DivingBound;
use crate::own_bound::OwnBound;
use crate::pieces::{Piece, choices};
use crate::searching::search;
use fare_bounds::Rest;
use fare_component::Table;
use fare_ports::NoMemory;
use fare_rules::first_part_is_a_choice;
use fare_tariff::Edition;
use fare_trip::Trip;
use fare_units::{Construction, Quoter};
use std::alloc::Global;
use std::thread::Threads;

/// The quoter that searches all constructions on one worker, and leaves out what can't be before what it has found. It
/// takes memory for the table of the trip alone.
#[derive(Clone, Copy, Debug)]
pub struct BranchQuoter;

impl Quoter for BranchQuoter {
    fn quote<R: Threads + Sync>(
        &self,
        _rt: &R,
        alloc: Global,
        edition: &Edition,
        trip: &Trip,
    ) -> Result<Option<(Construction, u64)>, NoMemory>
        ensures { IfOk result (IsBestAnswer edition.now trip.now) }
    {
        let table = Table::prepare(alloc, edition, trip)?;
        Ok(best_of(&table))
    }
}

/// The best construction of the trip of a table, with its price; nothing exactly where none is lawful.
pub fn best_of(table: &Table) -> Option<(Construction, u64)>
    ensures { IsBestAnswer table.now.edition table.now.trip result }
{
    best_by(table, OwnBound::new(table.edition(), table.trip()))
}

/// The same where the price of a lawful construction is known: what costs more is left out from the start.
pub fn best_under(table: &Table, known: u64) -> Option<(Construction, u64)>
    requires { IsPriceOfOne table.now.edition table.now.trip known }
    ensures { IsBestAnswer table.now.edition table.now.trip result }
{
    best_by(table, OwnBound::told(table.edition(), table.trip(), known))
}

/// The best construction of the trip of a table, by what a bound knows already.
fn best_by(table: &Table, bound: OwnBound) -> Option<(Construction, u64)>
    requires { IsLeastPrice table.now.edition table.now.trip (⟦<OwnBound as Bound>⟧.fixed bound) }
    ensures { IsBestAnswer table.now.edition table.now.trip result }
{
    first_part_is_a_choice();
    let _sectors = table.trip().count();
    let all = Piece {
        first: 0,
        past: choices(table),
    };
    let mut bound = DivingBound::new(table, bound);
    search(table, &Rest::of(table), all, &mut bound)
}
