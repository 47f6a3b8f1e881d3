ghost use Rattle.std.specs.Prelude.{IfOk, IsOk};
ghost use Rattle.std.specs.Thread.{IsSync};
ghost use Rattle.fare_rules.specs.Best.{IsBestAnswer};

use crate::best::plain::plain_best;
use crate::construction::Construction;
use fare_ports::NoMemory;
use fare_tariff::Edition;
use fare_trip::Trip;
use std::alloc::Global;
use std::thread::Threads;

/// What finds the best construction of a trip, with its price, or nothing exactly where none is lawful. Its one refusal
/// is want of memory.
pub trait Quoter {
    /// The best construction of a trip in an edition. It may start threads, so these may share the runtime.
    fn quote<R: Threads + Sync>(
        &self,
        rt: &R,
        alloc: Global,
        edition: &Edition,
        trip: &Trip,
    ) -> Result<Option<(Construction, u64)>, NoMemory>
        requires { IsSync R.row }
        ensures { IfOk result (IsBestAnswer edition.now trip.now) };
}

/// The quoter that walks over all constructions. It takes no memory.
#[derive(Clone, Copy, Debug)]
pub struct PlainQuoter;

impl Quoter for PlainQuoter {
    fn quote<R: Threads + Sync>(
        &self,
        _rt: &R,
        _alloc: Global,
        edition: &Edition,
        trip: &Trip,
    ) -> Result<Option<(Construction, u64)>, NoMemory>
        ensures best { IfOk result (IsBestAnswer edition.now trip.now) }
        ensures answered { IsOk result }
    {
        Ok(plain_best(edition, trip))
    }
}
