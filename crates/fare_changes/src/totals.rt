//! What one item costs in two editions.

ghost use Rattle.std.specs.Prelude.{IfOk};
ghost use Rattle.serde_json.specs.View.{view};
ghost use Rattle.fare_trip.specs.ItineraryText.{trip_of};
ghost use Rattle.fare_changes.specs.Compared.{IsCompared, IsTotal, IsTripCompared};

use crate::compared::Compared;
use crate::comparer::Comparer;
use crate::unknown::unknown_place;
use fare_ports::NoMemory;
use fare_tariff::Edition;
use fare_trip::{Trip, trip_of};
use fare_units::Quoter;
use serde_json::Value;
use std::alloc::Global;
use std::thread::Threads;

/// The total of a trip in an edition; nothing where no construction is lawful, as where the edition doesn't know a point.
fn total<R: Threads + Sync, Q: Quoter>(
    rt: &R,
    alloc: Global,
    quoter: &Q,
    edition: &Edition,
    trip: &Trip,
) -> Result<Option<u64>, NoMemory>
    ensures { IfOk result (IsTotal edition.now trip.now) }
{
    match quoter.quote(rt, alloc, edition, trip)? {
        None => Ok(None),
        Some((_, price)) => Ok(Some(price)),
    }
}

/// What a trip costs in two editions, or the first point that neither knows.
fn trip_compared<R: Threads + Sync, Q: Quoter>(
    rt: &R,
    alloc: Global,
    comparer: &Comparer<'_, Q>,
    trip: &Trip,
) -> Result<Compared, NoMemory>
    ensures { IfOk result (IsTripCompared comparer.now.old.now comparer.now.new.now trip.now) }
{
    match unknown_place(comparer.old, comparer.new, trip) {
        Some(city) => Ok(Compared::Unknown(city)),
        None => {
            let old = total(rt, alloc, comparer.quoter, comparer.old, trip)?;
            let new = total(rt, alloc, comparer.quoter, comparer.new, trip)?;
            Ok(Compared::Totals(old, new))
        }
    }
}

/// What an item costs in two editions, or its first fault.
pub(crate) fn item_compared<R: Threads + Sync, Q: Quoter>(
    rt: &R,
    alloc: Global,
    comparer: &Comparer<'_, Q>,
    item: &Value,
) -> Result<Compared, NoMemory>
    ensures { IfOk result (IsCompared comparer.now.old.now comparer.now.new.now (trip_of (view item.now))) }
{
    match trip_of(alloc, item) {
        Ok(trip) => trip_compared(rt, alloc, comparer, &trip),
        Err(fault) => Ok(Compared::Faulty(fault)),
    }
}
