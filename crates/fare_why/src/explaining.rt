//! The reasons of a trip in an edition.

ghost use Rattle.std.specs.Prelude.{◌≡◌, ◌<◌, IfOk, IfSome, option_map};
ghost use Rattle.fare_rules.specs.declared.limits.TheConstants.{PRICE_LIMIT};
ghost use Rattle.fare_rules.specs.Best.{IsBestAnswer};
ghost use Rattle.fare_branch.specs.LeastPrice.{least_price};
ghost use Rattle.fare_why.specs.Asked.{NoneIsCheaper};
ghost use Rattle.fare_why.specs.Reasons.{AreReasons, Explains, price_of};

use crate::asked::Asked;
use crate::explanation::Why;
use crate::gathering::gathered;
use crate::reason::Reason;
use crate::searching::{Searches, searched};
use fare_ports::NoMemory;
use fare_relaxed::all_terms;
use fare_tariff::Edition;
use fare_trip::Trip;
use fare_units::{Construction, Quoter, price_is_of_unbroken};
use std::alloc::Global;
use std::thread::Threads;

/// The price of the best construction, where there is one.
fn total_of(edition: &Edition, trip: &Trip, best: &Option<(Construction, u64)>) -> Option<u64>
    requires { IsBestAnswer edition.now trip.now best.now }
    ensures total { result ≡ option_map price_of best.now }
    ensures bound { IfSome result (λ total. total < PRICE_LIMIT) }
{
    match best {
        None => None,
        Some((construction, price)) => {
            price_is_of_unbroken(edition, trip, construction, *price);
            Some(*price)
        }
    }
}

/// The price of the best construction is the total, and no lawful construction is cheaper.
fn total_is_least(
    edition: &Edition,
    trip: &Trip,
    best: &Option<(Construction, u64)>,
    total: Option<u64>,
)
    requires best { IsBestAnswer edition.now trip.now best.now }
    requires total { total ≡ option_map price_of best.now }
    ensures reached { IfSome total (λ price. price ≡ least_price edition.now trip.now) }
    ensures least { NoneIsCheaper edition.now trip.now total }
{}

/// The reasons, by what is asked.
fn reasons_of<R: Threads + Sync>(
    rt: &R,
    alloc: Global,
    threads: usize,
    asked: &Asked<'_>,
) -> Result<Vec<Reason>, NoMemory>
    requires { 0 < threads }
    ensures { IfOk result (λ reasons.
        AreReasons asked.now.edition.now asked.now.trip.now asked.now.total reasons.items) }
{
    let terms = all_terms();
    let slots = searched(rt, alloc, threads, asked, &terms)?;
    let reasons = gathered(alloc, slots)?;
    Ok(reasons)
}

/// The price of the best construction of a trip in an edition, and for each kind of condition, in their order, the best
/// construction without that kind, where it costs less or none is lawful with it: with its line, its price, what it
/// saves, and the first rule that it breaks in the edition itself.
#[tactic(auto, unfolding(crate::specs::Reasons::Explains))]
pub fn why<R: Threads + Sync, Q: Quoter>(
    rt: &R,
    alloc: Global,
    searches: &Searches<'_, Q>,
    edition: &Edition,
    trip: &Trip,
) -> Result<Why, NoMemory>
    requires some { 0 < searches.now.threads }
    ensures { IfOk result (λ why. Explains edition.now trip.now why) }
{
    let best = searches.quoter.quote(rt, alloc, edition, trip)?;
    let total = total_of(edition, trip, &best);
    total_is_least(edition, trip, &best, total);
    let asked = Asked {
        edition,
        trip,
        total,
    };
    let reasons = reasons_of(rt, alloc, searches.threads, &asked)?;
    Ok(Why { total, reasons })
}
