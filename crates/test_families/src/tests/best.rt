//! The best constructions of trips by one, two, three and eight workers.

ghost use Rattle.std.specs.Prelude.{◌≤◌};

use super::sources::{LongSource, Source, input_of};
use super::{few, long};
use fare_codes::MOST_WORKERS;
use fare_ports::OpenGate;
use fare_rules::Part;
use fare_split::SplitQuoter;
use fare_tariff::Edition;
use fare_trip::Trip;
use fare_units::{Construction, PlainQuoter, Quoter};
use std::alloc::Global;
use std::process::Abort;
use std::test::Fail;
use std::thread::Threads;

/// A construction with its price, where there is one.
type Answer = Option<(Construction, u64)>;

/// What some workers find of a trip.
fn best_by<R: Threads + Sync>(
    rt: &R,
    alloc: Global,
    edition: &Edition,
    trip: &Trip,
    workers: u32,
) -> Result<Answer, Fail>
    requires some { 1 ≤ workers }
    requires few { workers ≤ MOST_WORKERS }
{
    let quoter = SplitQuoter::new(workers, &OpenGate);
    Ok(quoter.quote(rt, alloc, edition, trip)?)
}

/// Whether two lists have the same parts.
fn are_same(parts: &[Part], others: &[Part]) -> bool {
    if parts.len() != others.len() {
        return false;
    }
    for i in 0..parts.len() {
        let (part, other) = (&parts[i], &others[i]);
        if part.end != other.end || part.unit != other.unit || part.fare != other.fare {
            return false;
        }
    }
    true
}

/// Whether two answers are the same construction, or both nothing.
fn is_same(one: &Answer, other: &Answer) -> bool {
    match (one, other) {
        (None, None) => true,
        (Some((parts, price)), Some((others, cost))) => {
            price == cost && are_same(parts.parts(), others.parts())
        }
        _ => false,
    }
}

/// Compares what each number of workers finds of a trip with what is known.
fn is_found_by_all<R: Threads + Sync + Abort>(
    rt: &R,
    alloc: Global,
    edition: &Edition,
    trip: &Trip,
    known: &Answer,
) -> Result<(), Fail> {
    assert!(rt; is_same(known, &best_by(rt, alloc, edition, trip, 1)?));
    assert!(rt; is_same(known, &best_by(rt, alloc, edition, trip, 2)?));
    assert!(rt; is_same(known, &best_by(rt, alloc, edition, trip, 3)?));
    assert!(rt; is_same(known, &best_by(rt, alloc, edition, trip, 8)?));
    Ok(())
}

/// Compares what the search finds of trips with what a walk over all constructions does.
fn are_plain_best<R: Threads + Sync + Abort>(
    rt: &R,
    alloc: Global,
    sources: &[Source],
) -> Result<(), Fail> {
    for source in sources {
        let (edition, trip) = input_of(rt, alloc, source.tariff, source.itinerary)?;
        let plain = PlainQuoter.quote(rt, alloc, &edition, &trip)?;
        is_found_by_all(rt, alloc, &edition, &trip, &plain)?;
    }
    Ok(())
}

/// Compares the least prices of trips with what is known, and what each number of workers finds with what one does.
fn have_known_prices<R: Threads + Sync + Abort>(
    rt: &R,
    alloc: Global,
    sources: &[LongSource],
) -> Result<(), Fail> {
    for source in sources {
        let (edition, trip) = input_of(rt, alloc, source.tariff, source.itinerary)?;
        let best = best_by(rt, alloc, &edition, &trip, 1)?;
        let price = match &best {
            None => None,
            Some((_parts, price)) => Some(*price),
        };
        assert!(rt; price == source.price, "{}", source.name);
        is_found_by_all(rt, alloc, &edition, &trip, &best)?;
    }
    Ok(())
}

#[test]
fn units_that_rules_bar(rt: HostRuntime) -> Result<(), Fail> {
    are_plain_best(&rt, rt.alloc(), few::units::SOURCES.as_slice())
}

#[test]
fn circles(rt: HostRuntime) -> Result<(), Fail> {
    are_plain_best(&rt, rt.alloc(), few::circles::SOURCES.as_slice())
}

#[test]
fn rules_that_do_not_all_combine(rt: HostRuntime) -> Result<(), Fail> {
    are_plain_best(&rt, rt.alloc(), few::end_on_end::SOURCES.as_slice())
}

#[test]
fn hubs_and_gaps(rt: HostRuntime) -> Result<(), Fail> {
    are_plain_best(&rt, rt.alloc(), few::hub::SOURCES.as_slice())?;
    are_plain_best(&rt, rt.alloc(), few::own_means::SOURCES.as_slice())?;
    are_plain_best(&rt, rt.alloc(), few::backhauls::SOURCES.as_slice())
}

#[test]
fn long_trips_whose_rules_bar_units(rt: HostRuntime) -> Result<(), Fail> {
    have_known_prices(&rt, rt.alloc(), long::units::SOURCES.as_slice())?;
    have_known_prices(&rt, rt.alloc(), long::barred::SOURCES.as_slice())
}

#[test]
fn long_circles(rt: HostRuntime) -> Result<(), Fail> {
    have_known_prices(&rt, rt.alloc(), long::circles::SOURCES.as_slice())?;
    have_known_prices(&rt, rt.alloc(), long::chain::SOURCES.as_slice())
}

#[test]
fn long_trips_whose_rules_do_not_all_combine(rt: HostRuntime) -> Result<(), Fail> {
    have_known_prices(&rt, rt.alloc(), long::camps::SOURCES.as_slice())?;
    have_known_prices(&rt, rt.alloc(), long::chances::SOURCES.as_slice())
}
