//! The program over objects in memory: what it writes and ends in for sources known from outside.

ghost use Rattle.std.specs.Prelude.{◌≡◌, []};

mod cases;
mod serving;
mod stores;
mod tariffs;
mod telling;
mod workers;

use cases::allowances::ALLOWANCES;
use cases::mileage::MILEAGE;
use cases::one_sector::ONE_SECTOR;
use cases::points::POINTS;
use cases::refusals::REFUSALS;
use cases::units::UNITS;
use cases::{Quotation, Refusal};
use fare_changes::Unwatched;
use fare_outside::{MemSink, MemSource, PlainDoor, PlainKeeper, PlainSink, PlainSource};
use fare_ports::{Bodies, Door, Keeper, Sink, Source};
use fare_run::{Exit, fault_text, run};
use fare_split::Turnstile;
use std::alloc::Global;
use std::process::Abort;
use std::test::Fail;
use std::thread::Threads;
use tariffs::{END, HEAD_1, SHORT, THROUGH, TWO_PLACES};

/// What a run finds outside, besides its door.
#[derive(Drop)]
struct Outside<'o, S, K, P> {
    /// What it reads.
    source: &'o mut S,
    /// What it writes to.
    sink: &'o mut K,
    /// What keeps its editions.
    store: &'o mut P,
    /// What counts the workers that begin.
    gate: &'o Turnstile,
}

/// Runs words over a source and a sink, with a store and a door that hold nothing.
fn ended<R: Threads + Sync, S: Source, K: Sink>(
    rt: &R,
    alloc: Global,
    words: &[&str],
    source: &mut S,
    sink: &mut K,
) -> Result<Exit, Fail> {
    let mut store = PlainKeeper::new(Bodies::new(alloc));
    let gate = Turnstile::new();
    let outside = Outside {
        source,
        sink,
        store: &mut store,
        gate: &gate,
    };
    ended_over(rt, alloc, words, outside)
}

/// Runs words over what is outside, with a door that holds nothing.
fn ended_over<R: Threads + Sync, S: Source, K: Sink, P: Keeper>(
    rt: &R,
    alloc: Global,
    words: &[&str],
    outside: Outside<'_, S, K, P>,
) -> Result<Exit, Fail> {
    ended_at(rt, alloc, words, outside, &mut PlainDoor::new())
}

/// Runs words over what is outside, with a door that holds no connection.
fn ended_at<R: Threads + Sync, S: Source, K: Sink, P: Keeper, D: Door>(
    rt: &R,
    alloc: Global,
    words: &[&str],
    outside: Outside<'_, S, K, P>,
    door: &mut D,
) -> Result<Exit, Fail>
    requires { D.held door.old ≡ [] }
{
    let mut owned = Vec::new(alloc);
    for word in words {
        owned.push(String::from_str(alloc, word)?)?;
    }
    let Outside {
        source,
        sink,
        store,
        gate,
    } = outside;
    Ok(run(
        rt,
        alloc,
        owned.as_slice(),
        source,
        sink,
        store,
        door,
        gate,
        &mut Unwatched,
    ))
}

/// The pieces of a source, one after the other.
fn joined(alloc: Global, pieces: &[&str]) -> Result<Vec<u8>, Fail> {
    let mut bytes = Vec::new(alloc);
    for piece in pieces {
        bytes.extend_from_slice(piece.as_bytes())?;
    }
    Ok(bytes)
}

/// Compares what `price` writes of a source with the answer to it.
fn answers<R: Threads + Sync + Abort>(rt: &R, alloc: Global, case: &Quotation) -> Result<(), Fail> {
    let mut source = PlainSource::new(joined(alloc, case.source)?);
    let mut sink = PlainSink::new(alloc, 4096)?;
    let exit = ended(rt, alloc, &["price"], &mut source, &mut sink)?;
    assert!(rt; exit.status() == 0, "{}", case.text);
    assert!(rt; sink.bytes() == case.text.as_bytes(), "{}", case.text);
    Ok(())
}

/// Compares what `price` ends in for a source with its refusal.
fn refuses<R: Threads + Sync + Abort>(rt: &R, alloc: Global, case: &Refusal) -> Result<(), Fail> {
    let mut source = PlainSource::new(joined(alloc, case.source)?);
    let mut sink = PlainSink::new(alloc, 4096)?;
    let exit = ended(rt, alloc, &["price"], &mut source, &mut sink)?;
    assert!(rt; exit.status() == case.status, "{}", case.fault);
    assert!(rt; sink.bytes().is_empty(), "{}", case.fault);
    let fault = fault_text(alloc, &exit)?;
    assert!(rt; fault.as_slice() == case.fault.as_bytes(), "{}", case.fault);
    Ok(())
}

/// Compares each answer of a table.
fn answers_all<R: Threads + Sync + Abort>(
    rt: &R,
    alloc: Global,
    cases: &[Quotation],
) -> Result<(), Fail> {
    for case in cases {
        answers(rt, alloc, case)?;
    }
    Ok(())
}

#[test]
fn one_sector_is_quoted(rt: HostRuntime) -> Result<(), Fail> {
    answers_all(&rt, rt.alloc(), ONE_SECTOR.as_slice())
}

#[test]
fn miles_are_priced(rt: HostRuntime) -> Result<(), Fail> {
    answers_all(&rt, rt.alloc(), MILEAGE.as_slice())
}

#[test]
fn allowances_are_taken_off(rt: HostRuntime) -> Result<(), Fail> {
    answers_all(&rt, rt.alloc(), ALLOWANCES.as_slice())
}

#[test]
fn higher_points_are_priced(rt: HostRuntime) -> Result<(), Fail> {
    answers_all(&rt, rt.alloc(), POINTS.as_slice())
}

#[test]
fn units_are_priced(rt: HostRuntime) -> Result<(), Fail> {
    answers_all(&rt, rt.alloc(), UNITS.as_slice())
}

#[test]
fn faults_are_named_in_their_order(rt: HostRuntime) -> Result<(), Fail> {
    for case in REFUSALS.as_slice() {
        refuses(&rt, rt.alloc(), case)?;
    }
    Ok(())
}

/// The source of one sector, whole.
fn one_sector(alloc: Global) -> Result<Vec<u8>, Fail> {
    joined(alloc, &[SHORT, HEAD_1, TWO_PLACES, THROUGH, END])
}

#[test]
fn a_failed_read_has_its_own_end(rt: HostRuntime) -> Result<(), Fail> {
    let alloc = rt.alloc();
    let mut source = MemSource::new(one_sector(alloc)?, vec![in alloc; 1]?);
    let mut sink = MemSink::new(alloc, 4096, Vec::new(alloc))?;
    let exit = ended(&rt, alloc, &["price"], &mut source, &mut sink)?;
    assert!(rt; exit.status() == 8);
    assert!(rt; sink.bytes().is_empty());
    Ok(())
}

#[test]
fn a_failed_write_has_its_own_end(rt: HostRuntime) -> Result<(), Fail> {
    let alloc = rt.alloc();
    let mut source = MemSource::new(one_sector(alloc)?, Vec::new(alloc));
    let mut sink = MemSink::new(alloc, 4096, vec![in alloc; 1]?)?;
    let exit = ended(&rt, alloc, &["price"], &mut source, &mut sink)?;
    assert!(rt; exit.status() == 9);
    assert!(rt; sink.bytes().is_empty());
    Ok(())
}

#[test]
fn a_full_sink_has_a_prefix(rt: HostRuntime) -> Result<(), Fail> {
    let alloc = rt.alloc();
    let mut source = PlainSource::new(one_sector(alloc)?);
    let mut sink = PlainSink::new(alloc, 10)?;
    let exit = ended(&rt, alloc, &["price"], &mut source, &mut sink)?;
    assert!(rt; exit.status() == 9);
    assert!(rt; sink.bytes() == b"EDITION 1 ".as_slice());
    Ok(())
}

/// The status of words over the source of one sector, of which nothing is written.
fn status_of<R: Threads + Sync + Abort>(rt: &R, alloc: Global, words: &[&str]) -> Result<u8, Fail> {
    let mut source = PlainSource::new(one_sector(alloc)?);
    let mut sink = PlainSink::new(alloc, 4096)?;
    let exit = ended(rt, alloc, words, &mut source, &mut sink)?;
    assert!(rt; sink.bytes().is_empty());
    Ok(exit.status())
}

#[test]
fn other_words_are_not_taken(rt: HostRuntime) -> Result<(), Fail> {
    let alloc = rt.alloc();
    assert!(rt; status_of(&rt, alloc, &[])? == 2);
    assert!(rt; status_of(&rt, alloc, &["prices"])? == 2);
    assert!(rt; status_of(&rt, alloc, &["price", "LON"])? == 2);
    assert!(rt; status_of(&rt, alloc, &["quote"])? == 2);
    assert!(rt; status_of(&rt, alloc, &["price", "--best=11"])? == 2);
    assert!(rt; status_of(&rt, alloc, &["price", "--json", "--json"])? == 2);
    assert!(rt; status_of(&rt, alloc, &["price", "--why", "--best=1"])? == 2);
    assert!(rt; status_of(&rt, alloc, &["check", "--json"])? == 2);
    Ok(())
}
