//! The commands with a store, over keepers in memory.

use super::cases::best::BEST;
use super::cases::keepers::KEPT;
use super::cases::migrations::{FORMER, MIGRATED, ONE_FORMER};
use super::cases::steps::{FAILURES, ONE_EDITION, REFUSED_SOURCES, THREE_EDITIONS};
use super::cases::{Failure, Kept, Step};
use super::tariffs::{END, HEAD_1, MILES, PLACES, THROUGH, TWO_PLACES};
use super::{Outside, ended, ended_over, joined};
use fare_outside::{FailAt, MemKeeper, MemSink, MemSource, PlainKeeper, PlainSink, PlainSource};
use fare_ports::{Bodies, Keeper};
use fare_run::fault_text;
use fare_split::Turnstile;
use std::alloc::Global;
use std::process::Abort;
use std::test::Fail;
use std::thread::Threads;

/// Compares what a command writes, or ends in, with what it is to.
fn goes<R: Threads + Sync + Abort, P: Keeper>(
    rt: &R,
    alloc: Global,
    store: &mut P,
    step: &Step,
) -> Result<(), Fail> {
    let mut source = PlainSource::new(joined(alloc, step.source)?);
    let mut sink = PlainSink::new(alloc, 4096)?;
    let gate = Turnstile::new();
    let outside = Outside {
        source: &mut source,
        sink: &mut sink,
        store,
        gate: &gate,
    };
    let exit = ended_over(rt, alloc, step.words, outside)?;
    assert!(rt; exit.status() == step.status, "{}", step.text);
    if step.status == 0 {
        assert!(rt; sink.bytes() == step.text.as_bytes(), "{}", step.text);
    } else {
        assert!(rt; sink.bytes().is_empty(), "{}", step.text);
        let fault = fault_text(alloc, &exit)?;
        assert!(rt; fault.as_slice() == step.text.as_bytes(), "{}", step.text);
    }
    Ok(())
}

/// Takes steps one after the other, over one store.
fn go<R: Threads + Sync + Abort, P: Keeper>(
    rt: &R,
    alloc: Global,
    store: &mut P,
    steps: &[Step],
) -> Result<(), Fail> {
    for step in steps {
        goes(rt, alloc, store, step)?;
    }
    Ok(())
}

#[test]
fn one_edition_is_published_once(rt: HostRuntime) -> Result<(), Fail> {
    let alloc = rt.alloc();
    let mut store = PlainKeeper::new(Bodies::new(alloc));
    go(&rt, alloc, &mut store, ONE_EDITION.as_slice())?;
    assert!(rt; store.kept().len() == 1);
    Ok(())
}

#[test]
fn the_sale_day_selects(rt: HostRuntime) -> Result<(), Fail> {
    let alloc = rt.alloc();
    let mut store = PlainKeeper::new(Bodies::new(alloc));
    go(&rt, alloc, &mut store, THREE_EDITIONS.as_slice())
}

#[test]
fn the_first_constructions_are_told(rt: HostRuntime) -> Result<(), Fail> {
    let alloc = rt.alloc();
    let mut store = PlainKeeper::new(Bodies::new(alloc));
    go(&rt, alloc, &mut store, BEST.as_slice())
}

#[test]
fn an_edition_in_the_former_version_is_migrated_once(rt: HostRuntime) -> Result<(), Fail> {
    let alloc = rt.alloc();
    let mut bodies = Bodies::new(alloc);
    bodies.push(FORMER.as_bytes())?;
    bodies.push(b"HEAD,2,2,2025-02-01\nEND\n")?;
    let mut store = PlainKeeper::new(bodies);
    go(&rt, alloc, &mut store, ONE_FORMER.as_slice())
}

#[test]
fn a_refused_source_opens_no_store(rt: HostRuntime) -> Result<(), Fail> {
    let alloc = rt.alloc();
    let mut store = failing(alloc, Bodies::new(alloc), &[(1, false)])?;
    go(&rt, alloc, &mut store, REFUSED_SOURCES.as_slice())
}

/// A keeper whose listed calls fail.
pub fn failing(alloc: Global, bodies: Bodies, calls: &[(u32, bool)]) -> Result<MemKeeper, Fail> {
    let mut fail = Vec::new(alloc);
    for &(call, kept) in calls {
        fail.push(FailAt { call, kept })?;
    }
    Ok(MemKeeper::new(bodies, fail))
}

/// A command over the text of one edition, with calls that fail.
pub fn fails<R: Threads + Sync + Abort>(rt: &R, alloc: Global, case: &Failure) -> Result<(), Fail> {
    let tariff = joined(alloc, &[PLACES, THROUGH, MILES, END])?;
    let mut source = MemSource::new(tariff, case.read.to_vec(alloc)?);
    let mut sink = MemSink::new(alloc, case.room, case.write.to_vec(alloc)?)?;
    let mut store = failing(alloc, Bodies::new(alloc), case.store)?;
    let gate = Turnstile::new();
    let outside = Outside {
        source: &mut source,
        sink: &mut sink,
        store: &mut store,
        gate: &gate,
    };
    let exit = ended_over(rt, alloc, case.words, outside)?;
    assert!(rt; exit.status() == case.status);
    assert!(rt; sink.bytes() == case.text.as_bytes());
    assert!(rt; store.kept().len() == case.bodies);
    Ok(())
}

#[test]
fn each_failing_call_has_its_end(rt: HostRuntime) -> Result<(), Fail> {
    for case in FAILURES.as_slice() {
        fails(&rt, rt.alloc(), case)?;
    }
    Ok(())
}

/// A command over bodies, with calls that fail.
fn keeps<R: Threads + Sync + Abort>(rt: &R, alloc: Global, case: &Kept) -> Result<(), Fail> {
    let mut bodies = Bodies::new(alloc);
    for body in case.bodies {
        bodies.push(body.as_bytes())?;
    }
    let mut source = PlainSource::new(joined(alloc, &[case.source])?);
    let mut sink = PlainSink::new(alloc, 4096)?;
    let mut store = failing(alloc, bodies, case.store)?;
    let gate = Turnstile::new();
    let outside = Outside {
        source: &mut source,
        sink: &mut sink,
        store: &mut store,
        gate: &gate,
    };
    let exit = ended_over(rt, alloc, case.words, outside)?;
    assert!(rt; exit.status() == case.status);
    assert!(rt; sink.bytes() == case.text.as_bytes());
    assert!(rt; store.kept().len() == case.left.len());
    for (i, body) in case.left.iter().enumerate() {
        assert!(rt; store.kept().get(i) == Some(body.as_bytes()));
    }
    Ok(())
}

/// Each case of a table.
fn keeps_all<R: Threads + Sync + Abort>(rt: &R, alloc: Global, cases: &[Kept]) -> Result<(), Fail> {
    for case in cases {
        keeps(rt, alloc, case)?;
    }
    Ok(())
}

#[test]
fn stores_are_left_as_they_are_to_be(rt: HostRuntime) -> Result<(), Fail> {
    keeps_all(&rt, rt.alloc(), KEPT.as_slice())
}

#[test]
fn a_migration_goes_on_where_it_was_cut_off(rt: HostRuntime) -> Result<(), Fail> {
    keeps_all(&rt, rt.alloc(), MIGRATED.as_slice())
}

#[test]
fn a_damaged_store_is_told(rt: HostRuntime) -> Result<(), Fail> {
    let alloc = rt.alloc();
    let mut bodies = Bodies::new(alloc);
    bodies.push(joined(alloc, &[PLACES, THROUGH, MILES, END])?.as_slice())?;
    bodies.push(b"junk")?;
    let mut store = PlainKeeper::new(bodies);
    let step = Step {
        words: &["list", "--store=s"],
        source: &[],
        status: 14,
        text: "DAMAGED 2 1 NoHeader\n",
    };
    goes(&rt, alloc, &mut store, &step)
}

#[test]
fn a_full_book_is_told(rt: HostRuntime) -> Result<(), Fail> {
    let alloc = rt.alloc();
    let mut bodies = Bodies::new(alloc);
    bodies.push(joined(alloc, &[HEAD_1, TWO_PLACES, END])?.as_slice())?;
    for number in 2..33 {
        bodies.push(format!(in alloc; "HEAD,1,{number},2025-01-01\nEND\n")?.as_bytes())?;
    }
    let mut store = PlainKeeper::new(bodies);
    let publish: &[&str] = &["publish", "--store=s"];
    let steps = [
        Step {
            words: publish,
            source: &["HEAD,1,33,2025-01-01\nEND\n"],
            status: 13,
            text: "BOOK FULL\n",
        },
        Step {
            words: publish,
            source: &[HEAD_1, TWO_PLACES, END],
            status: 0,
            text: "ALREADY 1\n",
        },
    ];
    go(&rt, alloc, &mut store, &steps)
}

#[test]
fn a_long_itinerary_is_refused(rt: HostRuntime) -> Result<(), Fail> {
    let alloc = rt.alloc();
    let mut source = PlainSource::new(vec![in alloc; b' '; 65_537]?);
    let mut sink = PlainSink::new(alloc, 4096)?;
    let words: &[&str] = &["quote", "--store=s"];
    let exit = ended(&rt, alloc, words, &mut source, &mut sink)?;
    assert!(rt; exit.status() == 5);
    assert!(rt; sink.bytes().is_empty());
    Ok(())
}
