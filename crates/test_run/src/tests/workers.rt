//! The program by any number of workers: it writes the same bytes.

use super::cases::Quotation;
use super::cases::points::POINTS;
use super::cases::units::UNITS;
use super::{Outside, ended, ended_over, joined};
use fare_outside::{PlainKeeper, PlainSink, PlainSource};
use fare_ports::Bodies;
use fare_split::Turnstile;
use std::alloc::Global;
use std::process::Abort;
use std::test::Fail;
use std::thread::Threads;

/// Compares what words write over a source with a text.
fn writes<R: Threads + Sync + Abort>(
    rt: &R,
    alloc: Global,
    words: &[&str],
    source: Vec<u8>,
    text: &str,
) -> Result<(), Fail> {
    let mut source = PlainSource::new(source);
    let mut sink = PlainSink::new(alloc, 4096)?;
    let exit = ended(rt, alloc, words, &mut source, &mut sink)?;
    assert!(rt; exit.status() == 0, "{}", text);
    assert!(rt; sink.bytes() == text.as_bytes(), "{}", text);
    Ok(())
}

/// Compares each answer of a table with what some workers write.
fn answers_all<R: Threads + Sync + Abort>(
    rt: &R,
    alloc: Global,
    workers: &str,
    cases: &[Quotation],
) -> Result<(), Fail> {
    for case in cases {
        let source = joined(alloc, case.source)?;
        writes(
            rt,
            alloc,
            &["price", "--workers", workers],
            source,
            case.text,
        )?;
    }
    Ok(())
}

#[test]
fn two_workers_quote(rt: HostRuntime) -> Result<(), Fail> {
    answers_all(&rt, rt.alloc(), "2", UNITS.as_slice())?;
    answers_all(&rt, rt.alloc(), "2", POINTS.as_slice())
}

#[test]
fn sixteen_workers_quote(rt: HostRuntime) -> Result<(), Fail> {
    answers_all(&rt, rt.alloc(), "16", UNITS.as_slice())?;
    answers_all(&rt, rt.alloc(), "16", POINTS.as_slice())
}

/// What `drill` writes of a generated trip of so many sectors.
fn drilled<R: Threads + Sync + Abort>(
    rt: &R,
    alloc: Global,
    sectors: &str,
    workers: &str,
) -> Result<Vec<u8>, Fail> {
    let words = [
        "drill",
        "--seed",
        "1",
        "--sectors",
        sectors,
        "--workers",
        workers,
    ];
    written(rt, alloc, &words)
}

/// What words write that need no source.
fn written<R: Threads + Sync + Abort>(
    rt: &R,
    alloc: Global,
    words: &[&str],
) -> Result<Vec<u8>, Fail> {
    let mut source = PlainSource::new(Vec::new(alloc));
    let mut sink = PlainSink::new(alloc, 4096)?;
    let exit = ended(rt, alloc, words, &mut source, &mut sink)?;
    assert!(rt; exit.status() == 0);
    let mut text = Vec::new(alloc);
    text.extend_from_slice(sink.bytes())?;
    Ok(text)
}

#[test]
fn a_generated_sector_is_quoted(rt: HostRuntime) -> Result<(), Fail> {
    let text = drilled(&rt, rt.alloc(), "1", "16")?;
    assert_eq!(rt;
        text.as_slice(),
        b"DRILL seed 1 sectors 1 records 23\nTOTAL NUC 231.13\nPARTS 1 UNITS 1\n".as_slice()
    );
    Ok(())
}

#[test]
fn sixteen_generated_sectors_are_quoted_alike(rt: HostRuntime) -> Result<(), Fail> {
    let one = drilled(&rt, rt.alloc(), "16", "1")?;
    let two = drilled(&rt, rt.alloc(), "16", "2")?;
    let sixteen = drilled(&rt, rt.alloc(), "16", "16")?;
    assert!(rt; one.starts_with(b"DRILL seed 1 sectors 16 records 2179\nTOTAL NUC "));
    assert!(rt; two.as_slice() == one.as_slice());
    assert!(rt; sixteen.as_slice() == one.as_slice());
    Ok(())
}

/// A drill of two sectors with so many extra records, and what it writes.
struct Extra {
    extra: &'static str,
    text: &'static str,
}

static EXTRAS: [Extra; 3] = [
    Extra {
        extra: "--extra=0",
        text: "DRILL seed 1 sectors 2 records 23\nTOTAL NUC 461.99\nPARTS 2 UNITS 2\n",
    },
    Extra {
        extra: "--extra=1",
        text: "DRILL seed 1 sectors 2 records 700\nTOTAL NUC 461.99\nPARTS 2 UNITS 2\n",
    },
    Extra {
        extra: "--extra=200000",
        text: "DRILL seed 1 sectors 2 records 200699\nTOTAL NUC 461.99\nPARTS 2 UNITS 2\n",
    },
];

#[test]
fn extra_records_leave_the_price(rt: HostRuntime) -> Result<(), Fail> {
    for case in EXTRAS.as_slice() {
        let words = ["drill", "--seed=1", "--sectors=2", case.extra];
        let text = written(&rt, rt.alloc(), &words)?;
        assert!(rt; text.as_slice() == case.text.as_bytes(), "{}", case.extra);
    }
    Ok(())
}

#[test]
fn as_many_workers_begin_as_are_asked_for(rt: HostRuntime) -> Result<(), Fail> {
    let alloc = rt.alloc();
    let gate = Turnstile::new();
    let mut source = PlainSource::new(Vec::new(alloc));
    let mut sink = PlainSink::new(alloc, 4096)?;
    let mut store = PlainKeeper::new(Bodies::new(alloc));
    let outside = Outside {
        source: &mut source,
        sink: &mut sink,
        store: &mut store,
        gate: &gate,
    };
    let words = ["drill", "--seed=1", "--sectors=8", "--workers=3"];
    let exit = ended_over(&rt, alloc, &words, outside)?;
    assert!(rt; exit.status() == 0);
    assert!(rt; gate.begun() == 3);
    Ok(())
}
