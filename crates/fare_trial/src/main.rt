//! A first answer by as little as serves: the itinerary on the first line of standard input, a short line or JSON, is
//! quoted in the tariff behind it by the same calls as under every command. It has no words, no store and no door, so
//! it compiles in less than half the time that `fares` takes; its refusals are one line each.
#![tactic(auto)]

use fare_answers::{QuoteFault, quote_text};
use fare_book::Book;
use fare_branch::BranchQuoter;
use fare_csv::{TextFault, read_edition};
use fare_ports::NoMemory;
use fare_trip::{Trip, TripFault, read_short, read_trip};
use std::alloc::Global;
use std::io::{Read, Write};
use std::process::ExitCode;
use std::thread::Threads;

/// Why there is no answer.
#[derive(Debug, Drop)]
enum Refusal {
    Memory,
    Source,
    Tariff,
    Itinerary,
    Quotation,
}

impl From<NoMemory> for Refusal {
    fn from(_: NoMemory) -> Refusal {
        Refusal::Memory
    }
}

impl From<TextFault> for Refusal {
    fn from(_: TextFault) -> Refusal {
        Refusal::Tariff
    }
}

impl From<TripFault> for Refusal {
    fn from(_: TripFault) -> Refusal {
        Refusal::Itinerary
    }
}

impl From<QuoteFault> for Refusal {
    fn from(_: QuoteFault) -> Refusal {
        Refusal::Quotation
    }
}

impl Refusal {
    fn line(&self) -> &'static str {
        match self {
            Refusal::Memory => "memory is wanting\n",
            Refusal::Source => "standard input can't be read\n",
            Refusal::Tariff => "the tariff has a fault\n",
            Refusal::Itinerary => "the itinerary has a fault\n",
            Refusal::Quotation => "the trip can't be quoted in this edition\n",
        }
    }
}

fn main(rt: HostRuntime) -> ExitCode {
    let alloc = rt.alloc();
    let mut source = Vec::new(alloc);
    if rt.stdin().read_to_end(&mut source).is_err() {
        return refused(&rt, Refusal::Source);
    }
    match quoted(&rt, alloc, source.as_slice()) {
        Ok(text) => told(&rt, text.as_slice()),
        Err(refusal) => refused(&rt, refusal),
    }
}

/// Names the refusal on standard error.
fn refused(rt: &HostRuntime, refusal: Refusal) -> ExitCode {
    let _ = rt.stderr().write_all(refusal.line().as_bytes());
    ExitCode::from(1)
}

/// Writes the answer.
fn told(rt: &HostRuntime, text: &[u8]) -> ExitCode {
    match rt.stdout().write_all(text) {
        Ok(()) => ExitCode::from(0),
        Err(_) => ExitCode::from(1),
    }
}

/// The answer to a source.
fn quoted<R: Threads + Sync>(rt: &R, alloc: Global, source: &[u8]) -> Result<Vec<u8>, Refusal> {
    let (first, behind) = match source.iter().position(|byte| *byte == b'\n') {
        None => (source, &source[source.len()..]),
        Some(end) => (&source[..end], &source[end + 1..]),
    };
    let edition = read_edition(rt, alloc, behind)?;
    let trip = itinerary(alloc, first)?;
    let book = Book::of(alloc, edition)?;
    Ok(quote_text(rt, alloc, &book, &BranchQuoter, &trip)?)
}

/// The trip of a short line or of JSON.
fn itinerary(alloc: Global, text: &[u8]) -> Result<Trip, Refusal> {
    if text.starts_with(b"TRIP,") {
        return Ok(read_short(text)?);
    }
    Ok(read_trip(alloc, text)?)
}
