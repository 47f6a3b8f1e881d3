//! What no contract says of workers: that they run side by side, and that a price which one of them tells reaches the
//! others.

ghost use Rattle.std.specs.Prelude.{◌≡◌, ◌≤◌};
ghost use Rattle.fare_branch.specs.declared.bound.TheConstants.{NO_PRICE};
ghost use Rattle.fare_split.specs.PriceWord.{floor_of};

use crate::lane::{Lane, Named};
use crate::opening::opened;
use crate::word::{Copies, Seat, Word};
use crate::{Prepared, SplitQuoter};
use fare_branch::{Bound, NO_PRICE};
use fare_component::Table;
use fare_drill::drill_input;
use fare_ports::{Gate, OpenGate};
use fare_rules::edition_is_valid;
use fare_tariff::Edition;
use fare_trip::Trip;
use fare_units::{Quoter, plain_best};
use std::alloc::Global;
use std::marker::{Brand, PhantomData};
use std::sync::atomic::{AtomicU64, Ordering};
use std::test::Fail;

/// A gate that holds worker 1, whose number is 0, until worker 2 has begun, and remembers whether it gave up.
#[derive(Drop)]
struct Meeting {
    second_has_begun: AtomicU64,
    has_given_up: AtomicU64,
}

/// How often worker 1 asks whether worker 2 has begun.
const MOST_TURNS: u64 = 1_000_000_000;

impl Meeting {
    fn waits(&self) -> bool {
        for _ in 0..MOST_TURNS {
            if self.second_has_begun.load(Ordering::SeqCst) == 1 {
                return true;
            }
        }
        false
    }
}

impl Gate for Meeting {
    fn begin(&self, worker: u32) {
        if worker == 1 {
            self.second_has_begun.store(1, Ordering::SeqCst);
        } else if worker == 0 && !self.waits() {
            self.has_given_up.store(1, Ordering::SeqCst);
        }
    }
}

#[test]
fn gate_two(rt: HostRuntime) -> Result<(), Fail> {
    let (edition, trip) = drill_input(&rt, rt.alloc(), 1, 2, 0)?;
    let meeting = Meeting {
        second_has_begun: AtomicU64::new(0),
        has_given_up: AtomicU64::new(0),
    };
    let mut prepared = Prepared::new(rt.alloc(), &edition, &trip, 2)?;
    let price = prepared.solve(&rt, &meeting).map(|best| best.1);
    assert_eq!(rt; price, Some(46_199));
    assert_eq!(rt; meeting.has_given_up.load(Ordering::SeqCst), 0);
    Ok(())
}

/// What a second seat sees before a first one is told of a price, and afterwards.
fn told<N: Named>(word: &Word, first: Seat, second: Seat, price: u64) -> (u64, u64)
    requires one_word { N.id.words ≡ 1 }
    requires word { word.now.shared.table_id ≡ N.id }
    requires first { first.table_id ≡ N.id }
    requires second { second.table_id ≡ N.id }
    requires first_low { first.me.0.floor ≤ first.me.0.least }
    requires second_low { second.me.0.floor ≤ second.me.0.least }
    requires price { first.me.0.floor ≤ price }
{
    let mut teller = Lane::<N> {
        word,
        seat: first,
        of: PhantomData,
    };
    let mut reader = Lane::<N> {
        word,
        seat: second,
        of: PhantomData,
    };
    let before = reader.seen();
    teller.found(price);
    (before, reader.seen())
}

/// The same at a word for what is priced.
fn told_at(alloc: Global, table: &Table, price: u64) -> Result<(u64, u64), Fail>
    requires low { floor_of table.now ≤ NO_PRICE }
    requires price { floor_of table.now ≤ price }
{
    let (word, mut first) = opened(alloc, table)?;
    let second = word.shared.split_seat::<Copies>(&mut first);
    Ok(told::<Brand>(&word, first, second, price))
}

/// The same for the price of the best construction of a trip.
fn told_of(alloc: Global, edition: &Edition, trip: &Trip) -> Result<(u64, u64), Fail> {
    edition_is_valid(edition);
    let _sectors = trip.count();
    let table = Table::prepare(alloc, edition, trip)?;
    match plain_best(edition, trip) {
        None => Err(Fail::from("no fare")),
        Some((_, price)) => told_at(alloc, &table, price),
    }
}

#[test]
fn word_told(rt: HostRuntime) -> Result<(), Fail> {
    let (edition, trip) = drill_input(&rt, rt.alloc(), 1, 1, 0)?;
    assert_eq!(rt; told_of(rt.alloc(), &edition, &trip)?, (NO_PRICE, 23_113));
    Ok(())
}

#[test]
fn what_workers_found_is_in_their_rows(rt: HostRuntime) -> Result<(), Fail> {
    let (edition, trip) = drill_input(&rt, rt.alloc(), 1, 1, 0)?;
    let mut prepared = Prepared::new(rt.alloc(), &edition, &trip, 1)?;
    assert_eq!(rt; prepared.pieces().len(), 1);
    assert!(rt; prepared.result(0).is_none());
    let price = prepared.solve(&rt, &OpenGate).map(|best| best.1);
    assert_eq!(rt; price, Some(23_113));
    assert_eq!(rt; prepared.result(0).map(|best| best.1), Some(23_113));
    Ok(())
}

#[test]
fn a_quoter_of_workers_quotes(rt: HostRuntime) -> Result<(), Fail> {
    let (edition, trip) = drill_input(&rt, rt.alloc(), 1, 2, 0)?;
    let quoter = SplitQuoter::new(3, &OpenGate);
    let best = quoter.quote(&rt, rt.alloc(), &edition, &trip)?;
    assert_eq!(rt; best.map(|best| best.1), Some(46_199));
    Ok(())
}
