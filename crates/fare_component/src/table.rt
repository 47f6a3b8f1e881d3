//! The table of a trip in an edition: what each fare costs for each span, computed once.
//!
//! - `known`: what is known of one reference;
//! - `references`, `forms`: the references of fares between the points, each looked up once;
//! - `columns`: the greatest of them to a point, kept for the components from earlier points;
//! - `reaches`: the greatest of all, kept for longer components from the same point;
//! - `bases`, `backhauls`: the base and the backhaul minimum of a fare by them;
//! - `entry`: one fare of a span;
//! - `cursor`, `candidates`: the fares between two cities, in record order;
//! - `entries`, `row`: all entries of a span, and of all spans from a point.

ghost use Rattle.std.specs.Prelude.{◌≡◌, ◌*◌, ◌<◌, ◌≤◌, length, map, All, IfOk, IfSome};
ghost use Rattle.std.specs.Option.{option_copied};
ghost use Rattle.fare_trip.specs.Itinerary.{count};
ghost use Rattle.fare_rules.specs.Numbers.{numbers};
ghost use Rattle.fare_rules.specs.ComponentAmount.{component_amount};
ghost use Rattle.fare_component.specs.Table.{IsInBounds, entries_of, entry_at, row_of, single_price};
ghost use Rattle.fare_conditions.specs.Usable.{IsAmount};

mod backhauls;
mod bases;
mod candidates;
mod columns;
mod cursor;
mod entries;
mod entry;
mod forms;
mod known;
mod reaches;
mod references;
mod row;

pub use entries::MOST_ENTRIES;
pub use entry::Entry;
use fare_codes::{FARE_LIMIT, Nuc};
use fare_conditions::{Priced, all_indicators};
use fare_ports::NoMemory;
use fare_rules::Amount;
use fare_tariff::Edition;
use fare_trip::Trip;
use forms::Forms;
use row::Row;
use std::alloc::Global;
use std::marker::Model;

/// The fares that may be used for each span of a trip, with what they cost. A contract sees its edition and its trip.
#[derive(Drop)]
pub struct Table<'a> {
    edition: &'a Edition,
    trip: &'a Trip,
    rows: Vec<Row>,
}

impl<'a> Model for Table<'a> {
    ghost use Rattle.std.specs.Prelude.{◌≡◌, map};
    ghost use Rattle.fare_trip.specs.Itinerary.{count};
    ghost use Rattle.fare_rules.specs.Numbers.{numbers};
    ghost use Rattle.fare_component.specs.Table.{Pricing, row_of};

    ghost Value = { Pricing };

    ghost view = { λ t. record { edition = t.edition.now; trip = t.trip.now } };

    ghost invariant = { λ t. t.rows.items ≡ map (row_of t.edition.now t.trip.now) (numbers 0 (count t.trip.now)) };
}

impl<'a> Table<'a> {
    /// The table of a trip in an edition.
    pub fn prepare(
        alloc: Global,
        edition: &'a Edition,
        trip: &'a Trip,
    ) -> Result<Table<'a>, NoMemory>
        ensures { IfOk result (λ table. table ≡ record { edition = edition.now; trip = trip.now }) }
    {
        let priced = Priced {
            edition,
            trip,
            indicators: &all_indicators(edition, trip),
        };
        let rows = rows_of(alloc, &priced)?;
        Ok(Table {
            edition,
            trip,
            rows,
        })
    }

    /// The entries of the span from a point to another, in record order: each fare that has an amount there in some
    /// direction; none where the two points make no span.
    pub fn entries(&self, a: usize, b: usize) -> &[Entry]
        ensures entries { result.now ≡ entries_of self.now.edition self.now.trip a b }
        ensures few { length result.now ≤ MOST_ENTRIES }
        ensures bounds { All IsInBounds result.now }
    {
        if a < self.rows.len() {
            self.rows[a].entries(b)
        } else {
            &[]
        }
    }

    /// The entry of the fare of a record number from a point to a later one; nothing where it has no amount there.
    fn entry(&self, a: usize, b: usize, number: u32) -> Option<&Entry>
        requires rises { a < b }
        requires within { b ≤ count self.now.trip }
        ensures entry { option_copied result ≡ entry_at self.now.edition self.now.trip a b number }
        ensures bounds { IfSome result (λ entry. IsInBounds entry.now) }
    {
        for entry in self.entries(a, b) {
            if entry.fare == number {
                return Some(entry);
            }
        }
        None
    }

    /// What the fare of a record number costs from a point to a later one, priced back or not: its base, surcharge and
    /// amount; nothing exactly where the fare may not be used there or the record files no fare.
    #[tactic(auto, using(crate::proofs::AmongLemmas::its_amount, crate::proofs::AmongLemmas::no_amount))]
    pub fn amount(&self, a: usize, b: usize, number: u32, back: bool) -> Option<Amount>
        requires rises { a < b }
        requires within { b ≤ count self.now.trip }
        ensures value { result ≡ component_amount self.now.edition self.now.trip a b number back }
        ensures bound { IfSome result IsAmount }
    {
        match self.entry(a, b, number) {
            None => None,
            Some(entry) => entry.amount(back),
        }
    }

    /// The price of the fare of a record number from a point to a later one as a unit of its own; nothing for a half
    /// round trip, and where the fare may not be used there.
    #[tactic(auto, using(crate::proofs::AmongLemmas::its_single, crate::proofs::AmongLemmas::no_single))]
    pub fn single(&self, a: usize, b: usize, number: u32) -> Option<Nuc>
        requires rises { a < b }
        requires within { b ≤ count self.now.trip }
        ensures value { result ≡ single_price self.now.edition self.now.trip a b number }
        ensures bound { IfSome result (λ price. price < 2 * FARE_LIMIT) }
    {
        match self.entry(a, b, number) {
            None => None,
            Some(entry) => entry.single,
        }
    }

    /// The edition that it was prepared from.
    pub fn edition(&self) -> &'a Edition
        ensures { result.now ≡ self.now.edition }
    {
        self.edition
    }

    /// The trip that it was prepared for.
    pub fn trip(&self) -> &'a Trip
        ensures { result.now ≡ self.now.trip }
    {
        self.trip
    }
}

/// The rows of all points but the last, of which the last is made first: what it learns of the later sectors serves the
/// rows of the points before.
fn rows_of(alloc: Global, priced: &Priced) -> Result<Vec<Row>, NoMemory>
    ensures { IfOk result (λ rows.
        rows.items ≡ map (row_of priced.now.edition.now priced.now.trip.now) (numbers 0 (count priced.now.trip.now))) }
{
    let count = priced.trip.count();
    let mut forms = Forms::new(alloc);
    let mut rows = Vec::new(alloc);
    for done in 0..count {
        let a = count - 1 - done;
        forms.begin(priced.trip, a);
        rows.push(Row::of(alloc, priced, &mut forms, a)?)?;
    }
    rows.reverse();
    Ok(rows)
}
