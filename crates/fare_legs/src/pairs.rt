//! Pairs: what the first and the last part of a unit cost at least together, where they combine and their rules allow
//! the stay.

ghost use Rattle.std.specs.Prelude.{◌≡◌, ℕ, ◌<◌, ◌≤◌, Contains, Some};
ghost use Rattle.fare_codes.specs.Day.{day_number};
ghost use Rattle.fare_trip.specs.Itinerary.{count};
ghost use Rattle.fare_rules.specs.Span.{first_day};
ghost use Rattle.fare_rules.specs.UnitRules.{allows_stay_of};
ghost use Rattle.fare_component.specs.declared.table.entry.Entry.{Entry};
ghost use Rattle.fare_component.specs.Table.{entries_of};
ghost use Rattle.fare_legs.specs.Pairs.{HasPair, IsUnderPair, IsUnderPairsAt, IsUnderPairsFrom};
ghost use Rattle.fare_legs.specs.Pairs.{IsUnderPairsOf, are_mates, days_between, may_pair};
ghost use Rattle.fare_legs.specs.Costs.{IsKeptBy, IsUpTo};

use crate::barred::is_barred;
use crate::legs::half_cost;
use fare_component::{Entry, Table};
use fare_tariff::{Edition, FareRec};
use fare_trip::Trip;

/// A unit that begins at a point and ends at another, whose floor is known without its pairs.
#[derive(Clone, Copy)]
pub struct Pairing<'a> {
    pub table: &'a Table<'a>,
    /// Fares whose rules none of its parts may have.
    pub barred: &'a [u32],
    pub start: usize,
    pub home: usize,
    pub floor: u64,
}

/// The first part of a unit.
#[derive(Clone, Copy)]
struct FirstPart {
    fare: u32,
    amount: u64,
    end: usize,
}

/// The day of the sector behind a point, in days since 1970-01-01.
pub fn day_behind(trip: &Trip, a: usize) -> u32
    requires { a < count trip.now }
    ensures { result ≡ day_number (first_day trip.now a) }
{
    let sectors = trip.count();
    prove!(a < sectors);
    trip.sector(a + 1).day.number()
}

/// Whether the rule of a fare allows a stay.
fn allows_stay(edition: &Edition, days: u32, fare: &FareRec) -> bool
    ensures { result ≡ allows_stay_of edition.now days (Some fare.now) }
{
    match edition.terms(fare.rule) {
        None => false,
        Some(asked) => asked.min_stay <= days && days <= asked.max_stay,
    }
}

/// Whether two fares combine in a unit of so many days.
fn are_mates(edition: &Edition, days: u32, one: u32, other: u32) -> bool
    ensures { result ≡ are_mates edition.now days one other }
{
    match (edition.fare_at(one), edition.fare_at(other)) {
        (Some(one), Some(other)) => {
            edition.unit_ok(one.rule, other.rule)
                && (allows_stay(edition, days, one) && allows_stay(edition, days, other))
        }
        _ => false,
    }
}

/// Whether two fares may be the first and the last of a unit of so many days, where some are barred.
fn may_pair(edition: &Edition, barred: &[u32], days: u32, one: u32, other: u32) -> bool
    ensures { result ≡ may_pair edition.now barred.now days one other }
{
    are_mates(edition, days, one, other)
        && (!is_barred(edition, barred, one) && !is_barred(edition, barred, other))
}

/// The lesser of a number and what a first part costs with a last one, where they may pair; no less than the floor.
fn lesser_pair(
    pairing: &Pairing,
    first: FirstPart,
    days: u32,
    last: &Entry,
    least: Option<u64>,
) -> Option<u64>
    ensures kept { IsKeptBy least result }
    ensures pair { (begin : ℕ) → days ≡ days_between pairing.now.table.now.trip pairing.now.start begin
        → IsUnderPair pairing.now.table.now pairing.now.barred.now pairing.now.start pairing.now.floor first.fare
        first.amount begin last.now result }
{
    let Some(back) = half_cost(last, &last.back) else {
        return least;
    };
    let cost = first.amount.saturating_add(back).max(pairing.floor);
    if let Some(known) = least
        && known <= cost
    {
        return least;
    }
    let edition = pairing.table.edition();
    if may_pair(edition, pairing.barred, days, first.fare, last.fare) {
        Some(cost)
    } else {
        least
    }
}

/// The same over the last parts that begin at a point.
fn least_at(pairing: &Pairing, first: FirstPart, begin: usize, least: Option<u64>) -> Option<u64>
    requires start { pairing.now.start < count pairing.now.table.now.trip }
    requires begin { begin < count pairing.now.table.now.trip }
    ensures kept { IsKeptBy least result }
    ensures pairs { IsUnderPairsAt pairing.now.table.now pairing.now.barred.now pairing.now.start pairing.now.home
        pairing.now.floor first.fare first.amount begin result }
{
    let trip = pairing.table.trip();
    let days = day_behind(trip, begin).saturating_sub(day_behind(trip, pairing.start));
    let mut least = least;
    for last in pairing.table.entries(begin, pairing.home) {
        least = lesser_pair(pairing, first, days, last, least);
    }
    least
}

/// The same over the last parts that begin where the first one ends, or behind it.
fn least_behind(pairing: &Pairing, first: FirstPart, least: Option<u64>) -> Option<u64>
    requires start { pairing.now.start < count pairing.now.table.now.trip }
    requires home { pairing.now.home ≤ count pairing.now.table.now.trip }
    ensures kept { IsKeptBy least result }
    ensures pairs { IsUnderPairsFrom pairing.now.table.now pairing.now.barred.now pairing.now.start pairing.now.home
        pairing.now.floor first.fare first.amount first.end result }
{
    let mut least = least;
    for begin in first.end..pairing.home {
        least = least_at(pairing, first, begin, least);
    }
    least
}

/// The same over a first part with an entry.
fn least_with(pairing: &Pairing, entry: &Entry, end: usize, least: Option<u64>) -> Option<u64>
    requires start { pairing.now.start < count pairing.now.table.now.trip }
    requires home { pairing.now.home ≤ count pairing.now.table.now.trip }
    ensures kept { IsKeptBy least result }
    ensures pairs { IsUnderPairsOf pairing.now.table.now pairing.now.barred.now pairing.now.start pairing.now.home
        pairing.now.floor end entry.now result }
{
    let Some(amount) = half_cost(entry, &entry.out) else {
        return least;
    };
    let first = FirstPart {
        fare: entry.fare,
        amount,
        end,
    };
    least_behind(pairing, first, least)
}

/// The same over the first parts that end at a point.
fn least_to(pairing: &Pairing, end: usize, least: Option<u64>) -> Option<u64>
    requires start { pairing.now.start < count pairing.now.table.now.trip }
    requires home { pairing.now.home ≤ count pairing.now.table.now.trip }
    ensures kept { IsKeptBy least result }
    ensures pairs { (first : Entry) → Contains (entries_of pairing.now.table.now.edition pairing.now.table.now.trip
        pairing.now.start end) first → IsUnderPairsOf pairing.now.table.now pairing.now.barred.now pairing.now.start
        pairing.now.home pairing.now.floor end first result }
{
    let mut least = least;
    for entry in pairing.table.entries(pairing.start, end) {
        least = least_with(pairing, entry, end, least);
    }
    least
}

/// What the first and the last part of a unit cost at least together, no less than the unit's floor; nothing where no
/// two may pair.
pub fn least_pair(pairing: &Pairing) -> Option<u64>
    requires start { pairing.now.start < count pairing.now.table.now.trip }
    requires home { pairing.now.home ≤ count pairing.now.table.now.trip }
    ensures { (cost : ℕ) → HasPair pairing.now.table.now.edition pairing.now.table.now.trip pairing.now.barred.now
        pairing.now.start pairing.now.home cost → pairing.now.floor ≤ cost → IsUpTo cost result }
{
    let mut least = None;
    let sectors = pairing.table.trip().count();
    prove!(pairing.start < sectors);
    for end in pairing.start + 1..pairing.home {
        if least == Some(pairing.floor) {
            return least;
        }
        least = least_to(pairing, end, least);
    }
    least
}
