//! The last part of a unit of first parts that goes on: what it costs at least with what is behind it, by the point
//! where it may begin. It knows what the unit's cheapest way home doesn't: which fares combine with the first parts,
//! and which stays their rules allow.

ghost use Rattle.std.specs.Prelude.{◌≡◌, ℕ, ◌<◌, ◌≤◌, ◌++◌, ◌∷◌, [], length, Contains};
ghost use Rattle.fare_trip.specs.Itinerary.{count};
ghost use Rattle.fare_component.specs.declared.table.entry.Entry.{Entry};
ghost use Rattle.fare_component.specs.Table.{IsInBounds, entries_of};
ghost use Rattle.fare_rules.specs.Construction.{end_of, first_of, own, start_of};
ghost use Rattle.fare_bounds.specs.Covers.{rest_at};
ghost use Rattle.fare_legs.specs.Costs.{IsKeptBy, IsUpTo, back_cost};
ghost use Rattle.fare_floors.specs.Floors.{IsMadeWith};
ghost use Rattle.fare_floors.specs.LastParts.{AreLasts, AreOverLasts, IsGoing, IsUnderLast, IsUnderLasts};
ghost use Rattle.fare_floors.specs.LastParts.{may_be_last};

use crate::partial::{Partial, with_last};
use crate::stays::forbids_any;
use fare_component::{Entry, Table};
use fare_homing::{Floor, NOTHING, day_behind, greater, lesser, number_at};
use fare_rules::{MOST_POINTS, Part};
use fare_units::{MOST_PARTS, is_uncombined};

/// A unit of first parts that goes on.
#[derive(Clone, Copy)]
pub(crate) struct Going<'a> {
    pub table: &'a Table<'a>,
    pub front: &'a Partial,
    pub unit: usize,
    /// The point where it begins.
    pub start: usize,
}

/// The span of a part that comes to a unit as its last one.
#[derive(Clone, Copy)]
struct LastSpan {
    start: usize,
    home: usize,
    /// What is behind its end at least.
    behind: u64,
}

/// Whether a part that begins at a point may be the last of its unit.
fn may_be_last(going: &Going, s: usize, part: Part) -> bool
    requires going { IsGoing going.now.table.now going.now.front.now going.now.unit going.now.start }
    requires unit { part.unit ≡ going.now.unit }
    requires within { s < count going.now.table.now.trip }
    ensures { result ≡ may_be_last going.now.table.now.edition going.now.table.now.trip going.now.front.now s part }
{
    let (edition, trip) = (going.table.edition(), going.table.trip());
    let days = day_behind(trip, s).saturating_sub(day_behind(trip, going.start));
    let longer = with_last(going.front.parts(), part);
    let parts = longer.parts();
    !is_uncombined(edition, parts) && !forbids_any(edition, parts, going.unit, days)
}

/// What the last part of a unit costs with an entry; nothing where it has no amount back, or is no half round trip.
fn back_cost(entry: &Entry) -> Option<u64>
    ensures { result ≡ back_cost entry.now }
{
    match (&entry.single, &entry.back) {
        (None, Some(back)) => Some(back.amount.hundredths()),
        _ => None,
    }
}

/// The lesser of a number and what the last part of a unit costs with an entry, where that may be it.
fn lesser_last(going: &Going, span: LastSpan, entry: &Entry, least: Floor) -> Floor
    requires going { IsGoing going.now.table.now going.now.front.now going.now.unit going.now.start }
    requires rises { span.start < span.home }
    requires within { span.home ≤ count going.now.table.now.trip }
    ensures kept { IsKeptBy least result }
    ensures last { IsUnderLast going.now.table.now going.now.front.now going.now.unit span.start span.home span.behind
        entry.now result }
{
    let Some(back) = back_cost(entry) else {
        return least;
    };
    let cost = back.saturating_add(span.behind);
    if let Some(known) = least.amount()
        && known <= cost
    {
        return least;
    }
    let sectors = going.table.trip().count();
    prove!(span.home <= sectors);
    let part = Part {
        end: span.home as u8,
        unit: going.unit as u8,
        fare: entry.fare,
    };
    if may_be_last(going, span.start, part) {
        Floor::of(Some(cost))
    } else {
        least
    }
}

/// The lesser of a number and what the last part of a unit costs over a span.
fn least_over(going: &Going, span: LastSpan, least: Floor) -> Floor
    requires going { IsGoing going.now.table.now going.now.front.now going.now.unit going.now.start }
    requires rises { span.start < span.home }
    requires within { span.home ≤ count going.now.table.now.trip }
    ensures kept { IsKeptBy least result }
    ensures lasts { (entry : Entry) → Contains (entries_of going.now.table.now.edition going.now.table.now.trip
        span.start span.home) entry → IsUnderLast going.now.table.now going.now.front.now going.now.unit span.start
        span.home span.behind entry result }
{
    let mut least = least;
    for entry in going.table.entries(span.start, span.home) {
        least = lesser_last(going, span, entry, least);
    }
    least
}

/// The lesser of a number and what the last part of a unit costs that begins at a point.
fn least_from(going: &Going, s: usize, homes: &[Floor; MOST_POINTS], least: Floor) -> Floor
    requires going { IsGoing going.now.table.now going.now.front.now going.now.unit going.now.start }
    requires within { s < count going.now.table.now.trip }
    ensures kept { IsKeptBy least result }
    ensures lasts { IsUnderLasts going.now.table.now going.now.front.now going.now.unit homes.now s result }
{
    let sectors = going.table.trip().count();
    prove!(s < sectors);
    let mut least = least;
    for home in s + 1..sectors + 1 {
        if let Some(behind) = number_at(homes, home).amount() {
            let span = LastSpan {
                start: s,
                home,
                behind,
            };
            least = least_over(going, span, least);
        }
    }
    least
}

/// What the last part of a unit costs at least that begins at each point or behind it, with what is behind its home.
fn lasts_of(going: &Going, homes: &[Floor; MOST_POINTS]) -> [Floor; MOST_POINTS]
    requires made { IsMadeWith going.now.table.now going.now.front.now }
    requires going { IsGoing going.now.table.now going.now.front.now going.now.unit going.now.start }
    ensures { AreLasts going.now.table.now going.now.front.now going.now.unit
        (end_of going.now.front.now (length going.now.front.now)) homes.now result }
{
    let mut row = [NOTHING; MOST_POINTS];
    for s in (going.front.end()..going.table.trip().count()).rev() {
        let later = number_at(&row, s + 1);
        row[s] = least_from(going, s, homes, later);
    }
    row
}

/// The same; where the unit can't go on, numbers that say nothing.
fn lasts(going: &Going, homes: &[Floor; MOST_POINTS]) -> [Floor; MOST_POINTS]
    requires made { IsMadeWith going.now.table.now going.now.front.now }
    requires start { going.now.start ≡ start_of going.now.table.now.trip going.now.front.now
        (first_of (own going.now.front.now going.now.unit)) }
    requires few { going.now.unit ≤ MOST_PARTS }
    ensures { AreLasts going.now.table.now going.now.front.now going.now.unit
        (end_of going.now.front.now (length going.now.front.now)) homes.now result }
{
    let sectors = going.table.trip().count();
    if going.start < sectors && going.front.parts().len() < MOST_PARTS {
        return lasts_of(going, homes);
    }
    [Floor::of(Some(0)); MOST_POINTS]
}

/// The numbers of two rows that are both under what is behind each point.
pub(crate) fn greater_of(a: &[Floor; MOST_POINTS], b: &[Floor; MOST_POINTS]) -> [Floor; MOST_POINTS]
    ensures { (i most : ℕ) → IsUpTo most (rest_at a.now i) → IsUpTo most (rest_at b.now i)
        → IsUpTo most (rest_at result i) }
{
    let mut row = [NOTHING; MOST_POINTS];
    for i in 0..MOST_POINTS {
        let one = number_at(a, i);
        let other = number_at(b, i);
        row[i] = greater(one, other);
    }
    row
}

/// What is behind each point at least over a unit that goes on, by what its last part costs; or where it need not go
/// on, by what is there without it.
pub(crate) fn over_lasts(
    going: &Going,
    must: bool,
    homes: &[Floor; MOST_POINTS],
    behind: &[Floor; MOST_POINTS],
) -> [Floor; MOST_POINTS]
    requires made { IsMadeWith going.now.table.now going.now.front.now }
    requires start { going.now.start ≡ start_of going.now.table.now.trip going.now.front.now
        (first_of (own going.now.front.now going.now.unit)) }
    requires few { going.now.unit ≤ MOST_PARTS }
    ensures { AreOverLasts going.now.table.now going.now.front.now going.now.unit must homes.now behind.now result }
{
    let mut row = lasts(going, homes);
    if must {
        return row;
    }
    for i in 0..MOST_POINTS {
        let last = number_at(&row, i);
        let whole = number_at(behind, i);
        row[i] = lesser(last, whole);
    }
    row
}
