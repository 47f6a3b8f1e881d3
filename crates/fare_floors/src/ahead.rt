//! Ahead: what is behind the part that comes next after some first parts at least, by what that part is: a one way
//! fare, or a half round trip of one of the units. So most parts that cost too much are passed over before the longer
//! list is made.

ghost use Rattle.std.specs.Prelude.{◌≡◌, ℕ, ◌+◌, ◌-◌, ◌≤◌, ◌++◌, ◌∷◌, [], IfSome, Some, is_some, if◌then◌else◌};
ghost use Rattle.fare_trip.specs.Itinerary.{count};
ghost use Rattle.fare_rules.specs.Construction.{end_of, first_of, greatest_unit, own, places, start_of};
ghost use Rattle.fare_component.specs.Table.{IsInBounds};
ghost use Rattle.fare_bounds.specs.Covers.{least_cost, rest_at};
ghost use Rattle.fare_units.specs.Walk.{next_start};
ghost use Rattle.fare_floors.specs.Ahead.{AreAhead, AreBehindHalf, IsHalfRow, must_go_from};
ghost use Rattle.fare_floors.specs.Costs.{or_nothing};
ghost use Rattle.fare_floors.specs.Floors.{IsFloorAnswer, IsMadeWith};
ghost use Rattle.fare_legs.specs.Costs.{IsUpTo};
ghost use Rattle.fare_homing.specs.Rows.{cell, AreHomingsOf};
ghost use Rattle.fare_floors.specs.Stack.{AreOver, IsStack};

use crate::costs::{MOST_UNITS, entry_least};
use crate::floors::lowered_to;
use crate::joining::is_stuck;
use crate::partial::Partial;
use crate::places::first_place;
use crate::stack::Stack;
use crate::stacking::{Open, homes_of, may_come_to, over_point};
use fare_component::{Entry, Table};
use fare_homing::{Ceiling, Floor, Homing, NOTHING, number_at, paid_with};
use fare_rules::{MOST_POINTS, Part};
use fare_units::{is_shut_unit, start_of};

/// What some first parts cost at least, and what is behind the part that comes next.
#[derive(Drop)]
pub struct Ahead {
    /// What each unit of the first parts costs at least, by its number.
    pub floors: [u64; MOST_UNITS],
    /// What the first parts cost at least.
    pub spent: u64,
    /// What is behind a one way fare, by the point where it ends.
    pub alone: [Floor; MOST_POINTS],
    /// What is behind a half round trip, by its unit and the point where it ends.
    pub half: [[Floor; MOST_POINTS]; MOST_UNITS],
    /// The ceiling under which that holds.
    pub ceiling: Option<Ceiling>,
}

/// Whether a unit that begins at a point must go on behind a half round trip that ends at another: this is its first
/// part, or ends where the unit may not.
fn must_go_from(table: &Table, homing: &Homing, start: usize, begun: bool, i: usize) -> bool
    requires homing { AreHomingsOf table.now.edition table.now.trip homing.now }
    requires start { start ≤ count table.now.trip }
    requires end { i ≤ count table.now.trip }
    ensures { result ≡ must_go_from table.now.edition table.now.trip start begun i }
{
    !(begun && may_come_to(table, homing, start, false, i))
}

/// What is behind each half round trip of a unit that begins at a point, by what is there without the unit.
fn half_row(
    table: &Table,
    homing: &Homing,
    from: usize,
    start: usize,
    begun: bool,
    below: &[Floor; MOST_POINTS],
) -> [Floor; MOST_POINTS]
    requires homing { AreHomingsOf table.now.edition table.now.trip homing.now }
    requires start { start ≤ count table.now.trip }
    ensures { IsHalfRow table.now homing.now from start begun below.now result }
{
    let trip = table.trip();
    let opened = Open {
        start,
        stands: from,
        closes: begun,
        must: true,
    };
    let homes = homes_of(table, homing, from, opened, below);
    let mut row = [NOTHING; MOST_POINTS];
    for i in from..trip.count() + 1 {
        let here = Open {
            start,
            stands: i,
            closes: begun,
            must: must_go_from(table, homing, start, begun, i),
        };
        let behind = number_at(below, i);
        row[i] = over_point(trip, homing, i + 1, here, i, &homes, behind);
    }
    row
}

/// What is behind each half round trip of a unit that the first parts have.
fn begun_row(
    table: &Table,
    homing: &Homing,
    front: &Partial,
    unit: usize,
    below: &[Floor; MOST_POINTS],
) -> [Floor; MOST_POINTS]
    requires homing { AreHomingsOf table.now.edition table.now.trip homing.now }
    requires made { IsMadeWith table.now front.now }
    requires low { 1 ≤ unit }
    requires high { unit ≤ greatest_unit front.now (places front.now) }
    requires below { AreOver table.now homing.now front.now (unit - 1) below.now }
    ensures { AreBehindHalf table.now homing.now front.now unit result }
{
    let trip = table.trip();
    let parts = front.parts();
    if is_stuck(table, front, unit) {
        return [NOTHING; MOST_POINTS];
    }
    if is_shut_unit(table.edition(), trip, parts, unit) {
        return [NOTHING; MOST_POINTS];
    }
    let start = start_of(trip, parts, first_place(parts, unit));
    half_row(table, homing, front.end(), start, true, below)
}

/// What is behind each half round trip with which a unit begins.
fn new_row(
    table: &Table,
    homing: &Homing,
    front: &Partial,
    below: &[Floor; MOST_POINTS],
) -> [Floor; MOST_POINTS]
    requires homing { AreHomingsOf table.now.edition table.now.trip homing.now }
    requires made { IsMadeWith table.now front.now }
    requires below { AreOver table.now homing.now front.now (greatest_unit front.now (places front.now)) below.now }
    ensures { AreBehindHalf table.now homing.now front.now (greatest_unit front.now (places front.now) + 1) result }
{
    let start = front.next_start(table.trip());
    half_row(table, homing, front.end(), start, false, below)
}

/// What is ahead of some first parts.
pub fn ahead_of(table: &Table, homing: &Homing, front: &Partial, stack: Stack) -> Ahead
    requires homing { AreHomingsOf table.now.edition table.now.trip homing.now }
    requires made { IsMadeWith table.now front.now }
    requires stack { IsStack table.now homing.now front.now stack }
    ensures { AreAhead table.now front.now result }
{
    let _sectors = table.trip().count();
    let greatest = front.greatest_unit();
    let mut half = [[NOTHING; MOST_POINTS]; MOST_UNITS];
    for unit in 1..greatest + 1 {
        half[unit] = begun_row(table, homing, front, unit, &stack.over[unit - 1]);
    }
    half[greatest + 1] = new_row(table, homing, front, &stack.over[greatest]);
    Ahead {
        floors: stack.floors,
        spent: stack.spent,
        alone: stack.over[greatest],
        half,
        ceiling: homing.ceiling,
    }
}

/// What is behind a part with an entry.
fn behind_of(ahead: &Ahead, entry: &Entry, part: Part) -> Floor
    ensures { result ≡ (if is_some entry.now.single then rest_at ahead.now.alone part.end
        else cell ahead.now.half part.unit part.end) }
{
    let (unit, end) = (part.unit as usize, part.end as usize);
    if entry.single.is_some() {
        number_at(&ahead.alone, end)
    } else if unit < MOST_UNITS {
        number_at(&ahead.half[unit], end)
    } else {
        NOTHING
    }
}

/// What some first parts cost at least with a part of an entry and what is behind that.
pub fn floor_with(ahead: &Ahead, entry: &Entry, part: Part) -> Option<u64>
    requires { IsInBounds entry.now }
    ensures up { (behind : ℕ) → (if is_some entry.now.single then rest_at ahead.now.alone part.end
        else cell ahead.now.half part.unit part.end) ≡ Some behind
        → IsUpTo (ahead.now.spent + or_nothing (least_cost entry.now) + behind) result }
    ensures above { IfSome ahead.now.ceiling (λ ceiling. IsUpTo (ceiling.price + 1) result) }
{
    let paid = ahead.spent.saturating_add(entry_least(entry));
    lowered_to(
        ahead.ceiling,
        paid_with(paid, behind_of(ahead, entry, part)),
    )
}

/// A number that is at most the price of every completion of some first parts with one more at their end; nothing only
/// where there is none.
pub fn floor_ahead(table: &Table, ahead: &Ahead, front: &Partial, part: Part) -> Option<u64>
    requires ahead { AreAhead table.now front.now ahead.now }
    requires made { IsMadeWith table.now front.now }
    ensures { IsFloorAnswer table.now.edition table.now.trip (front.now ++ part ∷ []) result }
{
    let entries = table.entries(front.next_start(table.trip()), part.end as usize);
    for entry in entries {
        if entry.fare == part.fare {
            return floor_with(ahead, entry, part);
        }
    }
    Some(0)
}
