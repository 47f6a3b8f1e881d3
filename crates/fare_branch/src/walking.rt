//! The walk over the constructions that begin with some parts, whatever it looks for. What can't be lawful, or isn't
//! wanted, is left out.

ghost use Rattle.std.specs.Prelude.{◌≡◌, ◌<◌, ◌≤◌, ◌++◌, ◌∷◌, [], Contains};
ghost use Rattle.fare_trip.specs.Itinerary.{count};
ghost use Rattle.fare_component.specs.Table.{IsInBounds, entries_of};
ghost use Rattle.fare_units.specs.Walk.{Completes, GoesOn, AnyPart, EndsAt, HasFare, IsPart, IsList, next_start};
ghost use Rattle.fare_floors.specs.Ahead.{IsStage};
ghost use Rattle.fare_floors.specs.Floors.{IsFloorAnswer};
ghost use Rattle.fare_branch.specs.Sought.{IsWalk};

use crate::barred::is_barred;
use crate::crowding::is_crowded;
use crate::seeker::Seeker;
use fare_component::{Entry, Table};
use fare_floors::{Partial, Stage, ahead_of, floor_with, stack_after};
use fare_rules::Part;
use fare_units::lawful_price_by;

/// Gives a construction to a seeker, where it is lawful.
fn offer<K, S: Seeker<K>>(table: &Table, front: &Partial, seeker: &mut S, known: &mut K)
    requires holds { S.holds table.now.edition table.now.trip seeker.old known.old }
    ensures fixed { S.fixed seeker.new known.new ≡ S.fixed seeker.old known.old }
    ensures holds { S.holds table.now.edition table.now.trip seeker.new known.new }
    ensures walk { IsWalk table.now.edition table.now.trip (IsList front.now) (S.passed seeker.old known.old)
        (S.has seeker.old known.old) (S.passed seeker.new known.new) (S.has seeker.new known.new) }
{
    match lawful_price_by(table, front.construction()) {
        Err(_) => {}
        Ok(price) => seeker.take(known, table, front, price),
    }
}

/// Walks over all constructions that have these parts as their first ones: each that is lawful is passed then.
#[cycle(walk)]
pub fn walk<K, S: Seeker<K>>(stage: &Stage, seeker: &mut S, known: &mut K)
    requires stage { IsStage stage.now.table.now stage.now.homing.now stage.now.front.now stage.now.ahead.now }
    requires holds { S.holds stage.now.table.now.edition stage.now.table.now.trip seeker.old known.old }
    ensures fixed { S.fixed seeker.new known.new ≡ S.fixed seeker.old known.old }
    ensures holds { S.holds stage.now.table.now.edition stage.now.table.now.trip seeker.new known.new }
    ensures walk { IsWalk stage.now.table.now.edition stage.now.table.now.trip (Completes stage.now.front.now)
        (S.passed seeker.old known.old) (S.has seeker.old known.old) (S.passed seeker.new known.new)
        (S.has seeker.new known.new) }
{
    if stage.front.end() == stage.table.trip().count() {
        return offer(stage.table, stage.front, seeker, known);
    }
    walk_ends(stage, seeker, known)
}

/// Walks over those that go on with any part, the greatest end first.
#[cycle(walk)]
fn walk_ends<K, S: Seeker<K>>(stage: &Stage, seeker: &mut S, known: &mut K)
    requires stage { IsStage stage.now.table.now stage.now.homing.now stage.now.front.now stage.now.ahead.now }
    requires holds { S.holds stage.now.table.now.edition stage.now.table.now.trip seeker.old known.old }
    ensures fixed { S.fixed seeker.new known.new ≡ S.fixed seeker.old known.old }
    ensures holds { S.holds stage.now.table.now.edition stage.now.table.now.trip seeker.new known.new }
    ensures walk { IsWalk stage.now.table.now.edition stage.now.table.now.trip (GoesOn stage.now.front.now AnyPart)
        (S.passed seeker.old known.old) (S.has seeker.old known.old) (S.passed seeker.new known.new)
        (S.has seeker.new known.new) }
{
    let trip = stage.table.trip();
    for end in (stage.front.next_start(trip) + 1..trip.count() + 1).rev() {
        walk_entries(stage, end, seeker, known);
    }
}

/// Walks over those that go on with a part that ends at a point, by record number.
#[cycle(walk)]
fn walk_entries<K, S: Seeker<K>>(stage: &Stage, end: usize, seeker: &mut S, known: &mut K)
    requires stage { IsStage stage.now.table.now stage.now.homing.now stage.now.front.now stage.now.ahead.now }
    requires rises { next_start stage.now.table.now.trip stage.now.front.now < end }
    requires within { end ≤ count stage.now.table.now.trip }
    requires holds { S.holds stage.now.table.now.edition stage.now.table.now.trip seeker.old known.old }
    ensures fixed { S.fixed seeker.new known.new ≡ S.fixed seeker.old known.old }
    ensures holds { S.holds stage.now.table.now.edition stage.now.table.now.trip seeker.new known.new }
    ensures walk { IsWalk stage.now.table.now.edition stage.now.table.now.trip (GoesOn stage.now.front.now (EndsAt end))
        (S.passed seeker.old known.old) (S.has seeker.old known.old) (S.passed seeker.new known.new)
        (S.has seeker.new known.new) }
{
    let start = stage.front.next_start(stage.table.trip());
    for entry in stage.table.entries(start, end) {
        walk_units(stage, end, entry, seeker, known);
    }
}

/// Walks over those that go on with a part that ends at a point and has the fare of a record number.
#[cycle(walk)]
fn walk_units<K, S: Seeker<K>>(
    stage: &Stage,
    end: usize,
    entry: &Entry,
    seeker: &mut S,
    known: &mut K,
)
    requires stage { IsStage stage.now.table.now stage.now.homing.now stage.now.front.now stage.now.ahead.now }
    requires rises { next_start stage.now.table.now.trip stage.now.front.now < end }
    requires within { end ≤ count stage.now.table.now.trip }
    requires there { Contains (entries_of stage.now.table.now.edition stage.now.table.now.trip
        (next_start stage.now.table.now.trip stage.now.front.now) end) entry.now }
    requires bounds { IsInBounds entry.now }
    requires holds { S.holds stage.now.table.now.edition stage.now.table.now.trip seeker.old known.old }
    ensures fixed { S.fixed seeker.new known.new ≡ S.fixed seeker.old known.old }
    ensures holds { S.holds stage.now.table.now.edition stage.now.table.now.trip seeker.new known.new }
    ensures walk { IsWalk stage.now.table.now.edition stage.now.table.now.trip
        (GoesOn stage.now.front.now (HasFare end entry.now.fare)) (S.passed seeker.old known.old)
        (S.has seeker.old known.old) (S.passed seeker.new known.new) (S.has seeker.new known.new) }
{
    let sectors = stage.table.trip().count();
    prove!(end <= sectors);
    for unit in 1..stage.front.greatest_unit() + 2 {
        let part = Part {
            end: end as u8,
            unit: unit as u8,
            fare: entry.fare,
        };
        let floor = floor_with(stage.ahead, entry, part);
        follow(stage, part, floor, seeker, known);
    }
}

/// Walks over those that go on with a part, where by its floor they can be wanted.
#[cycle(walk)]
pub(crate) fn follow<K, S: Seeker<K>>(
    stage: &Stage,
    part: Part,
    floor: Option<u64>,
    seeker: &mut S,
    known: &mut K,
)
    requires stage { IsStage stage.now.table.now stage.now.homing.now stage.now.front.now stage.now.ahead.now }
    requires rises { next_start stage.now.table.now.trip stage.now.front.now < part.end }
    requires within { part.end ≤ count stage.now.table.now.trip }
    requires floor { IsFloorAnswer stage.now.table.now.edition stage.now.table.now.trip
        (stage.now.front.now ++ part ∷ []) floor }
    requires holds { S.holds stage.now.table.now.edition stage.now.table.now.trip seeker.old known.old }
    ensures fixed { S.fixed seeker.new known.new ≡ S.fixed seeker.old known.old }
    ensures holds { S.holds stage.now.table.now.edition stage.now.table.now.trip seeker.new known.new }
    ensures walk { IsWalk stage.now.table.now.edition stage.now.table.now.trip
        (GoesOn stage.now.front.now (IsPart part)) (S.passed seeker.old known.old) (S.has seeker.old known.old)
        (S.passed seeker.new known.new) (S.has seeker.new known.new) }
{
    let Some(least) = floor else {
        return;
    };
    if seeker.is_dear(known, least) {
        return;
    }
    enter(stage, part, seeker, known)
}

/// Walks over those that go on with a part, unless none is wanted, or none is lawful.
#[cycle(walk)]
fn enter<K, S: Seeker<K>>(stage: &Stage, part: Part, seeker: &mut S, known: &mut K)
    requires stage { IsStage stage.now.table.now stage.now.homing.now stage.now.front.now stage.now.ahead.now }
    requires rises { next_start stage.now.table.now.trip stage.now.front.now < part.end }
    requires within { part.end ≤ count stage.now.table.now.trip }
    requires holds { S.holds stage.now.table.now.edition stage.now.table.now.trip seeker.old known.old }
    ensures fixed { S.fixed seeker.new known.new ≡ S.fixed seeker.old known.old }
    ensures holds { S.holds stage.now.table.now.edition stage.now.table.now.trip seeker.new known.new }
    ensures walk { IsWalk stage.now.table.now.edition stage.now.table.now.trip
        (GoesOn stage.now.front.now (IsPart part)) (S.passed seeker.old known.old) (S.has seeker.old known.old)
        (S.passed seeker.new known.new) (S.has seeker.new known.new) }
{
    let (table, homing) = (stage.table, stage.homing);
    let Some(longer) = stage.front.next(table, part) else {
        return;
    };
    // What is asked later costs more.
    if is_barred(table, &longer) {
        return;
    }
    let stack = stack_after(table, homing, &longer, &stage.ahead.floors);
    let Some(floor) = stack.floor else {
        return;
    };
    if seeker.is_dear(known, floor) {
        return;
    }
    if seeker.is_behind(known, &longer, floor) {
        return;
    }
    if is_crowded(table, homing, &longer) {
        return;
    }
    let ahead = ahead_of(table, homing, &longer, stack);
    let further = Stage {
        table,
        homing,
        front: &longer,
        ahead: &ahead,
    };
    walk(&further, seeker, known)
}
