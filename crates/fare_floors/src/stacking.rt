//! What is behind each point at least over the units of first parts: the open ones come home one inside the other, and
//! what begins behind them must end too.

ghost use Rattle.std.specs.Prelude.{◌≡◌, ℕ, ◌+◌, ◌-◌, ◌≤◌, true, false, length};
ghost use Rattle.fare_trip.specs.Itinerary.{count};
ghost use Rattle.fare_bounds.specs.Covers.{rest_at};
ghost use Rattle.fare_rules.specs.Construction.{end_of, first_of, greatest_unit, own, places};
ghost use Rattle.fare_lawful.specs.Advance.{Advances};
ghost use Rattle.fare_floors.specs.Floors.{IsMadeWith};
ghost use Rattle.fare_homing.specs.Homing.{closing_by, homing_at};
ghost use Rattle.fare_homing.specs.Rows.{AreHomingsOf, begun_from, closing_from, jaw_from};
ghost use Rattle.fare_floors.specs.Stack.{AreOver, AreOverUnits, AreHomes, IsUntilHome, IsOverOpen};
ghost use Rattle.fare_floors.specs.Stack.{IsOpenUnit, may_come_to};

use crate::barring::left_of;
use crate::costs::MOST_UNITS;
use crate::ending::needs_more;
use crate::joining::{is_stuck, part_count, standing_point};
use crate::lasting::{Going, greater_of, over_lasts};
use crate::partial::Partial;
use crate::places::first_place;
use fare_component::Table;
use fare_homing::{
    Floor, Homing, NOTHING, added, begun_from, closing_from, jaw_from, lesser, lie_near, number_at,
};
use fare_rules::{MOST_POINTS, Part};
use fare_trip::Trip;
use fare_units::{MOST_PARTS, is_shut_unit, start_of};

/// A unit of first parts that is open: parts may come to it.
#[derive(Clone, Copy)]
pub(crate) struct Open {
    /// The point where it begins.
    pub start: usize,
    /// The point where its last part ended.
    pub stands: usize,
    /// Whether it must close, since it has two parts or more.
    pub closes: bool,
    /// Whether it must have more parts.
    pub must: bool,
}

/// Whether a unit that begins at a point may come home at another.
pub(crate) fn may_come_to(
    table: &Table,
    homing: &Homing,
    start: usize,
    closes: bool,
    home: usize,
) -> bool
    requires homing { AreHomingsOf table.now.edition table.now.trip homing.now }
    requires start { start ≤ count table.now.trip }
    requires home { home ≤ count table.now.trip }
    ensures { result ≡ may_come_to table.now.edition table.now.trip start closes home }
{
    let trip = table.trip();
    if closes {
        trip.point(home).is(trip.point(start))
    } else {
        lie_near(table, homing, home, start)
    }
}

/// What is behind a point at least until a unit comes home at another, by where it began and where it stands.
fn homing_at(trip: &Trip, homing: &Homing, opened: Open, i: usize, home: usize) -> Floor
    requires start { opened.start ≤ count trip.now }
    requires home { home ≤ count trip.now }
    ensures { result ≡ homing_at trip.now (closing_by opened.closes (begun_from homing.now) (closing_from homing.now)
        opened.stands) (jaw_from homing.now opened.stands) opened.start i home }
{
    if !trip.point(home).is(trip.point(opened.start)) {
        return jaw_from(homing, opened.stands, i, home);
    }
    if opened.closes {
        closing_from(homing, opened.stands, i, home)
    } else {
        begun_from(homing, opened.stands, i, home)
    }
}

/// The numbers behind the points where a unit may come home.
pub(crate) fn homes_of(
    table: &Table,
    homing: &Homing,
    from: usize,
    opened: Open,
    behind: &[Floor; MOST_POINTS],
) -> [Floor; MOST_POINTS]
    requires homing { AreHomingsOf table.now.edition table.now.trip homing.now }
    requires start { opened.start ≤ count table.now.trip }
    ensures { AreHomes table.now.edition table.now.trip from opened.start opened.closes behind.now result }
{
    let mut homes = [NOTHING; MOST_POINTS];
    for home in from..table.trip().count() + 1 {
        if may_come_to(table, homing, opened.start, opened.closes, home) {
            homes[home] = number_at(behind, home);
        }
    }
    homes
}

/// What is behind a point at least until a unit comes home, with what is behind that.
fn until_home(
    trip: &Trip,
    homing: &Homing,
    from: usize,
    opened: Open,
    i: usize,
    homes: &[Floor; MOST_POINTS],
) -> Floor
    requires start { opened.start ≤ count trip.now }
    ensures { IsUntilHome trip.now homing.now from opened.closes opened.stands opened.start i homes.now result }
{
    let mut least = NOTHING;
    for home in from..trip.count() + 1 {
        let until = homing_at(trip, homing, opened, i, home);
        let here = added(until, number_at(homes, home));
        least = lesser(least, here);
    }
    least
}

/// What is behind a point at least over an open unit, by what is there without it.
#[tactic(auto, using(crate::proofs::StackRowLemmas::over_must, crate::proofs::StackRowLemmas::over_free))]
pub(crate) fn over_point(
    trip: &Trip,
    homing: &Homing,
    from: usize,
    opened: Open,
    i: usize,
    homes: &[Floor; MOST_POINTS],
    behind: Floor,
) -> Floor
    requires start { opened.start ≤ count trip.now }
    ensures { IsOverOpen trip.now homing.now from opened.closes opened.stands opened.start opened.must i homes.now behind
        result }
{
    let until = until_home(trip, homing, from, opened, i, homes);
    if opened.must {
        until
    } else {
        lesser(until, behind)
    }
}

/// What is behind each point at least over an open unit, by what is there without it, and where the unit may come home.
fn over_open(
    trip: &Trip,
    homing: &Homing,
    from: usize,
    opened: Open,
    homes: &[Floor; MOST_POINTS],
    behind: &[Floor; MOST_POINTS],
) -> [Floor; MOST_POINTS]
    requires start { opened.start ≤ count trip.now }
    ensures { (i : ℕ) → from ≤ i → i ≤ count trip.now
        → IsOverOpen trip.now homing.now from opened.closes opened.stands opened.start opened.must i homes.now
        (rest_at behind.now i) (rest_at result i) }
{
    let mut row = [NOTHING; MOST_POINTS];
    for i in from..trip.count() + 1 {
        let below = number_at(behind, i);
        row[i] = over_point(trip, homing, from, opened, i, homes, below);
    }
    row
}

/// What is known of an open unit of first parts.
#[tactic(auto, using(crate::proofs::StackRowLemmas::begins_within))]
fn open_unit(table: &Table, parts: &[Part], unit: usize) -> Open
    requires few { length parts.now ≤ MOST_PARTS }
    requires advances { Advances table.now.trip parts.now }
    ensures { IsOpenUnit table.now parts.now unit result }
{
    let trip = table.trip();
    Open {
        start: start_of(trip, parts, first_place(parts, unit)),
        stands: standing_point(parts, unit),
        closes: part_count(parts, unit) > 1,
        must: needs_more(table, parts, unit),
    }
}

/// What is behind each point at least over a unit of first parts that goes on: by its cheapest way home, and by what
/// its last part costs.
fn over_going(
    table: &Table,
    homing: &Homing,
    partial: &Partial,
    unit: usize,
    opened: Open,
    behind: &[Floor; MOST_POINTS],
) -> [Floor; MOST_POINTS]
    requires homing { AreHomingsOf table.now.edition table.now.trip homing.now }
    requires made { IsMadeWith table.now partial.now }
    requires low { 1 ≤ unit }
    requires high { unit ≤ greatest_unit partial.now (places partial.now) }
    requires behind { AreOver table.now homing.now partial.now (unit - 1) behind.now }
    requires opened { IsOpenUnit table.now partial.now unit opened }
    ensures { AreOver table.now homing.now partial.now unit result }
{
    let _sectors = table.trip().count();
    let homes = homes_of(table, homing, partial.end(), opened, behind);
    let row = over_open(table.trip(), homing, partial.end(), opened, &homes, behind);
    let going = Going {
        table,
        front: partial,
        unit,
        start: opened.start,
    };
    let lasts = over_lasts(&going, opened.must, &homes, behind);
    greater_of(&row, &lasts)
}

/// What is behind each point at least over one unit more of first parts.
#[tactic(auto, using(crate::proofs::StackFloorLemmas::over_shut_unit, crate::proofs::StackFloorLemmas::over_stuck_unit, crate::proofs::StackFloorLemmas::over_no_unit, crate::proofs::StackFloorLemmas::over_open_unit))]
pub(crate) fn over_unit(
    table: &Table,
    homing: &Homing,
    partial: &Partial,
    unit: usize,
    behind: &[Floor; MOST_POINTS],
) -> [Floor; MOST_POINTS]
    requires homing { AreHomingsOf table.now.edition table.now.trip homing.now }
    requires made { IsMadeWith table.now partial.now }
    requires low { 1 ≤ unit }
    requires high { unit ≤ greatest_unit partial.now (places partial.now) }
    requires behind { AreOver table.now homing.now partial.now (unit - 1) behind.now }
    ensures { AreOver table.now homing.now partial.now unit result }
{
    let parts = partial.parts();
    if is_shut_unit(table.edition(), table.trip(), parts, unit) {
        return *behind;
    }
    let opened = open_unit(table, parts, unit);
    if !is_stuck(table, partial, unit) {
        return over_going(table, homing, partial, unit, opened, behind);
    }
    if opened.must {
        return [NOTHING; MOST_POINTS];
    }
    *behind
}

/// What is behind each point at least over the units of first parts, by the number up to which they are counted.
pub(crate) fn over_units(
    table: &Table,
    homing: &Homing,
    partial: &Partial,
) -> [[Floor; MOST_POINTS]; MOST_UNITS]
    requires homing { AreHomingsOf table.now.edition table.now.trip homing.now }
    requires made { IsMadeWith table.now partial.now }
    ensures { AreOverUnits table.now homing.now partial.now result }
{
    let _sectors = table.trip().count();
    let mut over = [[NOTHING; MOST_POINTS]; MOST_UNITS];
    over[0] = left_of(table, homing, partial.parts());
    for unit in 1..partial.greatest_unit() + 1 {
        over[unit] = over_unit(table, homing, partial, unit, &over[unit - 1]);
    }
    over
}
