//! Whole units: what one costs at least that begins behind a point, by the point where it ends.

ghost use Rattle.std.specs.Prelude.{◌≡◌, ℕ, ◌+◌, ◌<◌, ◌≤◌, true, if◌then◌else◌};
ghost use Rattle.fare_trip.specs.Itinerary.{count};
ghost use Rattle.fare_rules.specs.Construction.{begin_after};
ghost use Rattle.fare_bounds.specs.Covers.{rest_at};
ghost use Rattle.fare_legs.specs.Barred.{unless_barred};
ghost use Rattle.fare_legs.specs.Costs.{IsUpTo, first_cost, single_cost};
ghost use Rattle.fare_homing.specs.Homing.{homing_at, may_end_at};
ghost use Rattle.fare_homing.specs.HomingRows.{AreWholes, IsPart};
ghost use Rattle.fare_legs.specs.Legs.{AreLegsOf};
ghost use Rattle.fare_legs.specs.Pairs.{HasPair};
ghost use Rattle.fare_homing.specs.Rows.{begun_from, jaw_from};
ghost use Rattle.fare_legs.specs.Countries.{AreCountries};

use crate::between::{Start, lie_together};
use crate::homing::{Homing, begun_from, jaw_from};
use fare_component::Table;
use fare_legs::{Floor, NOTHING, Pairing, added, least_pair, lesser, number_at};
use fare_rules::MOST_POINTS;

/// What one unit costs at least that begins at a point and ends at another: one part alone, or half round trips, by
/// what they cost at least and by the first and the last of them.
fn with_half(table: &Table, start: &Start, home: usize, half: Floor, alone: Floor) -> Floor
    requires home { home ≤ count table.now.trip }
    ensures alone { (most : ℕ) → IsUpTo most alone → IsUpTo most result }
    ensures half { (most cost : ℕ) → IsUpTo most half → most ≤ cost
        → HasPair table.now.edition table.now.trip start.now.barred.now start.now.point home cost
        → IsUpTo cost result }
{
    let Some(floor) = half.amount() else {
        return alone;
    };
    if start.point >= table.trip().count() || alone.amount().unwrap_or(u64::MAX) <= floor {
        return lesser(alone, half);
    }
    let pairing = Pairing {
        table,
        barred: start.barred,
        start: start.point,
        home,
        floor,
    };
    lesser(alone, Floor::of(least_pair(&pairing)))
}

/// What is behind a first part that ends at a point until its unit ends at another: it closes there, or is an open jaw.
fn behind_first(homing: &Homing, closes: bool, b: usize, home: usize) -> Floor
    ensures { result ≡ (if closes then begun_from homing.now b b home else jaw_from homing.now b b home) }
{
    if closes {
        begun_from(homing, b, b, home)
    } else {
        jaw_from(homing, b, b, home)
    }
}

/// What a unit of half round trips costs at least by its first part, with what is then behind that.
fn reach_first(
    homing: &Homing,
    first: &[Floor; MOST_POINTS],
    closes: bool,
    i: usize,
    home: usize,
) -> Floor
    requires rises { i < home }
    requires within { home < MOST_POINTS }
    ensures { (b x y : ℕ) → i < b → b < home → IsUpTo x (rest_at first.now b) → IsUpTo y (if closes
        then begun_from homing.now b b home else jaw_from homing.now b b home) → IsUpTo (x + y) result }
{
    let mut least = NOTHING;
    for b in i + 1..home {
        let step = number_at(first, b);
        let behind = behind_first(homing, closes, b, home);
        least = lesser(least, added(step, behind));
    }
    least
}

/// What one unit costs at least that begins behind a point and ends at another.
fn whole_to(table: &Table, homing: &Homing, start: &Start, home: usize) -> Floor
    requires point { start.now.point ≡ begin_after table.now.trip start.now.behind }
    requires inside { start.now.point ≤ count table.now.trip }
    requires rises { start.now.behind < home }
    requires within { home ≤ count table.now.trip }
    requires countries { AreCountries table.now.edition table.now.trip start.now.countries.now }
    requires legs { AreLegsOf table.now.edition table.now.trip start.now.barred.now start.now.point
        start.now.legs.now }
    ensures alone { (cost : ℕ) → IsPart table.now.edition table.now.trip
        (unless_barred table.now.edition start.now.barred.now single_cost) start.now.point home cost
        → IsUpTo cost result }
    ensures first { (b x y cost : ℕ)
        → may_end_at table.now.edition table.now.trip start.now.point home ≡ true
        → IsPart table.now.edition table.now.trip (unless_barred table.now.edition start.now.barred.now first_cost)
        start.now.point b x → b < home
        → IsUpTo y (homing_at table.now.trip (begun_from homing.now b) (jaw_from homing.now b)
        start.now.point b home) → x + y ≤ cost
        → HasPair table.now.edition table.now.trip start.now.barred.now start.now.point home cost
        → IsUpTo cost result }
{
    let trip = table.trip();
    let count = trip.count();
    prove!(home <= count);
    prove!(start.point <= count);
    let alone = number_at(&start.legs.alone, home);
    let closes = trip.point(home).is(trip.point(start.point));
    if !closes && !lie_together(start.countries, home, start.point) {
        return alone;
    }
    let half = reach_first(homing, &start.legs.first, closes, start.behind, home);
    with_half(table, start, home, half, alone)
}

/// What one unit costs at least that begins behind a point, by the points where it ends.
pub(crate) fn wholes_at(table: &Table, homing: &Homing, start: &Start) -> [Floor; MOST_POINTS]
    requires point { start.now.point ≡ begin_after table.now.trip start.now.behind }
    requires inside { start.now.point ≤ count table.now.trip }
    requires within { start.now.behind < count table.now.trip }
    requires countries { AreCountries table.now.edition table.now.trip start.now.countries.now }
    requires legs { AreLegsOf table.now.edition table.now.trip start.now.barred.now start.now.point
        start.now.legs.now }
    ensures { AreWholes table.now.edition table.now.trip start.now.barred.now (begun_from homing.now)
        (jaw_from homing.now) start.now.behind (rest_at result) }
{
    let count = table.trip().count();
    let mut row = [NOTHING; MOST_POINTS];
    for home in start.behind + 1..count + 1 {
        row[home] = whole_to(table, homing, start, home);
    }
    row
}
