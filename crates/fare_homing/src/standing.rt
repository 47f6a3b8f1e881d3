//! What is behind each point until a unit comes home that stands in the city of one point: its next part begins there,
//! whatever whole units come before.

ghost use Rattle.std.specs.Prelude.{◌≡◌, ℕ, ◌<◌, ◌≤◌, [], Option, true};
ghost use Rattle.fare_trip.specs.Itinerary.{count};
ghost use Rattle.fare_rules.specs.Construction.{begin_after};
ghost use Rattle.fare_bounds.specs.Covers.{rest_at};
ghost use Rattle.fare_legs.specs.declared.ceiling.Ceiling.{Ceiling};
ghost use Rattle.fare_legs.specs.Costs.{IsUpTo, is_same_city};
ghost use Rattle.fare_homing.specs.Homing.{may_go_on};
ghost use Rattle.fare_homing.specs.HomingRows.{AreBetweens, AreClosings, AreJaws, AreNext, IsLast, IsSecond};
ghost use Rattle.fare_legs.specs.Legs.{AreLegsBehind, AreLegsOf};
ghost use Rattle.fare_legs.specs.Owed.{AreOwed};
ghost use Rattle.fare_homing.specs.Rows.{cell, closing_from};
ghost use Rattle.fare_legs.specs.Countries.{AreCountries};

use crate::between::{Start, lie_together, start_at};
use crate::homing::{Homing, Standing};
use crate::reaching::{lesser_of, lowered_by};
use fare_codes::Country;
use fare_component::Table;
use fare_legs::{Floor, LegRows, NOTHING, owed_from, raised};
use fare_rules::MOST_POINTS;

/// A unit that goes on: the point in whose city it stands, and the one behind which its next part comes.
#[derive(Clone, Copy)]
struct GoingOn {
    stand: usize,
    i: usize,
}

/// Whether the last part of a unit that stands in the city of a point may begin at another: in that city, or in its
/// country.
fn may_go_on(
    table: &Table,
    countries: &[Option<Country>; MOST_POINTS],
    stand: usize,
    a: usize,
) -> bool
    requires stand { stand ≤ count table.now.trip }
    requires start { a ≤ count table.now.trip }
    requires countries { AreCountries table.now.edition table.now.trip countries.now }
    ensures { result ≡ may_go_on table.now.edition table.now.trip stand a }
{
    let trip = table.trip();
    let count = trip.count();
    prove!(stand <= count);
    prove!(a <= count);
    trip.point(stand).is(trip.point(a)) || lie_together(countries, stand, a)
}

/// What the last part of a unit costs by where it ends, where it may begin; nothing where it may not.
fn last_row(may: bool, start: &Start) -> [Floor; MOST_POINTS]
    ensures { may ≡ true → (j x : ℕ) → IsUpTo x (rest_at start.now.legs.now.last j) → IsUpTo x (rest_at result j) }
{
    if may {
        start.legs.last_row()
    } else {
        [NOTHING; MOST_POINTS]
    }
}

/// What comes next of a unit that stands in the city of a point, by where it closes, by what its last part costs at least
/// and the parts between.
fn next_at(
    table: &Table,
    start: &Start,
    stand: usize,
    betweens: &[Floor; MOST_POINTS],
    last: &[Floor; MOST_POINTS],
) -> [Floor; MOST_POINTS]
    requires point { start.now.point ≡ begin_after table.now.trip start.now.behind }
    requires inside { start.now.point ≤ count table.now.trip }
    requires stand { stand ≤ start.now.behind }
    requires rises { start.now.behind < count table.now.trip }
    ensures { (ceiling : Option Ceiling) (after : ℕ → ℕ → Option ℕ)
        → AreBetweens table.now.edition table.now.trip ceiling after start.now.behind (rest_at betweens.now)
        → AreNext table.now.edition table.now.trip ceiling (λ j x. IsUpTo x (rest_at last.now j)) after stand
        start.now.behind (rest_at result) }
{
    let trip = table.trip();
    let count = trip.count();
    prove!(start.point <= count);
    if trip.point(start.point).is(trip.point(stand)) {
        lesser_of(last, betweens)
    } else {
        *last
    }
}

/// What the last part of a unit that stands in the city of a point costs at least, by where it ends.
fn lasts_at(table: &Table, start: &Start, stand: usize) -> [Floor; MOST_POINTS]
    requires point { start.now.point ≡ begin_after table.now.trip start.now.behind }
    requires inside { start.now.point ≤ count table.now.trip }
    requires stand { stand ≤ count table.now.trip }
    requires countries { AreCountries table.now.edition table.now.trip start.now.countries.now }
    requires legs { AreLegsOf table.now.edition table.now.trip [] start.now.point start.now.legs.now }
    ensures { (j x : ℕ) → IsLast table.now.edition table.now.trip stand start.now.behind j x
        → IsUpTo x (rest_at result j) }
{
    last_row(may_go_on(table, start.countries, stand, start.point), start)
}

/// The same for the second of two parts, by what its unit owes behind the first.
fn seconds_at(
    table: &Table,
    start: &Start,
    stand: usize,
    last: &[Floor; MOST_POINTS],
    owed: &[Floor; MOST_POINTS],
) -> [Floor; MOST_POINTS]
    requires point { start.now.point ≡ begin_after table.now.trip start.now.behind }
    requires inside { start.now.point ≤ count table.now.trip }
    requires stand { stand ≤ count table.now.trip }
    requires last { (j x : ℕ) → IsLast table.now.edition table.now.trip stand start.now.behind j x
        → IsUpTo x (rest_at last.now j) }
    requires owed { AreOwed table.now.edition table.now.trip stand (rest_at owed.now) }
    ensures { (j x : ℕ) → IsSecond table.now.edition table.now.trip stand start.now.behind j x
        → IsUpTo x (rest_at result j) }
{
    let trip = table.trip();
    let count = trip.count();
    prove!(start.point <= count);
    prove!(stand <= count);
    if trip.point(start.point).is(trip.point(stand)) {
        raised(last, owed)
    } else {
        *last
    }
}

/// What is behind a point until a unit ends as an open jaw, by where that is.
fn jaws_at(
    table: &Table,
    homing: &Homing,
    start: &Start,
    stays: &[[Floor; MOST_POINTS]; MOST_POINTS],
    unit: GoingOn,
) -> [Floor; MOST_POINTS]
    requires inside { start.now.point ≤ count table.now.trip }
    requires point { start.now.point ≡ begin_after table.now.trip unit.i }
    requires stand { unit.stand ≤ unit.i }
    requires rises { unit.i < count table.now.trip }
    requires legs { AreLegsOf table.now.edition table.now.trip [] start.now.point start.now.legs.now }
    ensures { AreJaws table.now.edition table.now.trip (cell homing.now.whole unit.i) (cell stays.now) unit.stand unit.i
        (rest_at result) }
{
    let trip = table.trip();
    let count = trip.count();
    prove!(start.point <= count);
    let last = last_row(trip.point(start.point).is(trip.point(unit.stand)), start);
    lowered_by(&last, &homing.whole[unit.i], stays, unit.i)
}

/// What is behind each point from one on until a unit comes home that stands in the city of that point, by the parts
/// between behind each.
pub(crate) fn standing_at(
    table: &Table,
    legs: &[LegRows; MOST_POINTS],
    betweens: &[[Floor; MOST_POINTS]; MOST_POINTS],
    homing: &Homing,
    stand: usize,
) -> Standing
    requires within { stand < count table.now.trip }
    requires countries { AreCountries table.now.edition table.now.trip homing.now.countries }
    requires legs { AreLegsBehind table.now.edition table.now.trip [] legs.now }
    requires betweens { (i : ℕ) → stand ≤ i → i < count table.now.trip
        → AreBetweens table.now.edition table.now.trip homing.now.unit_ceiling (λ b. closing_from homing.now b b) i
        (cell betweens.now i) }
    ensures begins { (i : ℕ) → stand ≤ i → i < count table.now.trip
        → AreClosings table.now.edition table.now.trip homing.now.unit_ceiling
        (IsSecond table.now.edition table.now.trip stand i) (λ b. closing_from homing.now b b)
        (cell homing.now.whole i) (cell result.begun) stand i (cell result.begun i) }
    ensures closes { (i : ℕ) → stand ≤ i → i < count table.now.trip
        → AreClosings table.now.edition table.now.trip homing.now.unit_ceiling
        (IsLast table.now.edition table.now.trip stand i) (λ b. closing_from homing.now b b)
        (cell homing.now.whole i) (cell result.closing) stand i (cell result.closing i) }
    ensures ends { (i : ℕ) → stand ≤ i → i < count table.now.trip → AreJaws table.now.edition table.now.trip
        (cell homing.now.whole i) (cell result.jaw) stand i (cell result.jaw i) }
{
    let trip = table.trip();
    let rows = [[NOTHING; MOST_POINTS]; MOST_POINTS];
    let mut standing = Standing {
        begun: rows,
        closing: rows,
        jaw: rows,
    };
    let owed = owed_from(table, stand);
    let none: [u32; 0] = [];
    for i in (stand..trip.count()).rev() {
        let start = start_at(table, legs, &homing.countries, none.as_slice(), i);
        let last = lasts_at(table, &start, stand);
        let second = seconds_at(table, &start, stand, &last, &owed);
        let one = next_at(table, &start, stand, &betweens[i], &second);
        let more = next_at(table, &start, stand, &betweens[i], &last);
        let begun = lowered_by(&one, &homing.whole[i], &standing.begun, i);
        let closing = lowered_by(&more, &homing.whole[i], &standing.closing, i);
        let jaw = jaws_at(table, homing, &start, &standing.jaw, GoingOn { stand, i });
        standing.begun[i] = begun;
        standing.closing[i] = closing;
        standing.jaw[i] = jaw;
    }
    standing
}
