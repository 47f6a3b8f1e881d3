//! Homing: what the parts behind a point of a trip cost at least until a unit comes home, at each later point.

ghost use Rattle.std.specs.Prelude.{◌≡◌, ◌<◌, ◌≤◌, IfSome, Some, slice_index_or};
ghost use Rattle.fare_trip.specs.Itinerary.{Itinerary, count, point};
ghost use Rattle.fare_tariff.specs.Tariff.{Tariff};
ghost use Rattle.fare_bounds.specs.Covers.{rest_at};
ghost use Rattle.fare_legs.specs.Ceiling.{IsCeiling};
ghost use Rattle.fare_legs.specs.Costs.{are_near};
ghost use Rattle.fare_homing.specs.Units.{IsBar, IsUnitCeiling};
ghost use Rattle.fare_homing.specs.Rows.{cell, begun_from, closing_from, jaw_from, no_standing, AreHomingsOf};

use crate::between::{betweens_at, lie_together, start_at};
use crate::onward::{Onwards, without_barred};
use crate::reaching::least_onward;
use crate::standing::standing_at;
use crate::whole::wholes_at;
use fare_codes::Country;
use fare_component::Table;
use fare_legs::{
    Ceiling, Floor, MOST_LONELY, MOST_RULES, NOTHING, ceiling_of, countries_of, fares_of_two,
    legs_behind, lonely_fares, number_at,
};
use fare_rules::MOST_POINTS;

/// What is behind each point of a trip at least until a unit comes home that stands in the city of one point.
#[derive(Clone, Copy)]
pub struct Standing {
    /// Until it closes, in the city where it began, where it has one part so far: by the point behind which its next
    /// part comes, and that where it ends.
    pub begun: [[Floor; MOST_POINTS]; MOST_POINTS],
    /// The same where it has more.
    pub closing: [[Floor; MOST_POINTS]; MOST_POINTS],
    /// Until it ends as an open jaw, where it has one part so far.
    pub jaw: [[Floor; MOST_POINTS]; MOST_POINTS],
}

/// What each unit of three parts or more costs at most in each lawful construction up to a price.
#[derive(Clone, Copy)]
pub struct Bar {
    /// The price of the construction, in NUC hundredths.
    pub limit: u64,
    /// What such a unit costs at most.
    pub unit: Ceiling,
}

/// What is behind each point of a trip at least.
#[derive(Drop)]
pub struct Homing {
    /// Until a unit comes home, by the point in whose city it stands.
    pub standing: [Standing; MOST_POINTS],
    /// One whole unit: by the point behind which it begins and that where it ends.
    pub whole: [[Floor; MOST_POINTS]; MOST_POINTS],
    /// All that is behind the point, where no unit is open.
    pub rest: [Floor; MOST_POINTS],
    /// The country of each point of the trip.
    pub countries: [Option<Country>; MOST_POINTS],
    /// The record number of one fare of each rule that doesn't combine end on end with itself, of the one way fares: of
    /// as many rules as are told apart; 0 at the places that are free.
    pub lonely: [u32; MOST_LONELY],
    /// The record number of one fare of each rule of which no unit of three parts or more can have one; 0 at the places
    /// that are free, which stand behind the others.
    pub of_two: [u32; MOST_RULES],
    /// The ceiling under which the numbers hold: of what costs more they say nothing.
    pub ceiling: Option<Ceiling>,
    /// What is known of the units of constructions up to a price.
    pub bar: Option<Bar>,
    /// The ceiling of each unit of three parts or more in what is under the ceiling of all.
    pub unit_ceiling: Option<Ceiling>,
    /// All that is behind the point, where no unit is open and some fares are barred.
    pub onwards: Onwards,
}

/// A number by its two points.
pub fn cell(rows: &[[Floor; MOST_POINTS]; MOST_POINTS], i: usize, j: usize) -> Floor
    ensures { result ≡ cell rows.now i j }
{
    if i < MOST_POINTS {
        number_at(&rows[i], j)
    } else {
        NOTHING
    }
}

/// A number of one of some standings until a unit closes that has one part so far.
fn begun_in(standings: &[Standing; MOST_POINTS], stand: usize, i: usize, home: usize) -> Floor
    ensures { result ≡ cell (slice_index_or standings.now stand no_standing).begun i home }
{
    if stand < MOST_POINTS {
        cell(&standings[stand].begun, i, home)
    } else {
        NOTHING
    }
}

/// The same of a unit that has more.
fn closing_in(standings: &[Standing; MOST_POINTS], stand: usize, i: usize, home: usize) -> Floor
    ensures { result ≡ cell (slice_index_or standings.now stand no_standing).closing i home }
{
    if stand < MOST_POINTS {
        cell(&standings[stand].closing, i, home)
    } else {
        NOTHING
    }
}

/// The same of one that has one part so far, until it ends as an open jaw.
fn jaw_in(standings: &[Standing; MOST_POINTS], stand: usize, i: usize, home: usize) -> Floor
    ensures { result ≡ cell (slice_index_or standings.now stand no_standing).jaw i home }
{
    if stand < MOST_POINTS {
        cell(&standings[stand].jaw, i, home)
    } else {
        NOTHING
    }
}

/// What is behind a point until a unit that stands in the city of another closes at a third, where it has one part so
/// far.
pub fn begun_from(homing: &Homing, stand: usize, i: usize, home: usize) -> Floor
    ensures { result ≡ begun_from homing.now stand i home }
{
    begun_in(&homing.standing, stand, i, home)
}

/// The same where it has more.
pub fn closing_from(homing: &Homing, stand: usize, i: usize, home: usize) -> Floor
    ensures { result ≡ closing_from homing.now stand i home }
{
    closing_in(&homing.standing, stand, i, home)
}

/// The same until it ends there as an open jaw, where it has one part so far.
pub fn jaw_from(homing: &Homing, stand: usize, i: usize, home: usize) -> Floor
    ensures { result ≡ jaw_from homing.now stand i home }
{
    jaw_in(&homing.standing, stand, i, home)
}

/// Whether two points of a trip are in one city, or in one country.
pub fn lie_near(table: &Table, homing: &Homing, a: usize, b: usize) -> bool
    requires homing { AreHomingsOf table.now.edition table.now.trip homing.now }
    requires first { a ≤ count table.now.trip }
    requires second { b ≤ count table.now.trip }
    ensures { result ≡ are_near table.now.edition (point table.now.trip a) (point table.now.trip b) }
{
    let trip = table.trip();
    let count = trip.count();
    prove!(a <= count);
    prove!(b <= count);
    trip.point(a).is(trip.point(b)) || lie_together(&homing.countries, a, b)
}

/// What is behind the end of a trip: nothing that costs, and behind no other point is anything known.
fn rest_at_end(count: usize) -> [Floor; MOST_POINTS]
    requires { count < MOST_POINTS }
    ensures { rest_at result count ≡ Some 0 }
{
    let mut rest = [NOTHING; MOST_POINTS];
    rest[count] = Floor::of(Some(0));
    rest
}

/// Numbers of which none is known, for `make_homing`. They fill many pages, and each copy is as much of the time of a
/// short trip, so whoever needs them has the one place in which they are put right.
#[inline(never)]
pub fn unknown_homing() -> Homing {
    let rows = [[NOTHING; MOST_POINTS]; MOST_POINTS];
    let none = Standing {
        begun: rows,
        closing: rows,
        jaw: rows,
    };
    let rest = [NOTHING; MOST_POINTS];
    Homing {
        standing: [none; MOST_POINTS],
        whole: rows,
        rest,
        countries: [None; MOST_POINTS],
        lonely: [0; MOST_LONELY],
        of_two: [0; MOST_RULES],
        ceiling: None,
        bar: None,
        unit_ceiling: None,
        onwards: without_barred(&rest),
    }
}

/// The ceiling of each unit in what is under a ceiling of all: that of a bar where this holds there and says more.
fn unit_ceiling_by(known: Ceiling, bar: Bar) -> Ceiling
    ensures { (tariff : Tariff) (trip : Itinerary) → IsCeiling tariff trip (Some known) → IsBar tariff trip bar
        → IsUnitCeiling tariff trip (Some known) (Some result) }
{
    if bar.limit < known.price {
        return known;
    }
    if known.price <= bar.unit.price {
        return known;
    }
    bar.unit
}

/// The same where there are a ceiling and a bar.
fn unit_ceiling_of(ceiling: Option<Ceiling>, bar: Option<Bar>) -> Option<Ceiling>
    ensures { (tariff : Tariff) (trip : Itinerary) → IsCeiling tariff trip ceiling → IfSome bar (IsBar tariff trip)
        → IsUnitCeiling tariff trip ceiling result }
{
    let Some(known) = ceiling else {
        return None;
    };
    match bar {
        None => Some(known),
        Some(bar) => Some(unit_ceiling_by(known, bar)),
    }
}

/// Makes the homing of the trip of a table in the place of another, under a ceiling where a price is given, and by what
/// is known of the units of constructions up to another price.
#[inline(never)]
fn make(homing: &mut Homing, table: &Table, price: Option<u64>, bar: Option<Bar>)
    requires { IfSome bar (IsBar table.now.edition table.now.trip) }
    ensures homings { AreHomingsOf table.now.edition table.now.trip homing.new }
    ensures ceiling { IfSome homing.new.ceiling (λ ceiling. price ≡ Some ceiling.price) }
{
    let trip = table.trip();
    let count = trip.count();
    let none: [u32; 0] = [];
    let barred = none.as_slice();
    let legs = legs_behind(table, barred);
    homing.countries = countries_of(table);
    homing.lonely = lonely_fares(table);
    homing.of_two = fares_of_two(table);
    homing.ceiling = ceiling_of(table, price);
    homing.bar = bar;
    homing.unit_ceiling = unit_ceiling_of(homing.ceiling, bar);
    homing.rest = rest_at_end(count);
    let mut betweens = [[NOTHING; MOST_POINTS]; MOST_POINTS];
    for c in (0..count).rev() {
        let start = start_at(table, &legs, &homing.countries, barred, c);
        let between = betweens_at(table, homing, &start);
        betweens[c] = between;
        let whole = wholes_at(table, homing, &start);
        homing.whole[c] = whole;
        homing.rest[c] = least_onward(&whole, &homing.rest, c, count + 1);
        let standing = standing_at(table, &legs, &betweens, homing, c);
        homing.standing[c] = standing;
    }
    homing.onwards = without_barred(&homing.rest);
}

/// Makes the homing of the trip of a table in the place of another, under a ceiling where a price is given; of its
/// units nothing is known.
pub fn make_homing(homing: &mut Homing, table: &Table, price: Option<u64>)
    ensures homings { AreHomingsOf table.now.edition table.now.trip homing.new }
    ensures ceiling { IfSome homing.new.ceiling (λ ceiling. price ≡ Some ceiling.price) }
{
    make(homing, table, price, None);
}

/// Makes a homing anew under a ceiling at a price, by what is known of units.
pub fn remake_barred(homing: &mut Homing, table: &Table, price: u64, bar: Option<Bar>)
    requires { IfSome bar (IsBar table.now.edition table.now.trip) }
    ensures homings { AreHomingsOf table.now.edition table.now.trip homing.new }
    ensures ceiling { IfSome homing.new.ceiling (λ ceiling. ceiling.price ≡ price) }
{
    make(homing, table, Some(price), bar);
}
