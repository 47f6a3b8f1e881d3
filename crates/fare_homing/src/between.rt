//! Parts between the first and the last of a unit: what is behind a point until a unit closes, by one that comes next.

ghost use Rattle.std.specs.Prelude.{◌≡◌, ℕ, ◌+◌, ◌<◌, ◌≤◌, List, [], Some, false, if◌then◌else◌};
ghost use Rattle.fare_trip.specs.Itinerary.{count};
ghost use Rattle.fare_bounds.specs.Covers.{rest_at};
ghost use Rattle.fare_component.specs.Table.{entries_of};
ghost use Rattle.fare_legs.specs.Costs.{IsUpTo, between_cost, is_same_city};
ghost use Rattle.fare_homing.specs.HomingRows.{AreBetweens, IsBetween};
ghost use Rattle.fare_legs.specs.Least.{IsUnderEach};
ghost use Rattle.fare_rules.specs.Shape.{is_same_country};
ghost use Rattle.fare_rules.specs.Construction.{begin_after};
ghost use Rattle.fare_legs.specs.Legs.{AreLegsBehind, AreLegsOf};
ghost use Rattle.fare_homing.specs.Between.{cost_within};
ghost use Rattle.fare_homing.specs.Rows.{closing_from};
ghost use Rattle.fare_legs.specs.Countries.{country_at, heads_in, AreCountries};
ghost use Rattle.fare_legs.specs.Threes.{AreOfTwo};

use crate::homing::{Homing, closing_from};
use fare_bounds::begin_after;
use fare_codes::Country;
use fare_component::{Entry, Table};
use fare_lawful::is_same_country;
use fare_legs::{
    Floor, LegRows, NOTHING, added, half_cost, is_barred, is_too_dear, lesser, number_at, unless,
};
use fare_rules::MOST_POINTS;

/// A point where parts begin, with what they cost at least.
#[derive(Clone, Copy)]
pub(crate) struct Start<'a> {
    /// The point behind which that is.
    pub(crate) behind: usize,
    pub(crate) point: usize,
    pub(crate) legs: &'a LegRows,
    /// The countries of the points of the trip.
    pub(crate) countries: &'a [Option<Country>; MOST_POINTS],
    /// Fares whose rules no unit that begins there may have.
    pub(crate) barred: &'a [u32],
}

/// The start behind a point, of those of a trip.
pub(crate) fn start_at<'a>(
    table: &Table,
    legs: &'a [LegRows; MOST_POINTS],
    countries: &'a [Option<Country>; MOST_POINTS],
    barred: &'a [u32],
    i: usize,
) -> Start<'a>
    requires within { i < count table.now.trip }
    requires countries { AreCountries table.now.edition table.now.trip countries.now }
    ensures behind { result.behind ≡ i }
    ensures point { result.point ≡ begin_after table.now.trip i }
    ensures inside { result.point ≤ count table.now.trip }
    ensures countries { AreCountries table.now.edition table.now.trip result.countries.now }
    ensures barred { result.barred.now ≡ barred.now }
    ensures legs { (barred : List ℕ) → AreLegsBehind table.now.edition table.now.trip barred legs.now
        → AreLegsOf table.now.edition table.now.trip barred result.point result.legs.now }
{
    let trip = table.trip();
    let _sectors = trip.count();
    Start {
        behind: i,
        point: begin_after(trip, i),
        legs: &legs[i],
        countries,
        barred,
    }
}

/// Whether two points lie in one country.
pub(crate) fn lie_together(countries: &[Option<Country>; MOST_POINTS], a: usize, b: usize) -> bool
    requires one { a < MOST_POINTS }
    requires other { b < MOST_POINTS }
    ensures { result ≡ is_same_country (country_at countries.now a) (country_at countries.now b) }
{
    is_same_country(countries[a], countries[b])
}

/// Whether a part between two points heads home in a unit that closes at another: it comes into the country of the city
/// where the unit closes from outside it.
fn heads_in(countries: &[Option<Country>; MOST_POINTS], a: usize, b: usize, home: usize) -> bool
    requires start { a < MOST_POINTS }
    requires end { b < MOST_POINTS }
    requires home { home < MOST_POINTS }
    ensures { result ≡ heads_in countries.now a b home }
{
    lie_together(countries, b, home) && !lie_together(countries, a, home)
}

/// What a part between costs with an entry.
fn between_cost(entry: &Entry, heads: bool) -> Option<u64>
    ensures { result ≡ between_cost heads entry.now }
{
    if heads {
        half_cost(entry, &entry.back)
    } else {
        half_cost(entry, &entry.out)
    }
}

/// A part between from a point to another, in a unit that closes at a third.
#[derive(Clone, Copy)]
pub(crate) struct Between {
    pub(crate) start: usize,
    pub(crate) end: usize,
    pub(crate) home: usize,
    /// Whether it heads home.
    pub(crate) heads: bool,
}

/// What a part between costs with an entry, where its fare may be one of three in a unit and isn't too dear for a
/// ceiling.
fn cost_within(table: &Table, homing: &Homing, between: Between, entry: &Entry) -> Option<u64>
    requires rises { between.start < between.end }
    requires end { between.end ≤ count table.now.trip }
    requires home { between.home ≤ count table.now.trip }
    ensures { result ≡ cost_within table.now.edition table.now.trip homing.now.of_two homing.now.unit_ceiling between
        entry.now }
{
    let _sectors = table.trip().count();
    if is_barred(table.edition(), homing.of_two.as_slice(), entry.fare) {
        return None;
    }
    let cost = between_cost(entry, between.heads);
    let Some(ceiling) = homing.unit_ceiling else {
        return cost;
    };
    let (start, end) = (between.start, between.end);
    unless(
        is_too_dear(table, ceiling, start, between.home, end, entry.fare),
        cost,
    )
}

/// What a part between costs at least, of the fares that may be one of three in a unit and aren't too dear for a ceiling.
fn least_within(table: &Table, homing: &Homing, between: Between) -> Floor
    requires rises { between.start < between.end }
    requires end { between.end ≤ count table.now.trip }
    requires home { between.home ≤ count table.now.trip }
    ensures { IsUnderEach
        (cost_within table.now.edition table.now.trip homing.now.of_two homing.now.unit_ceiling between)
        (entries_of table.now.edition table.now.trip between.start between.end) result }
{
    let sectors = table.trip().count();
    prove!(between.end <= sectors);
    let mut least = NOTHING;
    for entry in table.entries(between.start, between.end) {
        least = lesser(least, Floor::of(cost_within(table, homing, between, entry)));
    }
    least
}

/// What a part between costs at least by the least of all parts of its span that go its way.
fn leg_to(start: &Start, b: usize, heads: bool) -> Floor
    ensures { result ≡ (if heads then rest_at start.now.legs.now.last b else rest_at start.now.legs.now.first b) }
{
    if heads {
        number_at(&start.legs.last, b)
    } else {
        number_at(&start.legs.first, b)
    }
}

/// What a part between costs at least that ends at a point, where its unit closes at another. Where all fares may be one
/// of three and there is no ceiling, that is known of each span.
fn step_to(table: &Table, homing: &Homing, start: &Start, home: usize, b: usize) -> Floor
    requires point { start.now.point < b }
    requires end { b ≤ count table.now.trip }
    requires home { home ≤ count table.now.trip }
    requires countries { AreCountries table.now.edition table.now.trip start.now.countries.now }
    requires legs { AreLegsOf table.now.edition table.now.trip [] start.now.point start.now.legs.now }
    requires of_two { AreOfTwo table.now.edition table.now.trip homing.now.of_two }
    ensures { (x : ℕ) → IsBetween table.now.edition table.now.trip homing.now.unit_ceiling start.now.point home b x
        → IsUpTo x result }
{
    let _sectors = table.trip().count();
    let heads = heads_in(start.countries, start.point, b, home);
    match homing.unit_ceiling {
        None if homing.of_two[0] == 0 => leg_to(start, b, heads),
        _ => {
            let between = Between {
                start: start.point,
                end: b,
                home,
                heads,
            };
            least_within(table, homing, between)
        }
    }
}

/// The least of all parts between that end before a point, elsewhere than in its city, with what is behind them until
/// their unit closes there.
fn reach_between(table: &Table, homing: &Homing, start: &Start, home: usize) -> Floor
    requires inside { start.now.point ≤ count table.now.trip }
    requires within { home ≤ count table.now.trip }
    requires countries { AreCountries table.now.edition table.now.trip start.now.countries.now }
    requires legs { AreLegsOf table.now.edition table.now.trip [] start.now.point start.now.legs.now }
    requires of_two { AreOfTwo table.now.edition table.now.trip homing.now.of_two }
    ensures { (b x y : ℕ) → start.now.point < b → b < home → is_same_city table.now.trip home b ≡ false
        → IsBetween table.now.edition table.now.trip homing.now.unit_ceiling start.now.point home b x
        → IsUpTo y (closing_from homing.now b b home) → IsUpTo (x + y) result }
{
    let trip = table.trip();
    let sectors = trip.count();
    prove!(home <= sectors);
    prove!(start.point <= sectors);
    let mut least = NOTHING;
    for b in start.point + 1..home {
        if trip.point(b).is(trip.point(home)) {
            continue;
        }
        let behind = closing_from(homing, b, b, home);
        least = lesser(least, added(step_to(table, homing, start, home, b), behind));
    }
    least
}

/// What the parts between that begin behind a point cost at least, by the point where their unit closes, with what is
/// behind them until then.
pub(crate) fn betweens_at(table: &Table, homing: &Homing, start: &Start) -> [Floor; MOST_POINTS]
    requires point { start.now.point ≡ begin_after table.now.trip start.now.behind }
    requires inside { start.now.point ≤ count table.now.trip }
    requires countries { AreCountries table.now.edition table.now.trip start.now.countries.now }
    requires legs { AreLegsOf table.now.edition table.now.trip [] start.now.point start.now.legs.now }
    requires of_two { AreOfTwo table.now.edition table.now.trip homing.now.of_two }
    ensures { AreBetweens table.now.edition table.now.trip homing.now.unit_ceiling (λ b. closing_from homing.now b b)
        start.now.behind (rest_at result) }
{
    let count = table.trip().count();
    let mut least = [NOTHING; MOST_POINTS];
    for j in start.point + 1..count + 1 {
        least[j] = reach_between(table, homing, start, j);
    }
    least
}
