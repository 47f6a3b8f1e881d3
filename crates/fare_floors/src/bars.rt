//! Bars: what a unit of three parts or more costs at most in constructions up to a price, since what costs more, with
//! the least that all others cost, is above that.

ghost use Rattle.std.specs.Prelude.{◌≡◌, ℕ, ◌-◌, ◌<◌, ◌≤◌, IfSome, Some, None, true};
ghost use Rattle.fare_trip.specs.Itinerary.{count};
ghost use Rattle.fare_rules.specs.Construction.{begin_after};
ghost use Rattle.fare_homing.specs.Rows.{cell, AreHomingsOf};
ghost use Rattle.fare_homing.specs.Units.{IsBar};
ghost use Rattle.fare_legs.specs.Ceiling.{HasOneIndicator};
ghost use Rattle.fare_legs.specs.Costs.{is_same_city};

use fare_bounds::begin_after;
use fare_component::Table;
use fare_homing::{Bar, Ceiling, Homing, cell, greatest_turn, number_at, remake_barred};
use fare_legs::ceiling_of;

/// By how much at least a unit that comes home in the city where it began costs more than the least that one does
/// between its points, where it costs so much or more.
fn least_excess(table: &Table, homing: &Homing, dear: u64) -> u64
    ensures { (i j w : ℕ) → i < count table.now.trip → j ≤ count table.now.trip
        → is_same_city table.now.trip (begin_after table.now.trip i) j ≡ true → i < j
        → cell homing.now.whole i j ≡ Some w → result ≤ dear - w }
{
    let count = table.trip().count();
    let mut excess = u64::MAX;
    for i in 0..count {
        excess = excess.min(excess_from(table, homing, dear, i));
    }
    excess
}

/// The same of those that begin behind a point.
fn excess_from(table: &Table, homing: &Homing, dear: u64, i: usize) -> u64
    requires { i < count table.now.trip }
    ensures { (j w : ℕ) → j ≤ count table.now.trip → is_same_city table.now.trip (begin_after table.now.trip i) j ≡ true
        → i < j → cell homing.now.whole i j ≡ Some w → result ≤ dear - w }
{
    let trip = table.trip();
    let count = trip.count();
    let start = begin_after(trip, i);
    prove!(start <= count);
    let mut excess = u64::MAX;
    for j in i + 1..count + 1 {
        if !trip.point(j).is(trip.point(start)) {
            continue;
        }
        if let Some(whole) = cell(&homing.whole, i, j).amount() {
            excess = excess.min(dear.saturating_sub(whole));
        }
    }
    excess
}

/// What is known of the units of constructions up to a price, by what the dear ones of these cost at least.
#[tactic(auto, using(crate::proofs::BarLemmas::bar_is))]
fn bar_at(table: &Table, homing: &Homing, ceiling: Ceiling, dear: u64) -> Option<Bar>
    requires homings { AreHomingsOf table.now.edition table.now.trip homing.now }
    requires free { homing.now.ceiling ≡ None }
    requires ceiling { HasOneIndicator table.now.edition table.now.trip ceiling.indicator }
    requires dear { 1 ≤ dear }
    ensures { IfSome result (IsBar table.now.edition table.now.trip) }
{
    let Some(all) = number_at(&homing.rest, 0).amount() else {
        return None;
    };
    let least = all.saturating_add(least_excess(table, homing, dear));
    if least == 0 {
        return None;
    }
    Some(Bar {
        limit: least - 1,
        unit: Ceiling {
            price: dear - 1,
            indicator: ceiling.indicator,
        },
    })
}

/// What is known of the units of constructions up to a price, by the greatest circle minimum that is no more than
/// another price.
fn bar_under(table: &Table, homing: &Homing, price: u64) -> Option<Bar>
    requires homings { AreHomingsOf table.now.edition table.now.trip homing.now }
    requires free { homing.now.ceiling ≡ None }
    ensures { IfSome result (IsBar table.now.edition table.now.trip) }
{
    let Some(ceiling) = ceiling_of(table, Some(price)) else {
        return None;
    };
    let greatest = greatest_turn(table, ceiling);
    if greatest == 0 {
        return None;
    }
    bar_at(table, homing, ceiling, greatest)
}

/// Whether a price is a quarter more than what all costs at least, or above that.
fn is_raised(homing: &Homing, price: u64) -> bool {
    match number_at(&homing.rest, 0).amount() {
        None => false,
        Some(floor) => floor.saturating_add(floor / 4) <= price,
    }
}

/// Whether something is known of the units of constructions up to a price that is raised above what all costs at least.
fn says_more(homing: &Homing, bar: Option<Bar>) -> bool {
    match bar {
        None => false,
        Some(bar) => is_raised(homing, bar.limit),
    }
}

/// What is known of the units of constructions up to a price, where there is no ceiling yet: by the greatest circle
/// minimum that the price has room for, or else by the greatest of all.
fn bar_of(table: &Table, homing: &Homing, price: u64) -> Option<Bar>
    requires homings { AreHomingsOf table.now.edition table.now.trip homing.now }
    ensures { IfSome result (IsBar table.now.edition table.now.trip) }
{
    if homing.ceiling.is_some() {
        return None;
    }
    let within = bar_under(table, homing, price);
    if says_more(homing, within) {
        return within;
    }
    bar_under(table, homing, u64::MAX)
}

/// Adds to a homing without a ceiling what is known of the units of constructions up to a price that is raised above
/// what all costs at least.
pub fn add_bar(table: &Table, homing: &mut Homing, price: u64)
    requires homings { AreHomingsOf table.now.edition table.now.trip homing.old }
    ensures homings { AreHomingsOf table.now.edition table.now.trip homing.new }
{
    if is_raised(homing, price) {
        homing.bar = bar_of(table, homing, price);
    }
}

/// The price up to which something is known of the units, where that is no less than a price and a quarter more than
/// what all costs at least.
pub fn bar_limit(homing: &Homing, price: u64) -> Option<u64> {
    let Some(bar) = homing.bar else {
        return None;
    };
    if price <= bar.limit && is_raised(homing, bar.limit) {
        Some(bar.limit)
    } else {
        None
    }
}

/// Makes a homing anew under a ceiling at a price, by what is known of the units.
pub fn remake(homing: &mut Homing, table: &Table, price: u64)
    requires homings { AreHomingsOf table.now.edition table.now.trip homing.old }
    ensures homings { AreHomingsOf table.now.edition table.now.trip homing.new }
    ensures ceiling { IfSome homing.new.ceiling (λ ceiling. ceiling.price ≡ price) }
{
    let bar = homing.bar;
    remake_barred(homing, table, price, bar);
}
