ghost use Rattle.std.specs.Prelude.{◌≡◌, ◌+◌, ◌-◌, ◌*◌, ◌<◌, ◌≤◌, IfSome};
ghost use Rattle.fare_trip.specs.Itinerary.{count};
ghost use Rattle.fare_rules.specs.Construction.{begin_after};
ghost use Rattle.fare_bounds.specs.Covers.{AreRests, IsCover, IsLeast, rest_at};
ghost use Rattle.fare_bounds.specs.Search.{AreInBounds, AreRestsFrom, sum_of};

use crate::costs::{cheapest, lesser};
use crate::limits::COST_LIMIT;
use fare_codes::MOST_SECTORS;
use fare_component::{Table, entries_are_of_fares};
use fare_rules::{MOST_POINTS, PRICE_LIMIT};
use fare_trip::Trip;
use std::marker::Model;

/// The least that the rest of a trip can cost from each of its points on. A contract sees the list of these rests.
#[derive(Drop)]
pub struct Rest {
    least: [Option<u64>; MOST_POINTS],
}

impl Model for Rest {
    ghost use Rattle.std.specs.Prelude.{◌≡◌, List, ℕ, Option, length};
    ghost use Rattle.fare_rules.specs.declared.limits.TheConstants.{MOST_POINTS};
    ghost use Rattle.fare_bounds.specs.Search.{AreInBounds};

    ghost Value = { List (Option ℕ) };

    ghost view = { λ r. r.least };

    ghost invariant = { λ r. (length r.least ≡ MOST_POINTS) × AreInBounds r.least };
}

impl Rest {
    /// The rests of the trip of a table.
    pub fn of(table: &Table) -> Rest
        ensures { AreRests table.now.edition table.now.trip result }
    {
        entries_are_of_fares();
        let count = table.trip().count();
        let mut least = [None; MOST_POINTS];
        least[count] = Some(0);
        for i in (0..count).rev() {
            least[i] = rest_from(table, &least, i);
        }
        Rest { least }
    }

    /// The least sum, over all ways to cover the air sectors behind a point by entries of the table, of the prices of
    /// one way units and the lesser amounts of half round trips, in hundredths; nothing exactly where there is no such
    /// way. At the trip's end it is 0.
    pub fn from_point(&self, i: usize) -> Option<u64>
        ensures value { result ≡ rest_at self.now i }
        ensures bound { IfSome result (λ least. least < PRICE_LIMIT) }
    {
        if i < MOST_POINTS { self.least[i] } else { None }
    }
}

/// Where the first leg behind a point begins: there, or one point later where a surface sector stands there.
pub fn begin_after(trip: &Trip, i: usize) -> usize
    requires { i < count trip.now }
    ensures value { result ≡ begin_after trip.now i }
    ensures low { i ≤ result }
    ensures high { result ≤ i + 1 }
{
    let count = trip.count();
    prove!(i < count);
    if trip.sector(i + 1).surface { i + 1 } else { i }
}

/// The sum of two amounts, where there are both.
pub fn sum_of(a: Option<u64>, b: Option<u64>) -> Option<u64>
    requires first { IfSome a (λ cost. cost < COST_LIMIT) }
    requires second { IfSome b (λ rest. rest < PRICE_LIMIT) }
    ensures value { result ≡ sum_of a b }
{
    match (a, b) {
        (Some(x), Some(y)) => Some(x + y),
        _ => None,
    }
}

/// The rest from a point on, by those of all later points.
fn rest_from(table: &Table, rests: &[Option<u64>; MOST_POINTS], i: usize) -> Option<u64>
    requires within { i < count table.now.trip }
    requires later { AreRestsFrom table.now.edition table.now.trip (i + 1) rests.now }
    requires bounds { AreInBounds rests.now }
    ensures least { IsLeast (IsCover table.now.edition table.now.trip i) result }
    ensures bound { IfSome result (λ rest. rest ≤ (MOST_SECTORS - i) * COST_LIMIT) }
{
    entries_are_of_fares();
    let trip = table.trip();
    let count = trip.count();
    let a = begin_after(trip, i);
    let mut least = None;
    for b in a + 1..count + 1 {
        least = lesser(least, sum_of(cheapest(table.entries(a, b)), rests[b]));
    }
    least
}
