//! The trip of a drill.

ghost use Rattle.std.specs.Prelude.{◌≡◌, ◌≤◌, map};
ghost use Rattle.std.specs.List.{range_with_len};
ghost use Rattle.fare_drill.specs.Drill.{drill_point, drill_sector, drill_trip};

use crate::cities::city;
use crate::days::{sale_day, travel_day};
use arrayvec::ArrayVec;
use fare_codes::{Cabin, Carrier, City, MOST_SECTORS, Over};
use fare_trip::{Sector, Trip};

/// The trip of a drill.
#[tactic(auto, using(crate::proofs::TripMade::drill_trip_is_made))]
pub(crate) fn drill_trip(sectors: u32) -> Trip
    requires some { 1 ≤ sectors }
    requires few { sectors ≤ MOST_SECTORS }
    ensures { result ≡ drill_trip sectors }
{
    let flown = drill_sectors(sectors);
    Trip::new(sale_day(), drill_point(sectors, 0), flown.as_slice()).unwrap()
}

/// The sectors of the trip.
fn drill_sectors(sectors: u32) -> ArrayVec<Sector, MOST_SECTORS>
    requires { sectors ≤ MOST_SECTORS }
    ensures { result.items ≡ map (drill_sector sectors) (range_with_len 1 sectors) }
{
    let mut flown = ArrayVec::new();
    for i in 1..sectors + 1 {
        flown.push(drill_sector(sectors, i));
    }
    flown
}

/// The sector that reaches a point of the trip.
fn drill_sector(sectors: u32, i: u32) -> Sector
    ensures { result ≡ drill_sector sectors i }
{
    Sector {
        to: drill_point(sectors, i),
        carrier: Carrier::read(b"Q1").unwrap(),
        day: travel_day(),
        cabin: Cabin::Y,
        over: Over::Unmarked,
        stop: true,
        surface: false,
    }
}

/// A point of the trip: the city of its number; where there is no such city the trip is back at the first one.
fn drill_point(sectors: u32, i: u32) -> City
    ensures { result ≡ drill_point sectors i }
{
    if i < sectors.max(2) { city(i) } else { city(0) }
}
