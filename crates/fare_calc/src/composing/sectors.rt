//! The flown sectors of a line.

ghost use Rattle.std.specs.Prelude.{◌≡◌, ◌==◌, ◌&&◌, ◌≤◌, true, not, IfSome};
ghost use Rattle.std.specs.List.{list_all};
ghost use Rattle.fare_trip.specs.Itinerary.{count};
ghost use Rattle.fare_line.specs.Line.{is_flown};
ghost use Rattle.fare_calc.specs.LineOf.{flown_from, flown_of, flown_sector};

use crate::composing::forms::{carrier_has_form, city_has_form};
use crate::keeping::keep;
use arrayvec::ArrayVec;
use fare_codes::MOST_SECTORS;
use fare_line::LineSector;
use fare_trip::Trip;

/// Whether a point is marked: it is no stopover, and not the last point.
fn is_marked(stop: bool, number: usize, last: usize) -> bool
    ensures { result ≡ (not stop && not (number == last)) }
{
    !stop && number != last
}

/// A flown sector of a line.
fn flown_sector(trip: &Trip, number: usize) -> LineSector
    requires from_one { 1 ≤ number }
    requires to_count { number ≤ count trip.now }
    ensures value { result ≡ flown_sector trip.now number }
    ensures form { is_flown result ≡ true }
{
    let sector = trip.sector(number);
    carrier_has_form(sector.carrier);
    city_has_form(sector.to);
    LineSector {
        carrier: sector.carrier,
        transfer: is_marked(sector.stop, number, trip.count()),
        to: sector.to,
    }
}

/// The sector of a line for a sector of the trip, where that is no surface sector.
fn flown_of(trip: &Trip, number: usize) -> Option<LineSector>
    requires from_one { 1 ≤ number }
    requires to_count { number ≤ count trip.now }
    ensures value { result ≡ flown_of trip.now number }
    ensures form { IfSome result (λ sector. is_flown sector ≡ true) }
{
    let sector = trip.sector(number);
    if sector.surface {
        return None;
    }
    Some(flown_sector(trip, number))
}

/// The flown sectors of a trip.
pub(crate) fn flown_sectors(trip: &Trip) -> ArrayVec<LineSector, MOST_SECTORS>
    ensures sectors { result.items ≡ flown_from trip.now 1 }
    ensures form { list_all is_flown result.items ≡ true }
{
    let mut flown = ArrayVec::new();
    for number in 0..trip.count() {
        keep(&mut flown, flown_of(trip, number + 1));
    }
    flown
}
