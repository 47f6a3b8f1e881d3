//! The line of a construction.

ghost use Rattle.std.specs.Prelude.{◌≡◌, None};
ghost use Rattle.fare_rules.specs.Lawful.{first_broken};
ghost use Rattle.fare_calc.specs.LineOf.{line_of};

mod forms;
mod parts;
mod sectors;
mod units;

use crate::priced::Priced;
use crate::sheets::Sheets;
use fare_line::Line;
use fare_tariff::Edition;
use fare_trip::Trip;
use fare_units::Construction;
use forms::city_has_form;
use parts::line_parts;
use sectors::flown_sectors;
use units::plus_ups;

/// The calculation line of a lawful construction: the trip's flown sectors, the parts with their fares, the plus-ups of
/// its units, the price, and the rate of exchange of the country where the trip begins.
pub fn line_of(edition: &Edition, trip: &Trip, c: &Construction) -> Line
    requires { first_broken edition.now trip.now c.now ≡ None }
    ensures { result ≡ line_of edition.now trip.now c.now }
{
    line_by(&Sheets::of(&Priced::of(edition, trip, c)))
}

/// The calculation line by the sheets of a lawful construction.
#[tactic(auto, unfolding(crate::specs::LineOf::line_of, fare_line::specs::Line::is_line))]
pub fn line_by(sheets: &Sheets<'_>) -> Line
    ensures { result ≡ line_of sheets.now.edition sheets.now.trip sheets.now.parts }
{
    let trip = sheets.trip();
    let from = trip.point(0);
    city_has_form(from);
    Line {
        from,
        sectors: flown_sectors(trip),
        parts: line_parts(sheets),
        plus: plus_ups(sheets),
        total: sheets.price(),
        roe: sheets.currency().roe,
    }
}
