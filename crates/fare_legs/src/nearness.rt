//! Which cities lie near each other.

ghost use Rattle.std.specs.Prelude.{◌≡◌, ◌≤◌};
ghost use Rattle.fare_trip.specs.Itinerary.{count};
ghost use Rattle.fare_legs.specs.Costs.{are_near};
ghost use Rattle.fare_legs.specs.Countries.{AreCountries};

use fare_codes::{City, Country};
use fare_component::Table;
use fare_lawful::{country, lie_together};
use fare_rules::MOST_POINTS;
use fare_tariff::Edition;

/// Whether two cities are the same, or lie in one country.
pub fn are_near(edition: &Edition, a: City, b: City) -> bool
    ensures { result ≡ are_near edition.now a b }
{
    a.is(b) || lie_together(edition, a, b)
}

/// The country of each point of the trip of a table, looked up once.
pub fn countries_of(table: &Table) -> [Option<Country>; MOST_POINTS]
    ensures { AreCountries table.now.edition table.now.trip result }
{
    let trip = table.trip();
    let count = trip.count();
    let mut countries = [None; MOST_POINTS];
    for i in 0..count + 1 {
        countries[i] = country(table.edition(), trip.point(i));
    }
    countries
}
