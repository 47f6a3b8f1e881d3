//! Units to which parts still have to come, among the first parts of a construction.

ghost use Rattle.std.specs.Prelude.{◌≡◌, ◌+◌, ◌<◌, ◌≤◌, length};
ghost use Rattle.std.specs.List.{list_any};
ghost use Rattle.fare_trip.specs.Itinerary.{count};
ghost use Rattle.fare_rules.specs.Construction.{own};
ghost use Rattle.fare_rules.specs.Numbers.{numbers};
ghost use Rattle.fare_lawful.specs.Advance.{Advances, EndsWithin};
ghost use Rattle.fare_units.specs.Onward.{is_shut_unit, must_go_on, is_in_city, is_in_country, may_come_home};
ghost use Rattle.fare_units.specs.Onward.{is_stranded, is_homeward};

use crate::prices::shut::is_shut;
use fare_codes::City;
use fare_lawful::{
    MOST_PARTS, end_of, heads_home, is_open_jaw, lie_together, origin, own, unit_of,
};
use fare_rules::Part;
use fare_tariff::Edition;
use fare_trip::Trip;

/// Whether a unit of the first parts of a construction is shut: it holds a one way fare, or closes, or is an open jaw
/// whose gap lies before its second part. No part can come to it any more.
pub fn is_shut_unit(edition: &Edition, trip: &Trip, parts: &[Part], unit: usize) -> bool
    requires few { length parts.now ≤ MOST_PARTS }
    requires advances { Advances trip.now parts.now }
    ensures { result ≡ is_shut_unit edition.now trip.now parts.now unit }
{
    let own = own(parts, unit);
    is_shut(edition, trip, parts, own.as_slice())
}

/// Whether the unit of some places must go on: it is neither shut nor, as it stands, an open jaw.
fn must_go_on_in(edition: &Edition, trip: &Trip, parts: &[Part], own: &[usize]) -> bool
    requires ends { EndsWithin trip.now parts.now }
    ensures { result ≡ must_go_on edition.now trip.now parts.now own.now }
{
    !is_shut(edition, trip, parts, own) && !is_open_jaw(edition, trip, parts, own)
}

/// Whether a unit of the first parts of a construction must go on: it is neither shut nor, as it stands, an open jaw.
pub fn must_go_on(edition: &Edition, trip: &Trip, parts: &[Part], unit: usize) -> bool
    requires few { length parts.now ≤ MOST_PARTS }
    requires advances { Advances trip.now parts.now }
    ensures { result ≡ must_go_on edition.now trip.now parts.now (own parts.now unit) }
{
    let own = own(parts, unit);
    must_go_on_in(edition, trip, parts, own.as_slice())
}

/// Whether a point of a trip is a city.
fn is_in_city(trip: &Trip, city: City, i: usize) -> bool
    requires { i ≤ count trip.now }
    ensures { result ≡ is_in_city trip.now city i }
{
    trip.point(i).is(city)
}

/// Whether a point of a trip lies in the country of a city.
fn is_in_country(edition: &Edition, trip: &Trip, city: City, i: usize) -> bool
    requires { i ≤ count trip.now }
    ensures { result ≡ is_in_country edition.now trip.now city i }
{
    lie_together(edition, trip.point(i), city)
}

/// Whether a city comes again behind a point.
fn city_comes(trip: &Trip, city: City, after: usize) -> bool
    requires small { after < 256 }
    ensures { result ≡ list_any (is_in_city trip.now city) (numbers (after + 1) (count trip.now + 1)) }
{
    let count = trip.count();
    (after + 1..count + 1).any(|i| is_in_city(trip, city, i))
}

/// Whether a city of the country of another one comes behind a point.
fn country_comes(edition: &Edition, trip: &Trip, city: City, after: usize) -> bool
    requires small { after < 256 }
    ensures { result
        ≡ list_any (is_in_country edition.now trip.now city) (numbers (after + 1) (count trip.now + 1)) }
{
    let count = trip.count();
    (after + 1..count + 1).any(|i| is_in_country(edition, trip, city, i))
}

/// Whether the unit of some places may come home behind the parts: its origin comes again there, or, where it has one
/// part, a city of the country of its origin, at which it may end as an open jaw.
fn may_come_home(edition: &Edition, trip: &Trip, parts: &[Part], own: &[usize]) -> bool
    requires ends { EndsWithin trip.now parts.now }
    ensures { result ≡ may_come_home edition.now trip.now parts.now own.now }
{
    let home = origin(trip, parts, own);
    let end = end_of(parts, parts.len());
    city_comes(trip, home, end) || own.len() < 2 && country_comes(edition, trip, home, end)
}

/// Whether a unit of the first parts of a construction is stranded: it must go on, and yet its origin does not come
/// again behind them, nor, where it has one part, a city of the country of its origin.
pub fn is_stranded(edition: &Edition, trip: &Trip, parts: &[Part], unit: usize) -> bool
    requires few { length parts.now ≤ MOST_PARTS }
    requires advances { Advances trip.now parts.now }
    ensures { result ≡ is_stranded edition.now trip.now parts.now unit }
{
    let own = own(parts, unit);
    must_go_on_in(edition, trip, parts, own.as_slice())
        && !may_come_home(edition, trip, parts, own.as_slice())
}

/// Whether a part heads home in its unit: it ends in the country of the unit's origin and begins in another.
pub fn is_homeward(edition: &Edition, trip: &Trip, parts: &[Part], k: usize) -> bool
    requires few { length parts.now ≤ MOST_PARTS }
    requires advances { Advances trip.now parts.now }
    ensures { result ≡ is_homeward edition.now trip.now parts.now k }
{
    let own = own(parts, unit_of(parts, k));
    heads_home(edition, trip, parts, own.as_slice(), k)
}
