//! Unordered pairs of cities: a key has the lesser city first.

ghost use Rattle.std.specs.Prelude.{◌≡◌};
ghost use Rattle.fare_index.specs.Pairs.{lesser, greater, permitted_key, ticketed_key, extra_key};

use crate::key::Key;
use fare_codes::{City, Indicator};

/// Two cities, the lesser first.
fn ordered(a: City, b: City) -> (City, City)
    ensures first { result.0 ≡ lesser a b }
    ensures second { result.1 ≡ greater a b }
{
    if a.is_before(b) { (a, b) } else { (b, a) }
}

impl Key {
    /// The key of the maximum permitted mileage of an unordered pair of cities and an indicator.
    pub fn permitted(a: City, b: City, ind: Indicator) -> Key
        ensures { result ≡ permitted_key a b ind }
    {
        let (first, second) = ordered(a, b);
        Key::Permitted(first, second, ind)
    }

    /// The key of the ticketed point mileage of an unordered pair of cities.
    pub fn ticketed(a: City, b: City) -> Key
        ensures { result ≡ ticketed_key a b }
    {
        let (first, second) = ordered(a, b);
        Key::Ticketed(first, second)
    }

    /// The key of the extra mileage allowance of an unordered pair of cities and an indicator by way of a city, or of
    /// every way.
    pub fn extra(a: City, b: City, ind: Indicator, via: Option<City>) -> Key
        ensures { result ≡ extra_key a b ind via }
    {
        let (first, second) = ordered(a, b);
        Key::Extra(first, second, ind, via)
    }
}
