//! Whether two cities lie in one country.

ghost use Rattle.std.specs.Prelude.{◌≡◌};
ghost use Rattle.fare_rules.specs.Indicator.{country};
ghost use Rattle.fare_rules.specs.Shape.{is_same_country, lie_together};

use fare_codes::{City, Country};
use fare_tariff::Edition;

/// The country of a city.
pub fn country(edition: &Edition, city: City) -> Option<Country>
    ensures { result ≡ country edition.now city }
{
    match edition.city(city) {
        None => None,
        Some(filed) => Some(filed.country),
    }
}

/// Whether two countries are there and the same.
pub fn is_same_country(a: Option<Country>, b: Option<Country>) -> bool
    ensures { result ≡ is_same_country a b }
{
    match (a, b) {
        (Some(a), Some(b)) => a.is(b),
        _ => false,
    }
}

/// Whether two cities lie in one country; false where the edition has no record of one of them.
pub fn lie_together(edition: &Edition, a: City, b: City) -> bool
    ensures { result ≡ lie_together edition.now a b }
{
    is_same_country(country(edition, a), country(edition, b))
}
