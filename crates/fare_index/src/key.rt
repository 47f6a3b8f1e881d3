ghost use Rattle.std.specs.Prelude.{◌≡◌};
ghost use Rattle.fare_index.specs.Key.{same_via};

use fare_codes::{City, Country, Indicator, RuleId};
use std::hash::{Hash, Hasher};

/// The key by which a filed record is found. Fares share one where their cities and their indicator are the same.
#[derive(Clone, Copy, Debug)]
pub enum Key {
    /// A city.
    City(City),
    /// A country's currency.
    Currency(Country),
    /// A rule.
    Rule(RuleId),
    /// The fares from a city to another for an indicator.
    Fares(City, City, Indicator),
    /// The maximum permitted mileage of a pair of cities and an indicator.
    Permitted(City, City, Indicator),
    /// The ticketed point mileage of a pair of cities.
    Ticketed(City, City),
    /// The extra mileage allowance of a pair of cities and an indicator, by way of a city or every way.
    Extra(City, City, Indicator, Option<City>),
}

impl PartialEq for Key {
    ghost use Rattle.fare_index.specs.Key.{same_key};
    ghost use Rattle.fare_index.specs.SameKeys.{same_key-IsPartialEquivalence};

    ghost eq = { same_key };

    ghost laws = { same_key-IsPartialEquivalence };

    fn eq(&self, other: &Key) -> bool {
        match (self, other) {
            (Key::City(a), Key::City(b)) => a.is(*b),
            (Key::Currency(a), Key::Currency(b)) => a.is(*b),
            (Key::Rule(a), Key::Rule(b)) => a.is(*b),
            (Key::Fares(a, b, i), Key::Fares(c, d, j)) => a.is(*c) && b.is(*d) && i.is(*j),
            (Key::Permitted(a, b, i), Key::Permitted(c, d, j)) => {
                a.is(*c) && b.is(*d) && i.is(*j)
            }
            (Key::Ticketed(a, b), Key::Ticketed(c, d)) => a.is(*c) && b.is(*d),
            (Key::Extra(a, b, i, v), Key::Extra(c, d, j, w)) => {
                a.is(*c) && b.is(*d) && i.is(*j) && same_via(v, w)
            }
            _ => false,
        }
    }
}

impl Eq for Key {
    ghost use Rattle.fare_index.specs.SameKeys.{same_key-IsEquivalence};

    ghost laws = { same_key-IsEquivalence };
}

/// Its codes alone are hashed, since each write costs as much as the comparison of a key: the few keys of one pair of
/// cities that differ in their kind or their indicator share a hash.
impl Hash for Key {
    ghost use Rattle.fare_index.specs.Hashed.{written, written_alike};

    ghost hash_input = { written };

    ghost respects_eq = { written_alike };

    fn hash<H: Hasher>(&self, state: &mut H) {
        match self {
            Key::City(city) => city.hash(state),
            Key::Currency(country) => state.write(country.text().as_bytes()),
            Key::Rule(id) => id.hash(state),
            Key::Fares(from, to, _) => {
                from.hash(state);
                to.hash(state);
            }
            Key::Permitted(first, second, _) => {
                second.hash(state);
                first.hash(state);
            }
            Key::Ticketed(first, second) => {
                second.hash(state);
                first.hash(state);
            }
            Key::Extra(first, second, _, via) => {
                second.hash(state);
                first.hash(state);
                if let Some(city) = via {
                    city.hash(state);
                }
            }
        }
    }
}

/// Whether two via fields are the same, of which nothing is every way.
fn same_via(a: &Option<City>, b: &Option<City>) -> bool
    ensures { result ≡ same_via a.now b.now }
{
    match (a, b) {
        (None, None) => true,
        (Some(a), Some(b)) => a.is(*b),
        _ => false,
    }
}
