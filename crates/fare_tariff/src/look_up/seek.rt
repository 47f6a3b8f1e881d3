//! The first fare with a key whose season is of some kind, found among the fares of its cities and its indicator.

ghost use Rattle.std.specs.Prelude.{◌≡◌, ◌<◌, length, position, IfSome};
ghost use Rattle.std.specs.List.{position_from};
ghost use Rattle.fare_index.specs.declared.key.Key.TheVariants.{Fares};
ghost use Rattle.fare_records.specs.Keyed.{has_own_key};
ghost use Rattle.fare_tariff.specs.Sought.{is_sought};

use crate::look_up::has_key;
use fare_codes::{MonthDay, Season};
use fare_index::Key;
use fare_records::{FareKey, Filed, Record, seasons_overlap};

/// Which season a fare that is sought has.
#[derive(Clone, Copy)]
pub(crate) enum Sought {
    /// One that holds a day.
    On(MonthDay),
    /// Just this one.
    Of(Season),
    /// One that overlaps this one.
    Over(Season),
}

/// Whether a record files a fare that has a key and is sought.
pub(crate) fn is_sought(key: &FareKey, sought: &Sought, one: &Record) -> bool
    ensures { result ≡ is_sought key.now sought.now one.now }
{
    match one {
        Record::Fare(filed) => match sought {
            Sought::On(day) => has_key(key, filed) && filed.season.holds(*day),
            Sought::Of(season) => has_key(key, filed) && filed.season.is(*season),
            Sought::Over(season) => has_key(key, filed) && seasons_overlap(&filed.season, season),
        },
        _ => false,
    }
}

/// The place of the first fare that has a key and is sought, where this is the first place of a fare between its cities
/// for its indicator.
pub(crate) fn first_fare_from(
    filed: &Filed,
    key: &FareKey,
    sought: &Sought,
    first: Option<usize>,
) -> Option<usize>
    requires { first ≡ position_from (has_own_key (Fares key.now.from key.now.to key.now.ind)) 0 filed.now }
    ensures place { result ≡ position (is_sought key.now sought.now) filed.now }
    ensures within { IfSome result (λ place. place < length filed.now) }
{
    let mut at = first;
    while let Some(place) = at {
        if is_sought(key, sought, &filed.records()[place]) {
            return Some(place);
        }
        at = filed.next(place);
    }
    None
}

/// The first place of a fare between the cities of a key for its indicator.
pub(crate) fn first_between(filed: &Filed, key: &FareKey) -> Option<usize>
    ensures { result ≡ position_from (has_own_key (Fares key.now.from key.now.to key.now.ind)) 0 filed.now }
{
    filed.first(&Key::Fares(key.from, key.to, key.ind))
}

/// The place of the first fare that has a key and is sought.
pub(crate) fn first_fare(filed: &Filed, key: &FareKey, sought: &Sought) -> Option<usize>
    ensures place { result ≡ position (is_sought key.now sought.now) filed.now }
    ensures within { IfSome result (λ place. place < length filed.now) }
{
    first_fare_from(filed, key, sought, first_between(filed, key))
}
