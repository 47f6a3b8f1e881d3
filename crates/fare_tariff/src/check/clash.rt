//! Whether a record clashes with those before it. For a fare it is found in one walk over the fares of its cities and
//! its indicator, which ends at the fare or at the limit.

ghost use Rattle.std.specs.Prelude.{◌≡◌, ◌<◌, length, slice_index_or, take};
ghost use Rattle.std.specs.List.{position_from};
ghost use Rattle.fare_index.specs.declared.key.Key.TheVariants.{Fares};
ghost use Rattle.fare_records.specs.declared.record.Record.{Record};
ghost use Rattle.fare_tariff.specs.Faulty.{clashes, clash_of};
ghost use Rattle.fare_records.specs.Keyed.{has_own_key, own_key};

use crate::check::keys::{before, key_of};
use crate::look_up::{Sought, is_sought};
use fare_codes::Season;
use fare_records::{FareKey, Filed, MOST_FARES_BETWEEN, Record};

/// Whether a fare before a place has a key and a season that overlaps a season, or as many fares before the place as
/// there may be have the cities and the indicator of the key. The first fare with these is at a place that is known.
fn clashes(filed: &Filed, place: usize, first: Option<usize>, key: &FareKey, season: Season) -> bool
    requires { first ≡ position_from (has_own_key (Fares key.now.from key.now.to key.now.ind)) 0 filed.now }
    ensures { result ≡ clashes (take place filed.now) key.now season }
{
    let sought = Sought::Over(season);
    let mut passed = 0usize;
    let mut at = first;
    while let Some(other) = at {
        if other >= place {
            return false;
        }
        if passed >= MOST_FARES_BETWEEN - 1 {
            return true;
        }
        if is_sought(key, &sought, &filed.records()[other]) {
            return true;
        }
        passed += 1;
        at = filed.next(other);
    }
    false
}

/// Whether the record at a place clashes with one before it. The first record with its key is at a place that is known.
fn clash_from(filed: &Filed, place: usize, one: &Record, first: Option<usize>) -> bool
    requires at { one.now ≡ slice_index_or filed.now place one.now }
    requires first { (d : Record) → first
        ≡ position_from (has_own_key (own_key (slice_index_or filed.now place d))) 0 filed.now }
    ensures { result ≡ clash_of (take place filed.now) one.now }
{
    match one {
        Record::Fare(fare) => clashes(filed, place, first, &key_of(fare), fare.season),
        _ => before(place, first).is_some(),
    }
}

/// Whether the record at a place clashes with one before it.
pub(crate) fn clash_at(filed: &Filed, place: usize, one: &Record) -> bool
    requires within { place < length filed.now }
    requires at { one.now ≡ slice_index_or filed.now place one.now }
    ensures { result ≡ clash_of (take place filed.now) one.now }
{
    clash_from(filed, place, one, filed.first_at(place))
}
