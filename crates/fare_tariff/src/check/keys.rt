//! Records with the same key, and fares whose seasons overlap.

ghost use Rattle.std.specs.Prelude.{◌≡◌, ◌<◌, ◌≤◌, length, position, take, IfSome};
ghost use Rattle.fare_tariff.specs.Check.{key_of, has_key_of, first_number, overlap_of};
ghost use Rattle.fare_records.specs.Keyed.{before};

use crate::look_up::{Sought, first_fare, number_at};
use fare_index::Keyed;
use fare_records::{FareKey, FareRec, Filed, MOST_PLACES, Record};

/// The key of a filed fare without its season.
pub(crate) fn key_of(fare: &FareRec) -> FareKey
    ensures { result ≡ key_of fare.now }
{
    FareKey {
        from: fare.from,
        to: fare.to,
        ind: fare.ind,
        carrier: fare.carrier,
        class: fare.class,
        kind: fare.kind,
        rule: fare.rule,
    }
}

/// A place, if it stands before another.
pub(crate) fn before(place: usize, found: Option<usize>) -> Option<usize>
    ensures before { result ≡ before place found }
    ensures within { IfSome result (λ first. first < place) }
{
    match found {
        Some(first) => { if first < place { Some(first) } else { None } }
        None => None,
    }
}

/// The place of the first record with the key of a record.
fn first_of_key(filed: &Filed, one: &Record) -> Option<usize>
    ensures { result ≡ position (has_key_of one.now) filed.now }
{
    match one {
        Record::Fare(r) => first_fare(filed, &key_of(r), &Sought::Of(r.season)),
        _ => filed.first(&one.key()),
    }
}

/// The number of the first record before a place with the key of a record.
#[tactic(auto, using(crate::proofs::Places::position_before))]
pub(crate) fn duplicate_of(filed: &Filed, place: usize, one: &Record) -> Option<u32>
    requires { place ≤ MOST_PLACES }
    ensures { result ≡ first_number (has_key_of one.now) (take place filed.now) }
{
    number_at(before(place, first_of_key(filed, one)))
}

/// The number of the first fare before a place with a record's key whose season overlaps its season.
#[tactic(auto, using(crate::proofs::Places::position_before))]
pub(crate) fn overlap_of(filed: &Filed, place: usize, one: &Record) -> Option<u32>
    requires { place ≤ MOST_PLACES }
    ensures { result ≡ overlap_of (take place filed.now) one.now }
{
    match one {
        Record::Fare(r) => {
            number_at(before(
                place,
                first_fare(filed, &key_of(r), &Sought::Over(r.season)),
            ))
        }
        _ => None,
    }
}
