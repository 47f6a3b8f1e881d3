//! Limits of count, and numbers and points that no record of an edition has.

ghost use Rattle.std.specs.Prelude.{◌≡◌, take};
ghost use Rattle.fare_tariff.specs.Check.{is_one_too_many, has_same_points, is_zero_mileage};

use crate::check::keys::before;
use crate::look_up::nth_place;
use fare_records::{Filed, MOST_FARES_BETWEEN, Record};

/// Whether as many of the records before a place as there may be are fares with the from, to and indicator of a fare.
#[tactic(auto, using(crate::proofs::Places::too_many))]
pub(crate) fn is_one_too_many(filed: &Filed, place: usize, one: &Record) -> bool
    ensures { result ≡ is_one_too_many (take place filed.now) one.now }
{
    match one {
        Record::Fare(r) => {
            let last = MOST_FARES_BETWEEN as u32 - 1;
            before(place, nth_place(filed, r.from, r.to, r.ind, last)).is_some()
        }
        _ => false,
    }
}

/// Whether a record's two cities are equal.
pub(crate) fn has_same_points(one: &Record) -> bool
    ensures { result ≡ has_same_points one.now }
{
    match one {
        Record::Fare(r) => r.from.is(r.to),
        Record::Mpm(r) => r.from.is(r.to),
        Record::Tpm(r) => r.from.is(r.to),
        Record::Ema(r) => r.from.is(r.to),
        _ => false,
    }
}

/// Whether a record states a mileage of 0.
pub(crate) fn is_zero_mileage(one: &Record) -> bool
    ensures { result ≡ is_zero_mileage one.now }
{
    match one {
        Record::Mpm(r) => r.miles == 0,
        Record::Tpm(r) => r.miles == 0,
        Record::Ema(r) => r.miles == 0,
        _ => false,
    }
}
