ghost use Rattle.std.specs.Prelude.{◌≡◌, ◌<◌, ◌≤◌, IfSome};
ghost use Rattle.fare_trip.specs.Itinerary.{count};
ghost use Rattle.fare_rules.specs.Mileage.{mileage, surcharge_of};
ghost use Rattle.fare_mileage.specs.Miles.{AreInRange, AreMiles};

use crate::miles::{allowance_of, first_without_tpm, miles_between, sum_of_miles};
use crate::steps::compared;
use fare_codes::{Indicator, MOST_SURCHARGE};
use fare_rules::{MOST_POINTS, Mileage};
use fare_tariff::Edition;
use fare_trip::Trip;

/// What the mileage of a trip from point `a` to point `b` asks of a fare, with an indicator in the place of the span's
/// own, where the ticketed point mileages of its sectors are these: direct for one sector; else the first sector
/// without a ticketed point mileage, that no mileage is permitted between the ends, or the ticketed miles less the
/// greatest extra mileage allowance beside those that are permitted.
#[tactic(auto, unfolding(fare_rules::specs::Mileage::mileage))]
pub fn mileage_by(
    edition: &Edition,
    trip: &Trip,
    miles: &[Option<u32>; MOST_POINTS],
    a: usize,
    b: usize,
    ind: Indicator,
) -> Mileage
    requires rises { a < b }
    requires within { b ≤ count trip.now }
    requires miles { AreMiles edition.now trip.now a b miles.now }
    requires in_range { AreInRange miles.now }
    ensures value { result ≡ mileage edition.now trip.now a b ind }
    ensures bound { IfSome (surcharge_of result) (λ step. step ≤ MOST_SURCHARGE) }
{
    let count = trip.count();
    prove!(b <= count);
    if b - a == 1 {
        return Mileage::Direct;
    }
    if let Some(number) = first_without_tpm(edition, trip, miles, a, b) {
        return Mileage::NoTpm(number);
    }
    match edition.mpm(trip.point(a), trip.point(b), ind) {
        None => Mileage::NoMpm,
        Some(mpm) => {
            let sum = sum_of_miles(edition, trip, miles, a, b);
            compared(sum, allowance_of(edition, trip, a, b, ind), mpm)
        }
    }
}

/// What the mileage of a trip from point `a` to point `b` asks of a fare, with an indicator in the place of the span's
/// own: direct for one sector; else the first sector without a ticketed point mileage, that no mileage is permitted
/// between the ends, or the ticketed miles less the greatest extra mileage allowance beside those that are permitted.
pub fn mileage(edition: &Edition, trip: &Trip, a: usize, b: usize, ind: Indicator) -> Mileage
    requires rises { a < b }
    requires within { b ≤ count trip.now }
    ensures value { result ≡ mileage edition.now trip.now a b ind }
    ensures bound { IfSome (surcharge_of result) (λ step. step ≤ MOST_SURCHARGE) }
{
    let miles = miles_between(edition, trip, a, b);
    mileage_by(edition, trip, &miles, a, b, ind)
}
