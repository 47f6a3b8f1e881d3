//! What follows of every edition, from its validity alone.

ghost use Rattle.std.specs.Prelude.{◌≡◌, ◌↔◌, ◌+◌, ◌<◌, ℕ, Some};
ghost use Rattle.fare_codes.specs.declared.city.City.{City};
ghost use Rattle.fare_codes.specs.declared.indicator.Indicator.{Indicator};
ghost use Rattle.fare_codes.specs.declared.month_day.MonthDay.{MonthDay};
ghost use Rattle.fare_records.specs.declared.limits.TheConstants.{MOST_FARES_BETWEEN};
ghost use Rattle.fare_records.specs.declared.fare_key.FareKey.{FareKey};
ghost use Rattle.fare_tariff.specs.Lookup.{fare_number, next_fare, nth_fare};
ghost use Rattle.fare_tariff.specs.Filed.{FilesFareOn};

use crate::edition::Edition;

/// The fare of a key on a day is the only one. Two records that file a fare with one from, to, indicator, carrier,
/// class, kind and rule, and whose seasons both hold a day, are one record; so the number that the look-up answers is
/// that of the one record that files such a fare.
pub fn fare_of_a_day_is_one(edition: &Edition)
    ensures one { (key : FareKey) (on : MonthDay) (a b : ℕ) →
        FilesFareOn edition.now key on a → FilesFareOn edition.now key on b → a ≡ b }
    ensures number { (key : FareKey) (on : MonthDay) (n : ℕ) →
        (fare_number edition.now key on ≡ Some n) ↔ FilesFareOn edition.now key on n }
{
    let _records = edition.records();
}

/// The next fare after the `k`-th from a city to another for an indicator is the one after it, and there are few.
pub fn fares_come_in_turn(edition: &Edition)
    ensures next { (from to : City) (ind : Indicator) (k n : ℕ) → nth_fare edition.now from to ind k ≡ Some n
        → next_fare edition.now n ≡ nth_fare edition.now from to ind (k + 1) }
    ensures few { (from to : City) (ind : Indicator) (k n : ℕ) → nth_fare edition.now from to ind k ≡ Some n
        → k < MOST_FARES_BETWEEN }
{
    let _records = edition.records();
}
