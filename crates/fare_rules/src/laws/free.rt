ghost use Rattle.std.specs.Prelude.{◌≡◌, ◌<◌, ◌≤◌, ◌^◌, ℕ, Bool, true, Some, None};
ghost use Rattle.fare_codes.specs.Day.{is_month_day, month_day_of};
ghost use Rattle.fare_codes.specs.Season.{whole_year};
ghost use Rattle.fare_trip.specs.Itinerary.{Itinerary};
ghost use Rattle.fare_tariff.specs.Lookup.{unit_ok, ends_ok};
ghost use Rattle.fare_records.specs.Record.{FareRecord};
ghost use Rattle.fare_tariff.specs.Tariff.{Tariff};
ghost use Rattle.fare_rules.specs.Span.{first_day};
ghost use Rattle.fare_rules.specs.ComponentAmount.{is_applicable, in_season};
ghost use Rattle.fare_rules.specs.UnitRules.{allows_stay_of};
ghost use Rattle.fare_rules.specs.Free.{is_applicable_freely};

use fare_codes::MOST_SECTORS;

/// A fare of the whole year is in season on each day.
pub fn whole_year_holds_each_day()
    ensures { (trip : Itinerary) (a : ℕ) (fare : FareRecord) → fare.season ≡ whole_year
        → is_month_day (month_day_of (first_day trip a)) ≡ true → in_season trip a fare ≡ true }
{}

/// The free rule asks nothing: within `MOST_SECTORS` sectors a fare of it, filed for the whole year, may be used
/// wherever its cities, indicator, class, carrier and miles fit; it allows any stay, and it is combinable with itself
/// both ways.
pub fn free_rule_asks_nothing()
    ensures applicable { (tariff : Tariff) (trip : Itinerary) (a b : ℕ) (back : Bool) (fare : FareRecord)
        → fare.rule ≡ None → fare.season ≡ whole_year → b ≤ MOST_SECTORS
        → is_month_day (month_day_of (first_day trip a)) ≡ true
        → is_applicable tariff trip a b back fare ≡ is_applicable_freely tariff trip a b back fare }
    ensures stay { (tariff : Tariff) (days : ℕ) (fare : FareRecord) → fare.rule ≡ None → days < 2 ^ 32
        → allows_stay_of tariff days (Some fare) ≡ true }
    ensures in_a_unit { (tariff : Tariff) → unit_ok tariff None None ≡ true }
    ensures end_on_end { (tariff : Tariff) → ends_ok tariff None None ≡ true }
{}
