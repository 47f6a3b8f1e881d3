ghost use Rattle.std.specs.Prelude.{◌≡◌, ◌<◌, ◌≤◌, ℕ, List};
ghost use Rattle.fare_trip.specs.Itinerary.{Itinerary, count};
ghost use Rattle.fare_tariff.specs.Tariff.{Tariff};
ghost use Rattle.fare_rules.specs.declared.part.Part.{Part};
ghost use Rattle.fare_rules.specs.Best.{IsLawful};
ghost use Rattle.fare_rules.specs.Valid.{HasFaresInForm};

use crate::limits::PRICE_LIMIT;
use fare_codes::MOST_SECTORS;

/// Law of prices: the price of a lawful construction is below 400,000,000.00. A component's amount is at most
/// 12,500,000.00 and a minimum less than 20,000,000.00, and a trip has at most `MOST_SECTORS` sectors.
pub fn price_is_bounded()
    ensures { (tariff : Tariff) (trip : Itinerary) (parts : List Part) (price : ℕ) → HasFaresInForm tariff
        → count trip ≤ MOST_SECTORS → IsLawful tariff trip parts price → price < PRICE_LIMIT }
{}
