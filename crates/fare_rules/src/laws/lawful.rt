ghost use Rattle.std.specs.Prelude.{◌≡◌, ℕ, List, Ok};
ghost use Rattle.fare_trip.specs.Itinerary.{Itinerary};
ghost use Rattle.fare_tariff.specs.Tariff.{Tariff};
ghost use Rattle.fare_rules.specs.declared.part.Part.{Part};
ghost use Rattle.fare_rules.specs.UnitPrice.{price};
ghost use Rattle.fare_rules.specs.Lawful.{lawful_price, MeetsTheRules};
ghost use Rattle.fare_rules.specs.Best.{IsLawful};

/// The rules by their numbers say what Lawful says in words. A construction that meets the rules in words breaks none
/// by number, and costs the sum of its units; and one that breaks none by number meets them in words.
pub fn lawful_in_words()
    ensures priced { (tariff : Tariff) (trip : Itinerary) (parts : List Part) → MeetsTheRules tariff trip parts
        → lawful_price tariff trip parts ≡ Ok (price tariff trip parts) }
    ensures met { (tariff : Tariff) (trip : Itinerary) (parts : List Part) (cost : ℕ) → IsLawful tariff trip parts cost
        → MeetsTheRules tariff trip parts }
{}
