ghost use Rattle.std.specs.Prelude.{◌≡◌, ◌≢◌, ℕ, List, Some};
ghost use Rattle.fare_trip.specs.Itinerary.{Itinerary, count};
ghost use Rattle.fare_tariff.specs.Tariff.{Tariff};
ghost use Rattle.fare_rules.specs.declared.part.Part.{Part};
ghost use Rattle.fare_rules.specs.Best.{IsBest, NoneIsLawful};
ghost use Rattle.fare_rules.specs.OneSector.{single_fare, single_part, IsCheapest};

/// For a trip of one sector Best is the single part, of unit 1, whose one way fare has the least amount of those that
/// may be used, and the least record number of those that cost the same; and there is none exactly where no one way
/// fare may be used. A unit of half round trips has two parts at least, so none is lawful there.
pub fn best_of_one_sector()
    ensures best { (tariff : Tariff) (trip : Itinerary) (number price : ℕ) → count trip ≡ 1
        → IsCheapest tariff trip number price → IsBest tariff trip (single_part number) price }
    ensures cheapest { (tariff : Tariff) (trip : Itinerary) (parts : List Part) (price : ℕ) → count trip ≡ 1
        → IsBest tariff trip parts price → (number : ℕ) × (parts ≡ single_part number)
        × IsCheapest tariff trip number price }
    ensures none { (tariff : Tariff) (trip : Itinerary) → count trip ≡ 1
        → ((number price : ℕ) → single_fare tariff trip number ≢ Some price) → NoneIsLawful tariff trip }
    ensures no_fare { (tariff : Tariff) (trip : Itinerary) → count trip ≡ 1 → NoneIsLawful tariff trip
        → (number price : ℕ) → single_fare tariff trip number ≢ Some price }
{}
