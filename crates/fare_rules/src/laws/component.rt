ghost use Rattle.std.specs.Prelude.{◌≡◌, ◌<◌, ◌≤◌, ℕ, List, ◌∷◌, length, Some, Contains};
ghost use Rattle.fare_trip.specs.Itinerary.{Itinerary, count};
ghost use Rattle.fare_tariff.specs.Tariff.{Tariff};
ghost use Rattle.fare_rules.specs.declared.amount.Amount.{Amount};
ghost use Rattle.fare_rules.specs.declared.part.Part.{Part};
ghost use Rattle.fare_rules.specs.ComponentAmount.{component_amount};
ghost use Rattle.fare_rules.specs.Construction.{start_of, end_of, part_at};
ghost use Rattle.fare_rules.specs.Direction.{is_back};
ghost use Rattle.fare_rules.specs.Best.{IsLawful};
ghost use Rattle.fare_rules.specs.Completion.{first_part_choices};

/// Where a construction is lawful, the component amount of each part is defined, with the part's direction. So the
/// rules by their numbers ask for no less than Component amount does.
pub fn parts_have_amounts()
    ensures { (tariff : Tariff) (trip : Itinerary) (parts : List Part) (price k : ℕ) → IsLawful tariff trip parts price
        → 1 ≤ k → k ≤ length parts
        → (amount : Amount) × (component_amount tariff trip (start_of trip parts k) (end_of parts k)
        (part_at parts k).fare (is_back tariff trip parts k) ≡ Some amount) }
{}

/// The first part of every lawful construction is one of the first-part choices, since a first part is priced out.
pub fn first_part_is_a_choice()
    ensures { (tariff : Tariff) (trip : Itinerary) (parts : List Part) (price : ℕ) → 0 < count trip
        → IsLawful tariff trip parts price → (first : Part) × (rest : List Part) × (parts ≡ first ∷ rest)
        × Contains (first_part_choices tariff trip) (first.end, first.fare) }
{}
