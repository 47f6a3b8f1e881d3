ghost use Rattle.std.specs.Prelude.{◌≡◌, ◌≤◌, ℕ, List, length, Some, true};
ghost use Rattle.fare_trip.specs.Itinerary.{Itinerary};
ghost use Rattle.fare_tariff.specs.Tariff.{Tariff};
ghost use Rattle.fare_rules.specs.declared.part.Part.{Part};
ghost use Rattle.fare_rules.specs.Best.{IsLawful};
ghost use Rattle.fare_rules.specs.Construction.{start_of, end_of, part_at, unit_of};
ghost use Rattle.fare_rules.specs.Shape.{is_ow};
ghost use Rattle.fare_rules.specs.UnitPrice.{one_way_price, unit_price};

/// Unit price, one way: in a lawful construction the unit of a one way fare costs the price of that fare over the span
/// of its part, its component amount or its backhaul minimum, whichever is greater.
pub fn one_way_unit_costs_its_fare()
    ensures { (tariff : Tariff) (trip : Itinerary) (parts : List Part) (price k : ℕ) → IsLawful tariff trip parts price
        → 1 ≤ k → k ≤ length parts → is_ow tariff parts k ≡ true
        → one_way_price tariff trip (start_of trip parts k) (end_of parts k) (part_at parts k).fare
        ≡ Some (unit_price tariff trip parts (unit_of parts k)) }
{}
