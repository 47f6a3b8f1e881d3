ghost use Rattle.std.specs.Prelude.{◌≡◌, ℕ, List, None, true};
ghost use Rattle.fare_codes.specs.declared.city.City.{City};
ghost use Rattle.fare_codes.specs.declared.day.Day.{Day};
ghost use Rattle.fare_codes.specs.declared.indicator.Indicator.{Indicator};
ghost use Rattle.fare_trip.specs.Itinerary.{Itinerary};
ghost use Rattle.fare_records.specs.Record.{FareRecord};
ghost use Rattle.fare_tariff.specs.Tariff.{Tariff};
ghost use Rattle.fare_rules.specs.declared.part.Part.{Part};
ghost use Rattle.fare_rules.specs.Reference.{reference};
ghost use Rattle.fare_rules.specs.Shape.{closes};
ghost use Rattle.fare_rules.specs.Circle.{unit_circle_minimum, circle_minimum};
ghost use Rattle.fare_rules.specs.Valid.{HasNoFareToItself};

/// There is no reference from a city to itself.
pub fn no_reference_to_itself()
    ensures { (tariff : Tariff) (city : City) (ind : Indicator) (fare : FareRecord) (on : Day)
        → HasNoFareToItself tariff → reference tariff city city ind fare on ≡ None }
{}

/// The circle minimum of a unit that closes, which leaves out the end of its last part, is that over all its parts
/// with their ends.
pub fn circle_minimum_takes_each_end()
    ensures { (tariff : Tariff) (trip : Itinerary) (parts : List Part) (own : List ℕ) → HasNoFareToItself tariff
        → closes trip parts own ≡ true
        → unit_circle_minimum tariff trip parts own ≡ circle_minimum tariff trip parts own }
{}
