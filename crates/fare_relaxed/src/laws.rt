//! What follows for the constructions of a trip where one kind of condition is relaxed: each function computes nothing,
//! and its contract is a law.

ghost use Rattle.std.specs.Prelude.{◌≡◌, ◌≢◌, ℕ, List, Ok, false};
ghost use Rattle.fare_trip.specs.Itinerary.{Itinerary};
ghost use Rattle.fare_tariff.specs.Check.{IsEdition};
ghost use Rattle.fare_tariff.specs.Tariff.{Tariff};
ghost use Rattle.fare_rules.specs.declared.part.Part.{Part};
ghost use Rattle.fare_rules.specs.Best.{IsLawful};
ghost use Rattle.fare_rules.specs.Lawful.{lawful_price};
ghost use Rattle.fare_relaxed.specs.declared.term.Term.{Term};
ghost use Rattle.fare_relaxed.specs.Terms.{rule_number};
ghost use Rattle.fare_relaxed.specs.Relax.{asks, relax, relaxed_records};
ghost use Rattle.fare_relaxed.specs.Ranges.{HasRulesInRange};
ghost use Rattle.fare_relaxed.specs.Own.{BreaksJust};

/// No check looks at conditions: the records of an edition, relaxed, are those of an edition.
pub fn relaxed_is_an_edition()
    ensures { (number : ℕ) (tariff : Tariff) (term : Term) → IsEdition number tariff.records
        → IsEdition number (relaxed_records term tariff.records) }
{}

/// Same price: a list of parts that is lawful in an edition and in the one with a kind of condition relaxed has one
/// price in both.
pub fn price_stays_the_same()
    ensures { (tariff : Tariff) (trip : Itinerary) (parts : List Part) (term : Term) (price relaxed : ℕ)
        → IsLawful tariff trip parts price → IsLawful (relax term tariff) trip parts relaxed → price ≡ relaxed }
{}

/// Keeps: a list of parts that is lawful in an edition whose rules are in their ranges is lawful in the one with a kind
/// of condition relaxed.
pub fn lawful_stays_lawful()
    ensures { (tariff : Tariff) (trip : Itinerary) (parts : List Part) (term : Term) (price : ℕ)
        → HasRulesInRange tariff → IsLawful tariff trip parts price → IsLawful (relax term tariff) trip parts price }
{}

/// Own rule: a list of parts that is lawful with a kind of condition relaxed, and not in the edition itself, breaks
/// just one of the 22 rules there, that of the kind.
pub fn broken_rule_is_its_own()
    ensures { (tariff : Tariff) (trip : Itinerary) (parts : List Part) (term : Term) (relaxed : ℕ)
        → IsLawful (relax term tariff) trip parts relaxed
        → ((price : ℕ) → lawful_price tariff trip parts ≢ Ok price)
        → BreaksJust tariff trip parts (rule_number term) }
{}

/// An edition of which no rule asks for anything by a kind of condition is the one with that kind relaxed.
pub fn unasked_stays_the_same()
    ensures { (tariff : Tariff) (term : Term) → asks term tariff ≡ false → relax term tariff ≡ tariff }
{}
