//! The laws of audits: each function computes nothing, and its contract is a law that its caller may use.

ghost use Rattle.std.specs.Prelude.{◌≡◌, ◌+◌, ℕ, List, None};
ghost use Rattle.fare_trip.specs.Itinerary.{Itinerary};
ghost use Rattle.fare_rules.specs.Best.{IsBest};
ghost use Rattle.fare_rules.specs.declared.part.Part.{Part};
ghost use Rattle.fare_line.specs.Line.{CalculationLine};
ghost use Rattle.fare_tariff.specs.Tariff.{Tariff};
ghost use Rattle.fare_audit.specs.Determined.{IsConstructionOf};
ghost use Rattle.fare_audit.specs.Filing.{construction_of, unrecorded};
ghost use Rattle.fare_audit.specs.Verdict.{IsVerdict};
ghost use Rattle.fare_audit.specs.declared.verdict.Verdict.{Verdict};
ghost use Rattle.fare_audit.specs.declared.verdict.Verdict.TheVariants.{Lawful};

use fare_tariff::{Edition, fare_of_a_day_is_one};

/// A law: a line determines its construction. Of the lists of parts with the ends and units of the line, in which each
/// part has a FARE of the part's key whose season holds the day of its first sector, there is at most one in an
/// edition; and it is that of the look-ups, where each part has a record.
pub fn construction_is_one(edition: &Edition)
    ensures one { (trip : Itinerary) (line : CalculationLine) (parts others : List Part) →
        IsConstructionOf edition.now trip line parts → IsConstructionOf edition.now trip line others → parts ≡ others }
    ensures found { (trip : Itinerary) (line : CalculationLine) → unrecorded edition.now trip line ≡ None →
        IsConstructionOf edition.now trip line (construction_of edition.now trip line) }
{
    fare_of_a_day_is_one(edition);
}

/// A law: the price of a lawful line is that of Best and what it is over. So a line that is nothing over costs what
/// Best costs.
pub fn price_is_best_and_over()
    ensures over { (tariff : Tariff) (trip : Itinerary) (line : CalculationLine) (price over best : ℕ) →
        (parts : List Part) → IsVerdict tariff trip line (Lawful price over) → IsBest tariff trip parts best
        → best + over ≡ price }
    ensures none_over { (tariff : Tariff) (trip : Itinerary) (line : CalculationLine) (price best : ℕ) →
        (parts : List Part) → IsVerdict tariff trip line (Lawful price 0) → IsBest tariff trip parts best
        → price ≡ best }
{}

/// A law: a line has one verdict for a trip in an edition.
pub fn verdict_is_one()
    ensures { (tariff : Tariff) (trip : Itinerary) (line : CalculationLine) (one other : Verdict) →
        IsVerdict tariff trip line one → IsVerdict tariff trip line other → one ≡ other }
{}
