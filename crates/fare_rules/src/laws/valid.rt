ghost use Rattle.fare_rules.specs.Valid.{HasFaresInForm, HasNoFareToItself};

use fare_tariff::Edition;

/// What the other laws ask of an edition holds of every one, by its type: each fare is below 10,000,000.00, and none
/// runs from a city to itself.
pub fn edition_is_valid(edition: &Edition)
    ensures in_form { HasFaresInForm edition.now }
    ensures two_cities { HasNoFareToItself edition.now }
{
    edition.fares_are_filed();
}
