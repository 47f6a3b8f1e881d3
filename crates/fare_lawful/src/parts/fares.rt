//! The fares of parts.

ghost use Rattle.std.specs.Prelude.{◌≡◌};
ghost use Rattle.std.specs.List.{list_any};
ghost use Rattle.std.specs.Option.{option_copied};
ghost use Rattle.fare_rules.specs.Construction.{fare_of};
ghost use Rattle.fare_rules.specs.Shape.{is_one_way, is_ow, holds_ow, is_hr};

use crate::parts::places::part_at;
use fare_codes::Kind;
use fare_rules::Part;
use fare_tariff::{Edition, FareRec};

/// The fare of a part.
pub fn fare_of<'a>(edition: &'a Edition, parts: &[Part], k: usize) -> Option<&'a FareRec>
    ensures { option_copied result ≡ fare_of edition.now parts.now k }
{
    edition.fare_at(part_at(parts, k).fare)
}

/// Whether a fare, where there is one, is one way.
fn is_one_way(fare: Option<&FareRec>) -> bool
    ensures { result ≡ is_one_way (option_copied fare.entry) }
{
    match fare {
        None => false,
        Some(fare) => match fare.kind {
            Kind::OW => true,
            Kind::HR => false,
        },
    }
}

/// Whether the fare of a part is one way.
pub fn is_ow(edition: &Edition, parts: &[Part], k: usize) -> bool
    ensures { result ≡ is_ow edition.now parts.now k }
{
    is_one_way(fare_of(edition, parts, k))
}

/// Whether a unit holds a one way fare.
pub fn holds_ow(edition: &Edition, parts: &[Part], own: &[usize]) -> bool
    ensures { result ≡ holds_ow edition.now parts.now own.now }
{
    own.iter().any(|k| is_ow(edition, parts, *k))
}

/// Whether a unit is one of half round trips: it holds no one way fare.
#[tactic(auto, unfolding(fare_rules::specs::Shape::is_hr))]
pub(crate) fn is_hr(edition: &Edition, parts: &[Part], own: &[usize]) -> bool
    ensures { result ≡ is_hr edition.now parts.now own.now }
{
    !holds_ow(edition, parts, own)
}
