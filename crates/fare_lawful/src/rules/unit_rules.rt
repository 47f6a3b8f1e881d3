//! The rules that ask one test of each unit.

ghost use Rattle.std.specs.Prelude.{◌≡◌, ◌≤◌, length, find};
ghost use Rattle.fare_rules.specs.Construction.{units};
ghost use Rattle.fare_lawful.specs.Advance.{Advances};
ghost use Rattle.fare_lawful.specs.Tests.{unit_breaks};

use crate::limits::MOST_PARTS;
use crate::parts::own::own;
use crate::parts::places::greatest_unit;
use crate::rules::combine::is_misfitted_in;
use crate::rules::first::first_that;
use crate::rules::shape::{is_mixed_in, is_unchained_in, is_unclosed_in};
use crate::rules::stays::is_mistimed_in;
use fare_rules::Part;
use fare_tariff::Edition;
use fare_trip::Trip;

/// A rule that asks one test of each unit.
#[derive(Clone, Copy)]
pub(crate) enum UnitRule {
    /// A one way fare is a unit alone.
    Alone,
    /// Each part begins in the city where its previous one ends.
    Chain,
    /// The last part ends in the origin, and no earlier one does.
    Close,
    /// The stay is within the rules of the parts.
    Stay,
    /// The parts are combinable in a unit.
    Combine,
}

/// Whether a unit breaks a rule.
fn unit_breaks(edition: &Edition, trip: &Trip, parts: &[Part], rule: UnitRule, unit: usize) -> bool
    requires few { length parts.now ≤ MOST_PARTS }
    requires advances { Advances trip.now parts.now }
    ensures { result ≡ unit_breaks edition.now trip.now parts.now rule unit }
{
    let own = own(parts, unit);
    let own = own.as_slice();
    match rule {
        UnitRule::Alone => is_mixed_in(edition, parts, own),
        UnitRule::Chain => is_unchained_in(edition, trip, parts, own),
        UnitRule::Close => is_unclosed_in(edition, trip, parts, own),
        UnitRule::Stay => is_mistimed_in(edition, trip, parts, own),
        UnitRule::Combine => is_misfitted_in(edition, parts, own),
    }
}

/// The first unit that breaks a rule.
pub(crate) fn first_unit(
    edition: &Edition,
    trip: &Trip,
    parts: &[Part],
    rule: UnitRule,
) -> Option<u8>
    requires few { length parts.now ≤ MOST_PARTS }
    requires advances { Advances trip.now parts.now }
    ensures { result ≡ find (unit_breaks edition.now trip.now parts.now rule) (units parts.now) }
{
    first_that(
        greatest_unit(parts),
        |unit| unit_breaks(edition, trip, parts, rule, unit),
    )
}
