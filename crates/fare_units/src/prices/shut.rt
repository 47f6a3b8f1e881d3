//! Units to which no part can come any more, among the first parts of a construction: what they cost, and whether their
//! stay is allowed.

ghost use Rattle.std.specs.Prelude.{◌≡◌, ◌≤◌, IfSome, length};
ghost use Rattle.fare_lawful.specs.Advance.{Advances, EndsWithin};
ghost use Rattle.fare_lawful.specs.Barred.{is_untimely};
ghost use Rattle.fare_lawful.specs.Shut.{is_shut, shut_price, is_priceless};

use crate::prices::price::{MOST_UNIT_PRICE, lacks_amount, unit_price};
use fare_component::Table;
use fare_lawful::{MOST_PARTS, closes, has_gap_before, holds_ow, is_mistimed_in, own};
use fare_rules::Part;
use fare_tariff::Edition;
use fare_trip::Trip;

/// Whether a unit is shut: it holds a one way fare, or closes, or is an open jaw whose gap lies before its second part.
#[tactic(auto, unfolding(fare_lawful::specs::Shut::is_shut))]
pub(crate) fn is_shut(edition: &Edition, trip: &Trip, parts: &[Part], own: &[usize]) -> bool
    requires ends { EndsWithin trip.now parts.now }
    ensures { result ≡ is_shut edition.now trip.now parts.now own.now }
{
    holds_ow(edition, parts, own)
        || closes(trip, parts, own)
        || has_gap_before(edition, trip, parts, own)
}

/// The price of a unit of the first parts of a construction, where it is shut: it holds a one way fare, or closes, or
/// is an open jaw whose gap lies before its second part; nothing exactly where it isn't. The amounts are those of a
/// table.
#[tactic(auto, using(crate::proofs::ShutLemmas::shut_has_parts))]
pub fn shut_price(table: &Table, parts: &[Part], unit: usize) -> Option<u64>
    requires few { length parts.now ≤ MOST_PARTS }
    requires advances { Advances table.now.trip parts.now }
    ensures value { result ≡ shut_price table.now.edition table.now.trip parts.now unit }
    ensures bound { IfSome result (λ price. price ≤ MOST_UNIT_PRICE) }
{
    let (edition, trip) = (table.edition(), table.trip());
    let own = own(parts, unit);
    if !is_shut(edition, trip, parts, own.as_slice()) {
        return None;
    }
    Some(unit_price(edition, trip, Some(table), parts, unit))
}

/// Whether a unit of the first parts of a construction is shut, and yet has no price: some part of it has no amount in
/// its direction. The amounts are those of a table.
pub fn is_priceless(table: &Table, parts: &[Part], unit: usize) -> bool
    requires few { length parts.now ≤ MOST_PARTS }
    requires advances { Advances table.now.trip parts.now }
    ensures { result ≡ is_priceless table.now.edition table.now.trip parts.now unit }
{
    let (edition, trip) = (table.edition(), table.trip());
    let own = own(parts, unit);
    is_shut(edition, trip, parts, own.as_slice())
        && lacks_amount(edition, trip, Some(table), parts, own.as_slice())
}

/// Whether a unit of the first parts of a construction is shut, and yet its stay is outside the rule of one of its
/// parts.
#[tactic(auto, unfolding(fare_lawful::specs::Barred::is_untimely))]
pub fn is_untimely(edition: &Edition, trip: &Trip, parts: &[Part], unit: usize) -> bool
    requires few { length parts.now ≤ MOST_PARTS }
    requires advances { Advances trip.now parts.now }
    ensures { result ≡ is_untimely edition.now trip.now parts.now unit }
{
    let own = own(parts, unit);
    is_shut(edition, trip, parts, own.as_slice())
        && is_mistimed_in(edition, trip, parts, own.as_slice())
}
