//! Direction: which parts are priced back.

ghost use Rattle.std.specs.Prelude.{◌≡◌, ◌≤◌, ◌&&◌, not, length};
ghost use Rattle.fare_rules.specs.Direction.{heads_home, goes_back, priced_back, is_back_in, is_back};
ghost use Rattle.fare_rules.specs.Shape.{lie_together};
ghost use Rattle.fare_lawful.specs.Advance.{Advances, EndsWithin};

use crate::limits::MOST_PARTS;
use crate::parts::countries::lie_together;
use crate::parts::fares::is_hr;
use crate::parts::own::{last_of, origin, own};
use crate::parts::places::{end_city, start_city, unit_of};
use fare_codes::City;
use fare_rules::Part;
use fare_tariff::Edition;
use fare_trip::Trip;

/// Whether the way from a city to another comes to the country of a third one from outside.
fn comes_to_country(edition: &Edition, from: City, to: City, home: City) -> bool
    ensures { result ≡ (lie_together edition.now to home && not (lie_together edition.now from home)) }
{
    lie_together(edition, to, home) && !lie_together(edition, from, home)
}

/// Whether a part ends in the country of its unit's origin and begins in another.
pub fn heads_home(edition: &Edition, trip: &Trip, parts: &[Part], own: &[usize], k: usize) -> bool
    requires ends { EndsWithin trip.now parts.now }
    ensures { result ≡ heads_home edition.now trip.now parts.now own.now k }
{
    let from = start_city(trip, parts, k);
    let to = end_city(trip, parts, k);
    comes_to_country(edition, from, to, origin(trip, parts, own))
}

/// Whether a part of a unit of half round trips is priced back: it is the unit's last, or heads home.
fn goes_back(edition: &Edition, trip: &Trip, parts: &[Part], own: &[usize], k: usize) -> bool
    requires ends { EndsWithin trip.now parts.now }
    ensures { result ≡ goes_back edition.now trip.now parts.now own.now k }
{
    k == last_of(own) || heads_home(edition, trip, parts, own, k)
}

/// Whether a part of a unit of half round trips, or of no such unit, is priced back.
fn is_back_if(
    edition: &Edition,
    trip: &Trip,
    parts: &[Part],
    own: &[usize],
    hr: bool,
    k: usize,
) -> bool
    requires ends { EndsWithin trip.now parts.now }
    ensures { result ≡ (hr && goes_back edition.now trip.now parts.now own.now k) }
{
    hr && goes_back(edition, trip, parts, own, k)
}

/// Whether a part of the unit of some places is priced back.
#[tactic(auto, unfolding(fare_rules::specs::Direction::is_back_in))]
pub fn is_back_in(edition: &Edition, trip: &Trip, parts: &[Part], own: &[usize], k: usize) -> bool
    requires ends { EndsWithin trip.now parts.now }
    ensures { result ≡ is_back_in edition.now trip.now parts.now own.now k }
{
    is_back_if(edition, trip, parts, own, is_hr(edition, parts, own), k)
}

/// Whether a part is priced back in its unit.
pub fn is_back(edition: &Edition, trip: &Trip, parts: &[Part], k: usize) -> bool
    requires few { length parts.now ≤ MOST_PARTS }
    requires advances { Advances trip.now parts.now }
    ensures { result ≡ is_back edition.now trip.now parts.now k }
{
    let own = own(parts, unit_of(parts, k));
    is_back_in(edition, trip, parts, own.as_slice(), k)
}

/// Direction: whether the part at a place, from 1, is priced back, where `hr` says whether its unit is one of half
/// round trips. Only ends and units are looked at.
#[tactic(auto, unfolding(fare_rules::specs::Direction::priced_back))]
pub fn priced_back(edition: &Edition, trip: &Trip, parts: &[Part], hr: bool, place: usize) -> bool
    requires few { length parts.now ≤ MOST_PARTS }
    requires advances { Advances trip.now parts.now }
    ensures { result ≡ priced_back edition.now trip.now parts.now hr place }
{
    let own = own(parts, unit_of(parts, place));
    is_back_if(edition, trip, parts, own.as_slice(), hr, place)
}
