//! Shape: how a unit closes, and open jaws.

ghost use Rattle.std.specs.Prelude.{◌≡◌, ◌≤◌, ◌∷◌, [], ◌&&◌, ◌||◌, not, nat_lt, length};
ghost use Rattle.fare_rules.specs.Construction.{origin};
ghost use Rattle.fare_rules.specs.Shape.{follows, is_chained, ends_in, comes_home, comes_home_early, ends_at_home};
ghost use Rattle.fare_rules.specs.Shape.{closes, is_only_gap, is_jaw, is_open_jaw, must_close, holds_ow};
ghost use Rattle.fare_lawful.specs.Advance.{EndsWithin};
ghost use Rattle.fare_lawful.specs.Shut.{has_gap_before};

use crate::parts::countries::lie_together;
use crate::parts::fares::{holds_ow, is_hr};
use crate::parts::own::{last_of, origin};
use crate::parts::places::{end_city, start_city};
use fare_codes::City;
use fare_rules::Part;
use fare_tariff::Edition;
use fare_trip::Trip;

/// Whether a part begins in the city where another one ends.
fn follows(trip: &Trip, parts: &[Part], before: usize, k: usize) -> bool
    requires ends { EndsWithin trip.now parts.now }
    ensures { result ≡ follows trip.now parts.now before k }
{
    start_city(trip, parts, k).is(end_city(trip, parts, before))
}

/// Whether each part of a unit begins in the city where its previous one ends.
#[tactic(auto, using(crate::proofs::ShapeLemmas::chained_next, crate::proofs::ShapeLemmas::chained_past))]
fn is_chained(trip: &Trip, parts: &[Part], own: &[usize]) -> bool
    requires ends { EndsWithin trip.now parts.now }
    ensures { result ≡ is_chained trip.now parts.now own.now }
{
    for i in 0..own.len().saturating_sub(1) {
        if !follows(trip, parts, own[i], own[i + 1]) {
            return false;
        }
    }
    true
}

/// Whether a part ends in a city.
fn ends_in(trip: &Trip, parts: &[Part], city: City, k: usize) -> bool
    requires ends { EndsWithin trip.now parts.now }
    ensures { result ≡ ends_in trip.now parts.now city k }
{
    end_city(trip, parts, k).is(city)
}

/// Whether the last part of a unit ends in its origin.
fn comes_home(trip: &Trip, parts: &[Part], own: &[usize]) -> bool
    requires ends { EndsWithin trip.now parts.now }
    ensures { result ≡ comes_home trip.now parts.now own.now }
{
    ends_in(trip, parts, origin(trip, parts, own), last_of(own))
}

/// Whether an earlier part of a unit ends in its origin.
#[tactic(auto, using(crate::proofs::ShapeLemmas::earlier_next, crate::proofs::ShapeLemmas::earlier_past))]
fn comes_home_early(trip: &Trip, parts: &[Part], own: &[usize]) -> bool
    requires ends { EndsWithin trip.now parts.now }
    ensures { result ≡ comes_home_early trip.now parts.now own.now }
{
    let home = origin(trip, parts, own);
    for i in 0..own.len().saturating_sub(1) {
        if ends_in(trip, parts, home, own[i]) {
            return true;
        }
    }
    false
}

/// Whether a unit has two or more parts, of which the last ends in its origin and no earlier one does.
fn ends_at_home(trip: &Trip, parts: &[Part], own: &[usize]) -> bool
    requires ends { EndsWithin trip.now parts.now }
    ensures { result ≡ ends_at_home trip.now parts.now own.now }
{
    2 <= own.len() && comes_home(trip, parts, own) && !comes_home_early(trip, parts, own)
}

/// Whether a unit closes: it is chained, and comes home at its end and not before.
#[tactic(auto, unfolding(fare_rules::specs::Shape::closes))]
pub fn closes(trip: &Trip, parts: &[Part], own: &[usize]) -> bool
    requires ends { EndsWithin trip.now parts.now }
    ensures { result ≡ closes trip.now parts.now own.now }
{
    is_chained(trip, parts, own) && ends_at_home(trip, parts, own)
}

/// Whether between two cities lies a gap inside one country, and between two others none.
fn is_only_gap(edition: &Edition, a: City, b: City, c: City, d: City) -> bool
    ensures { result ≡ is_only_gap edition.now a b c d }
{
    !a.is(b) && lie_together(edition, a, b) && c.is(d)
}

/// Whether a unit of just these two parts is an open jaw: between them or to its origin lies a gap, and no other.
fn is_jaw(edition: &Edition, trip: &Trip, parts: &[Part], k: usize, next: usize) -> bool
    requires ends { EndsWithin trip.now parts.now }
    ensures { result ≡ is_jaw edition.now trip.now parts.now (k ∷ next ∷ []) }
{
    let away = start_city(trip, parts, k);
    let reached = end_city(trip, parts, k);
    let left = start_city(trip, parts, next);
    let home = end_city(trip, parts, next);
    has_one_gap(edition, away, reached, left, home)
}

/// Whether of the way from a city to another and from a third one to a fourth just one of the two joints is a gap.
fn has_one_gap(edition: &Edition, away: City, reached: City, left: City, home: City) -> bool
    ensures { result
        ≡ (is_only_gap edition.now reached left home away || is_only_gap edition.now home away reached left) }
{
    is_only_gap(edition, reached, left, home, away)
        || is_only_gap(edition, home, away, reached, left)
}

/// Whether a unit is an open jaw: it has two parts and one gap, in one country.
#[tactic(auto, using(crate::proofs::ShapeLemmas::jaw_of_two, crate::proofs::ShapeLemmas::jaw_of_others), unfolding(fare_rules::specs::Shape::is_open_jaw))]
pub fn is_open_jaw(edition: &Edition, trip: &Trip, parts: &[Part], own: &[usize]) -> bool
    requires ends { EndsWithin trip.now parts.now }
    ensures { result ≡ is_open_jaw edition.now trip.now parts.now own.now }
{
    if own.len() != 2 {
        return false;
    }
    is_jaw(edition, trip, parts, own[0], own[1])
}

/// Whether a unit of just these two parts is an open jaw whose gap lies between them.
fn is_gap_before(edition: &Edition, trip: &Trip, parts: &[Part], k: usize, next: usize) -> bool
    requires ends { EndsWithin trip.now parts.now }
    ensures { result ≡ has_gap_before edition.now trip.now parts.now (k ∷ next ∷ []) }
{
    let away = start_city(trip, parts, k);
    let reached = end_city(trip, parts, k);
    let left = start_city(trip, parts, next);
    let home = end_city(trip, parts, next);
    is_only_gap(edition, reached, left, home, away)
}

/// Whether a unit is an open jaw whose gap lies before its second part.
#[tactic(auto, using(crate::proofs::ShapeLemmas::gap_before_two, crate::proofs::ShapeLemmas::gap_before_others))]
pub fn has_gap_before(edition: &Edition, trip: &Trip, parts: &[Part], own: &[usize]) -> bool
    requires ends { EndsWithin trip.now parts.now }
    ensures { result ≡ has_gap_before edition.now trip.now parts.now own.now }
{
    if own.len() != 2 {
        return false;
    }
    is_gap_before(edition, trip, parts, own[0], own[1])
}

/// Whether a unit must close: it is one of half round trips, and no open jaw.
fn must_close(edition: &Edition, trip: &Trip, parts: &[Part], own: &[usize]) -> bool
    requires ends { EndsWithin trip.now parts.now }
    ensures { result ≡ must_close edition.now trip.now parts.now own.now }
{
    is_hr(edition, parts, own) && !is_open_jaw(edition, trip, parts, own)
}

/// Whether a unit of some places holds a one way fare and has more than one part.
pub(crate) fn is_mixed_in(edition: &Edition, parts: &[Part], own: &[usize]) -> bool
    ensures { result ≡ (holds_ow edition.now parts.now own.now && nat_lt 1 (length own.now)) }
{
    holds_ow(edition, parts, own) && 1 < own.len()
}

/// Whether a unit of some places must close and is not chained.
pub(crate) fn is_unchained_in(edition: &Edition, trip: &Trip, parts: &[Part], own: &[usize]) -> bool
    requires ends { EndsWithin trip.now parts.now }
    ensures { result
        ≡ (must_close edition.now trip.now parts.now own.now && not (is_chained trip.now parts.now own.now)) }
{
    must_close(edition, trip, parts, own) && !is_chained(trip, parts, own)
}

/// Whether a unit of some places must close, and has one part or does not come home at its end alone.
pub(crate) fn is_unclosed_in(edition: &Edition, trip: &Trip, parts: &[Part], own: &[usize]) -> bool
    requires ends { EndsWithin trip.now parts.now }
    ensures { result
        ≡ (must_close edition.now trip.now parts.now own.now && not (ends_at_home trip.now parts.now own.now)) }
{
    must_close(edition, trip, parts, own) && !ends_at_home(trip, parts, own)
}
