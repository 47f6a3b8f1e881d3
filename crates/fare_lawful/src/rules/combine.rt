//! Which fares may be combined: in a unit, and end on end.

ghost use Rattle.std.specs.Prelude.{◌≡◌, ◌≤◌, length};
ghost use Rattle.std.specs.List.{list_any};
ghost use Rattle.fare_rules.specs.UnitRules.{are_unit_mates, are_end_mates, is_misfit, has_misfit, is_clash, clashes};
ghost use Rattle.fare_rules.specs.UnitRules.{clashed};
ghost use Rattle.fare_lawful.specs.Barred.{is_uncombined};

use crate::limits::MOST_PARTS;
use crate::parts::fares::fare_of;
use crate::parts::places::is_same_unit;
use crate::rules::first::first_that;
use fare_rules::Part;
use fare_tariff::Edition;

/// Whether the fares of two parts are combinable in a unit.
fn are_unit_mates(edition: &Edition, parts: &[Part], j: usize, k: usize) -> bool
    ensures { result ≡ are_unit_mates edition.now parts.now j k }
{
    match (fare_of(edition, parts, j), fare_of(edition, parts, k)) {
        (Some(one), Some(other)) => edition.unit_ok(one.rule, other.rule),
        _ => false,
    }
}

/// Whether the fares of two parts are combinable end on end.
fn are_end_mates(edition: &Edition, parts: &[Part], j: usize, k: usize) -> bool
    ensures { result ≡ are_end_mates edition.now parts.now j k }
{
    match (fare_of(edition, parts, j), fare_of(edition, parts, k)) {
        (Some(one), Some(other)) => edition.ends_ok(one.rule, other.rule),
        _ => false,
    }
}

/// Whether an earlier part of a part's unit is not combinable with it in a unit.
fn is_misfit(edition: &Edition, parts: &[Part], k: usize, j: usize) -> bool
    ensures { result ≡ is_misfit edition.now parts.now k j }
{
    is_same_unit(parts, k, j) && !are_unit_mates(edition, parts, j, k)
}

/// Whether a part has an earlier part of its unit with which it is not combinable.
fn has_misfit(edition: &Edition, parts: &[Part], k: usize) -> bool
    ensures { result ≡ has_misfit edition.now parts.now k }
{
    (1..k).any(|j| is_misfit(edition, parts, k, j))
}

/// Whether two parts of a unit of some places are not combinable in it.
pub(crate) fn is_misfitted_in(edition: &Edition, parts: &[Part], own: &[usize]) -> bool
    ensures { result ≡ list_any (has_misfit edition.now parts.now) own.now }
{
    own.iter().any(|k| has_misfit(edition, parts, *k))
}

/// Whether an earlier part of another unit is not combinable end on end with a part.
fn is_clash(edition: &Edition, parts: &[Part], k: usize, j: usize) -> bool
    ensures { result ≡ is_clash edition.now parts.now k j }
{
    !is_same_unit(parts, k, j) && !are_end_mates(edition, parts, j, k)
}

/// Whether a part has an earlier part of another unit with which it is not combinable end on end.
fn clashes(edition: &Edition, parts: &[Part], k: usize) -> bool
    ensures { result ≡ clashes edition.now parts.now k }
{
    (1..k).any(|j| is_clash(edition, parts, k, j))
}

/// Whether the last of some parts is not combinable with an earlier one: in its unit, or end on end with one of another
/// unit.
#[tactic(auto, unfolding(crate::specs::Barred::is_uncombined))]
pub fn is_uncombined(edition: &Edition, parts: &[Part]) -> bool
    ensures { result ≡ is_uncombined edition.now parts.now }
{
    has_misfit(edition, parts, parts.len()) || clashes(edition, parts, parts.len())
}

/// The first part that is not combinable end on end with an earlier part of another unit.
pub(crate) fn clashed(edition: &Edition, parts: &[Part]) -> Option<u8>
    requires few { length parts.now ≤ MOST_PARTS }
    ensures { result ≡ clashed edition.now parts.now }
{
    first_that(parts.len(), |k| clashes(edition, parts, k))
}
