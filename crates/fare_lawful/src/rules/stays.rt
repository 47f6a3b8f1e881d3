//! The stay of a unit, and whether its rules allow it.

ghost use Rattle.std.specs.Prelude.{◌≡◌, ◌≤◌, ◌&&◌, length};
ghost use Rattle.std.specs.List.{list_any};
ghost use Rattle.fare_rules.specs.Shape.{is_hr};
ghost use Rattle.fare_rules.specs.UnitRules.{part_day, stay, forbids_stay};
ghost use Rattle.fare_lawful.specs.Advance.{Advances};
ghost use Rattle.fare_lawful.specs.Places.{IsPlace, ArePlaces};

use crate::parts::fares::{fare_of, is_hr};
use crate::parts::own::{first_of, last_of};
use crate::parts::places::start_of;
use fare_rules::Part;
use fare_tariff::Edition;
use fare_trip::Trip;

/// The day of the first sector of a part, as a number.
fn part_day(trip: &Trip, parts: &[Part], k: usize) -> u32
    requires advances { Advances trip.now parts.now }
    requires place { IsPlace parts.now k }
    ensures { result ≡ part_day trip.now parts.now k }
{
    trip.sector(start_of(trip, parts, k) + 1).day.number()
}

/// The stay of a unit: the days from the first sector of its first part to the first sector of its last part.
#[tactic(auto, using(crate::proofs::OwnLemmas::first_is_place, crate::proofs::OwnLemmas::last_is_place), unfolding(fare_rules::specs::UnitRules::stay))]
fn stay(trip: &Trip, parts: &[Part], own: &[usize]) -> u32
    requires advances { Advances trip.now parts.now }
    requires places { ArePlaces parts.now own.now }
    requires some { 1 ≤ length own.now }
    ensures { result ≡ stay trip.now parts.now own.now }
{
    let last = part_day(trip, parts, last_of(own));
    last.saturating_sub(part_day(trip, parts, first_of(own)))
}

/// Whether the rule of a part's fare does not allow a stay.
fn forbids_stay(edition: &Edition, parts: &[Part], days: u32, k: usize) -> bool
    ensures { result ≡ forbids_stay edition.now parts.now days k }
{
    match fare_of(edition, parts, k) {
        None => true,
        Some(fare) => match edition.terms(fare.rule) {
            None => true,
            Some(asked) => days < asked.min_stay || asked.max_stay < days,
        },
    }
}

/// Whether the rule of some part of a unit does not allow a stay.
fn forbids_any(edition: &Edition, parts: &[Part], days: u32, own: &[usize]) -> bool
    ensures { result ≡ list_any (forbids_stay edition.now parts.now days) own.now }
{
    own.iter().any(|k| forbids_stay(edition, parts, days, *k))
}

/// Whether the rule of some part of a unit does not allow the unit's stay.
fn forbids_own_stay(edition: &Edition, trip: &Trip, parts: &[Part], own: &[usize]) -> bool
    requires advances { Advances trip.now parts.now }
    requires places { ArePlaces parts.now own.now }
    ensures { result ≡ list_any (forbids_stay edition.now parts.now (stay trip.now parts.now own.now)) own.now }
{
    match own {
        [] => false,
        _ => forbids_any(edition, parts, stay(trip, parts, own), own),
    }
}

/// Whether a unit of some places is one of half round trips, and its stay is outside the rule of one of its parts.
pub fn is_mistimed_in(edition: &Edition, trip: &Trip, parts: &[Part], own: &[usize]) -> bool
    requires advances { Advances trip.now parts.now }
    requires places { ArePlaces parts.now own.now }
    ensures { result
        ≡ (is_hr edition.now parts.now own.now
        && list_any (forbids_stay edition.now parts.now (stay trip.now parts.now own.now)) own.now) }
{
    is_hr(edition, parts, own) && forbids_own_stay(edition, trip, parts, own)
}
