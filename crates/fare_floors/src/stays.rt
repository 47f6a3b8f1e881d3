//! Stays: whether the rules of a unit's parts allow a stay.

ghost use Rattle.std.specs.Prelude.{◌≡◌, ◌≤◌, length};
ghost use Rattle.fare_rules.specs.Construction.{own};
ghost use Rattle.fare_rules.specs.UnitRules.{forbids_stay, part_day};
ghost use Rattle.fare_lawful.specs.Advance.{Advances};
ghost use Rattle.fare_floors.specs.Stays.{forbids_any, is_outside};

use crate::places::{first_place, last_place};
use fare_component::Table;
use fare_homing::day_behind;
use fare_rules::Part;
use fare_tariff::Edition;
use fare_trip::Trip;
use fare_units::{MOST_PARTS, part_at, start_of};

/// Whether the rule of a part's fare does not allow a stay.
fn forbids_stay(edition: &Edition, parts: &[Part], days: u32, k: usize) -> bool
    ensures { result ≡ forbids_stay edition.now parts.now days k }
{
    match edition.fare_at(part_at(parts, k).fare) {
        None => true,
        Some(fare) => match edition.terms(fare.rule) {
            None => true,
            Some(asked) => days < asked.min_stay || asked.max_stay < days,
        },
    }
}

/// Whether the rule of some part of a unit does not allow a stay.
#[tactic(auto, using(crate::proofs::StayLemmas::forbids_next, crate::proofs::StayLemmas::forbids_over, crate::proofs::StayLemmas::forbids_done), unfolding(fare_rules::specs::Construction::own))]
pub(crate) fn forbids_any(edition: &Edition, parts: &[Part], unit: usize, days: u32) -> bool
    ensures { result ≡ forbids_any edition.now parts.now unit days }
{
    for k in 1..parts.len() + 1 {
        if part_at(parts, k).unit as usize != unit {
            continue;
        }
        if forbids_stay(edition, parts, days, k) {
            return true;
        }
    }
    false
}

/// The day of the first sector of a part, in days since 1970-01-01; of no part, that of the trip's first sector.
#[tactic(auto, using(crate::proofs::StayLemmas::begins_inside))]
fn part_day(trip: &Trip, parts: &[Part], k: usize) -> u32
    requires advances { Advances trip.now parts.now }
    requires within { k ≤ length parts.now }
    ensures { result ≡ part_day trip.now parts.now k }
{
    let _sectors = trip.count();
    day_behind(trip, start_of(trip, parts, k))
}

/// Whether the rule of some part of a unit does not allow the stay that the unit has as it stands.
#[tactic(auto, unfolding(fare_rules::specs::UnitRules::stay))]
pub(crate) fn is_outside(table: &Table, parts: &[Part], unit: usize) -> bool
    requires few { length parts.now ≤ MOST_PARTS }
    requires advances { Advances table.now.trip parts.now }
    ensures { result ≡ is_outside table.now.edition table.now.trip parts.now (own parts.now unit) }
{
    let trip = table.trip();
    let last = part_day(trip, parts, last_place(parts, unit));
    let days = last.saturating_sub(part_day(trip, parts, first_place(parts, unit)));
    forbids_any(table.edition(), parts, unit, days)
}
