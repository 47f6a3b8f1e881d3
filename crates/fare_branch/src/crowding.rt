//! Crowding: whether more one way fares must come behind first parts, each of another rule that doesn't combine end on
//! end with itself, than the first parts leave such rules.

ghost use Rattle.std.specs.Prelude.{◌≡◌, ℕ, ◌≤◌, Contains, true};
ghost use Rattle.std.specs.List.{list_any};
ghost use Rattle.fare_trip.specs.Itinerary.{count};
ghost use Rattle.fare_rules.specs.Construction.{places};
ghost use Rattle.fare_component.specs.declared.table.entry.Entry.{Entry};
ghost use Rattle.fare_component.specs.Table.{entries_of};
ghost use Rattle.fare_homing.specs.Rows.{AreHomingsOf};
ghost use Rattle.fare_branch.specs.Crowding.{AreNeeds, IsNeed, IsNeedWith, bars_rule, leaves_fare, leaves_rule};
ghost use Rattle.fare_branch.specs.Crowding.{left_count, may_come, takes_rule};
ghost use Rattle.fare_floors.specs.Floors.{HasNoCompletion, IsMadeWith};

use fare_bounds::begin_after;
use fare_codes::RuleId;
use fare_component::{Entry, Table};
use fare_floors::Partial;
use fare_homing::{Homing, MOST_LONELY, is_rule_of, rule_at};
use fare_rules::{MOST_POINTS, Part};
use fare_tariff::Edition;
use fare_units::part_at;

/// First parts behind which one way fares must come.
#[derive(Clone, Copy)]
struct Crowding<'a> {
    table: &'a Table<'a>,
    front: &'a Partial,
    /// A fare of each rule that is counted.
    lonely: &'a [u32; MOST_LONELY],
}

/// Whether the fare of a part doesn't combine end on end with a rule.
fn bars_rule(edition: &Edition, parts: &[Part], rule: Option<RuleId>, k: usize) -> bool
    ensures { result ≡ bars_rule edition.now parts.now rule k }
{
    match edition.fare_at(part_at(parts, k).fare) {
        None => true,
        Some(fare) => !edition.ends_ok(fare.rule, rule),
    }
}

/// Whether the fare of some part doesn't combine end on end with a rule.
fn bar_rule(edition: &Edition, parts: &[Part], rule: Option<RuleId>) -> bool
    ensures { result ≡ list_any (bars_rule edition.now parts.now rule) (places parts.now) }
{
    (1..parts.len() + 1).any(|k| bars_rule(edition, parts, rule, k))
}

/// Whether the fares of all parts combine end on end with a rule.
fn leaves_rule(edition: &Edition, parts: &[Part], rule: Option<RuleId>) -> bool
    ensures { result ≡ leaves_rule edition.now parts.now rule }
{
    !bar_rule(edition, parts, rule)
}

/// Whether the fare of a record number has a rule with which the fares of all parts combine end on end.
fn leaves_fare(edition: &Edition, parts: &[Part], number: u32) -> bool
    ensures { result ≡ leaves_fare edition.now parts.now number }
{
    let rule = rule_at(edition, number);
    rule.is_some() && leaves_rule(edition, parts, rule)
}

/// How many of some fares are left by some parts.
fn left_count(edition: &Edition, parts: &[Part], fares: &[u32; MOST_LONELY]) -> usize
    ensures { result ≡ left_count edition.now parts.now fares.now }
{
    fares
        .iter()
        .filter(|number| leaves_fare(edition, parts, **number))
        .count()
}

/// Whether a part with an entry may come behind some parts.
fn may_come(edition: &Edition, parts: &[Part], entry: &Entry) -> bool
    ensures { result ≡ may_come edition.now parts.now entry.now }
{
    entry.single.is_none() || leaves_rule(edition, parts, rule_at(edition, entry.fare))
}

/// Whether a part with an entry takes the rule of one of some fares.
fn takes_rule(edition: &Edition, fares: &[u32; MOST_LONELY], entry: &Entry) -> bool
    ensures { result ≡ takes_rule edition.now fares.now entry.now }
{
    entry.single.is_some() && is_rule_of(edition, fares.as_slice(), rule_at(edition, entry.fare))
}

/// How many rules a part with an entry takes, with those behind its end; the greatest number where it may not come.
fn need_with(crowding: &Crowding, entry: &Entry, behind: u8) -> u8
    ensures { IsNeedWith crowding.now.table.now.edition crowding.now.lonely.now crowding.now.front.now behind entry.now
        result }
{
    let edition = crowding.table.edition();
    if !may_come(edition, crowding.front.parts(), entry) {
        return u8::MAX;
    }
    if takes_rule(edition, crowding.lonely, entry) {
        return behind.saturating_add(1);
    }
    behind
}

/// The least of a number and what the parts of a span take with what is behind their end.
fn lesser_need(crowding: &Crowding, a: usize, b: usize, behind: u8, least: u8) -> u8
    ensures kept { result ≤ least }
    ensures under { (entry : Entry) → Contains (entries_of crowding.now.table.now.edition crowding.now.table.now.trip a
        b) entry → IsNeedWith crowding.now.table.now.edition crowding.now.lonely.now crowding.now.front.now behind entry
        result }
{
    let mut least = least;
    for entry in crowding.table.entries(a, b) {
        if least == 0 {
            return 0;
        }
        least = need_with(crowding, entry, behind).min(least);
    }
    least
}

/// How many rules the parts take at least that begin at a point, by what is behind their ends; the greatest number
/// where none may come.
fn need_at(crowding: &Crowding, needs: &[u8; MOST_POINTS], a: usize) -> u8
    requires { a ≤ count crowding.now.table.now.trip }
    ensures { IsNeed crowding.now.table.now.edition crowding.now.table.now.trip crowding.now.lonely.now
        crowding.now.front.now needs.now a result }
{
    let count = crowding.table.trip().count();
    let mut least = u8::MAX;
    for b in a + 1..count + 1 {
        least = lesser_need(crowding, a, b, needs[b], least);
    }
    least
}

/// How many rules the parts take at least that come behind the first parts, behind each point from one on.
fn needs_behind(crowding: &Crowding, from: usize) -> [u8; MOST_POINTS]
    requires { from ≤ count crowding.now.table.now.trip }
    ensures { AreNeeds crowding.now.table.now.edition crowding.now.table.now.trip crowding.now.lonely.now
        crowding.now.front.now from result }
{
    let trip = crowding.table.trip();
    let mut needs = [0; MOST_POINTS];
    for i in (from..trip.count()).rev() {
        needs[i] = need_at(crowding, &needs, begin_after(trip, i));
    }
    needs
}

/// Whether more one way fares must come behind first parts, each of another rule that doesn't combine end on end with
/// itself, than these leave such rules: then they have no completion.
pub fn is_crowded(table: &Table, homing: &Homing, front: &Partial) -> bool
    requires homing { AreHomingsOf table.now.edition table.now.trip homing.now }
    requires made { IsMadeWith table.now front.now }
    ensures { result ≡ true → HasNoCompletion table.now.edition table.now.trip front.now }
{
    let sectors = table.trip().count();
    let lonely = &homing.lonely;
    if lonely[0] == 0 {
        return false;
    }
    let end = front.end();
    let left = left_count(table.edition(), front.parts(), lonely);
    // No list takes more than one rule a sector, so most aren't worth the walk over the table.
    if left >= sectors.saturating_sub(end) {
        return false;
    }
    let crowding = Crowding {
        table,
        front,
        lonely,
    };
    let needs = needs_behind(&crowding, end);
    left < needs[end] as usize
}
