//! Barring: what is behind each point of a trip at least, by the sets of rules that the parts before it may bar.

ghost use Rattle.std.specs.Prelude.{◌≡◌, ◌<◌, ℕ, true, IfSome, Option, replicate};
ghost use Rattle.fare_trip.specs.Itinerary.{Itinerary};
ghost use Rattle.fare_legs.specs.Barred.{IsStep};
ghost use Rattle.fare_homing.specs.Barring.{AreUnlinked};
ghost use Rattle.fare_homing.specs.Onward.{AreOnwards, HasRests, onward_at};
ghost use Rattle.fare_homing.specs.Rows.{begun_from, jaw_from, AreHomingsOf};

use crate::homing::Homing;
use crate::onward::{Onward, Onwards};
use crate::rests::rests_without;
use crate::rule_sets::{RuleSets, rule_sets};
use crate::steps::is_step;
use fare_codes::RuleId;
use fare_component::Table;
use fare_legs::{MOST_RULES, MOST_SETS};
use fare_tariff::Edition;

/// What is behind each point where the rules of some fares are barred, which leads to the first place as yet.
fn onward_without(table: &Table, homing: &Homing, barred: [u32; MOST_RULES]) -> Onward
    requires { AreHomingsOf table.now.edition table.now.trip homing.now }
    ensures rests { HasRests table.now.edition table.now.trip (begun_from homing.now) (jaw_from homing.now) result }
    ensures next { result.next ≡ replicate MOST_RULES 0 }
{
    Onward {
        barred,
        rest: rests_without(table, homing, barred.as_slice()),
        next: [0; MOST_RULES],
    }
}

/// The same by each set of barred rules.
fn unlinked(table: &Table, homing: &Homing, sets: &RuleSets) -> [Onward; MOST_SETS]
    requires { AreHomingsOf table.now.edition table.now.trip homing.now }
    ensures { AreUnlinked table.now.edition table.now.trip (begun_from homing.now) (jaw_from homing.now) result }
{
    let all = Onward {
        barred: [0; MOST_RULES],
        rest: homing.rest,
        next: [0; MOST_RULES],
    };
    let mut onwards = [all; MOST_SETS];
    for set in 1..MOST_SETS {
        if set < sets.count() {
            onwards[set] = onward_without(table, homing, sets.fares(set));
        }
    }
    onwards
}

/// The fares that are barred at a place.
fn barred_at(onwards: &Onwards, set: usize) -> &[u32]
    requires { set < MOST_SETS }
    ensures { result.now ≡ (onward_at onwards.now set).barred }
{
    onwards.sets[set].barred.as_slice()
}

/// Whether no more is barred at one place than at another but what doesn't combine end on end with a rule.
fn leads(
    edition: &Edition,
    onwards: &Onwards,
    set: usize,
    rule: Option<RuleId>,
    behind: usize,
) -> bool
    requires set { set < MOST_SETS }
    requires behind { behind < MOST_SETS }
    ensures { result ≡ true
        → IsStep edition.now (onward_at onwards.now set).barred rule (onward_at onwards.now behind).barred }
{
    let before = barred_at(onwards, set);
    let after = barred_at(onwards, behind);
    is_step(edition, before, rule, after)
}

/// Lets the numbers of a place lead to those of another behind a part of a rule, if no more is barred there but what
/// doesn't combine with it.
fn link(edition: &Edition, onwards: &mut Onwards, set: usize, place: usize, behind: usize)
    requires set { set < MOST_SETS }
    requires place { place < MOST_RULES }
    requires behind { behind < MOST_SETS }
    ensures { (trip : Itinerary) (begun jaw : ℕ → ℕ → ℕ → Option ℕ)
        → AreOnwards edition.now trip begun jaw onwards.old → AreOnwards edition.now trip begun jaw onwards.new }
{
    let Some(fare) = edition.fare_at(onwards.rules[place]) else {
        return;
    };
    if leads(edition, onwards, set, fare.rule, behind) {
        onwards.sets[set].next[place] = behind as u8;
    }
}

/// The same behind a part of each rule.
fn link_each(edition: &Edition, onwards: &mut Onwards, sets: &RuleSets, set: usize)
    requires { set < MOST_SETS }
    ensures { (trip : Itinerary) (begun jaw : ℕ → ℕ → ℕ → Option ℕ)
        → AreOnwards edition.now trip begun jaw onwards.old → AreOnwards edition.now trip begun jaw onwards.new }
{
    for place in 0..MOST_RULES {
        link(edition, onwards, set, place, sets.behind(set, place));
    }
}

/// The same for all numbers.
fn link_all(edition: &Edition, onwards: &mut Onwards, sets: &RuleSets)
    ensures { (trip : Itinerary) (begun jaw : ℕ → ℕ → ℕ → Option ℕ)
        → AreOnwards edition.now trip begun jaw onwards.old → AreOnwards edition.now trip begun jaw onwards.new }
{
    for set in 0..MOST_SETS {
        if set < sets.count() {
            link_each(edition, onwards, sets, set);
        }
    }
}

/// What is behind each point of a trip at least by what is barred there; nothing where no part bars another.
fn onwards_of(table: &Table, homing: &Homing) -> Option<Onwards>
    requires { AreHomingsOf table.now.edition table.now.trip homing.now }
    ensures { IfSome result (AreOnwards table.now.edition table.now.trip (begun_from homing.now)
        (jaw_from homing.now)) }
{
    let sets = rule_sets(table);
    if sets.bar_nothing() {
        return None;
    }
    let mut onwards = Onwards {
        rules: sets.rules,
        sets: unlinked(table, homing, &sets),
    };
    link_all(table.edition(), &mut onwards, &sets);
    Some(onwards)
}

/// Adds to a homing what is behind each point where some fares are barred, for the sets of rules that the parts before
/// it may bar.
#[inline(never)]
pub fn add_barred(table: &Table, homing: &mut Homing)
    requires { AreHomingsOf table.now.edition table.now.trip homing.old }
    ensures homings { AreHomingsOf table.now.edition table.now.trip homing.new }
    ensures ceiling { homing.new.ceiling ≡ homing.old.ceiling }
    ensures rest { homing.new.rest ≡ homing.old.rest }
{
    if let Some(onwards) = onwards_of(table, homing) {
        homing.onwards = onwards;
    }
}
