//! The rules in their order: the first one that a list of parts breaks.

ghost use Rattle.std.specs.Prelude.{◌≡◌, ◌≤◌, length, find, true, None, IfSome};
ghost use Rattle.fare_rules.specs.Construction.{places, unfiled};
ghost use Rattle.fare_rules.specs.Numbers.{first_given};
ghost use Rattle.fare_lawful.specs.Advance.{Advances};
ghost use Rattle.fare_lawful.specs.Breaks.{breaks_from, is_unpriced};
ghost use Rattle.fare_lawful.specs.Known.{IsOf};
ghost use Rattle.fare_rules.specs.Lawful.{broken_at, first_broken};
ghost use Rattle.fare_rules.specs.Rule.{number_of};

use crate::limits::MOST_PARTS;
use crate::rules::amounts::unpriced;
use crate::rules::combine::clashed;
use crate::rules::cover::{misnumbered, uncovered, unfiled};
use crate::rules::crossing::crossed;
use crate::rules::part_rules::{FareRule, PartRule, first_part, mispaired};
use crate::rules::unit_rules::{UnitRule, first_unit};
use fare_component::Table;
use fare_rules::{Broken, Part, Rule};
use fare_tariff::Edition;
use fare_trip::Trip;

/// A rule that is broken at a place.
fn broken_at(rule: Rule, place: u8) -> Broken
    ensures { result ≡ broken_at (number_of rule) place }
{
    Broken {
        rule: rule.number(),
        place: place as u32,
    }
}

/// The first broken one of the rules from Stay on.
#[tactic(auto, unfolding(fare_rules::specs::Lawful::breaks, fare_rules::specs::UnitRules::mistimed, fare_rules::specs::UnitRules::misfitted))]
fn first_from_stay(edition: &Edition, trip: &Trip, parts: &[Part]) -> Option<Broken>
    requires few { length parts.now ≤ MOST_PARTS }
    requires advances { Advances trip.now parts.now }
    ensures { result ≡ first_given (breaks_from (number_of Rule.Stay) edition.now trip.now parts.now) }
{
    if let Some(u) = first_unit(edition, trip, parts, UnitRule::Stay) {
        return Some(broken_at(Rule::Stay, u));
    }
    if let Some(u) = first_unit(edition, trip, parts, UnitRule::Combine) {
        return Some(broken_at(Rule::Combine, u));
    }
    if let Some(k) = clashed(edition, parts) {
        return Some(broken_at(Rule::End, k));
    }
    if let Some(k) = first_part(edition, trip, parts, PartRule::Surface) {
        return Some(broken_at(Rule::Surface, k));
    }
    if let Some(k) = first_part(edition, trip, parts, PartRule::Season) {
        return Some(broken_at(Rule::Season, k));
    }
    None
}

/// The first broken one of the rules from Mileage on.
#[tactic(auto, unfolding(fare_rules::specs::Lawful::breaks))]
fn first_from_mileage(edition: &Edition, trip: &Trip, parts: &[Part]) -> Option<Broken>
    requires few { length parts.now ≤ MOST_PARTS }
    requires advances { Advances trip.now parts.now }
    ensures { result ≡ first_given (breaks_from (number_of Rule.Mileage) edition.now trip.now parts.now) }
{
    if let Some(k) = first_part(edition, trip, parts, PartRule::Mileage) {
        return Some(broken_at(Rule::Mileage, k));
    }
    if let Some(k) = first_part(edition, trip, parts, PartRule::Fare(FareRule::Excess)) {
        return Some(broken_at(Rule::Excess, k));
    }
    first_from_stay(edition, trip, parts)
}

/// The first broken one of the rules from Distinct on.
#[tactic(auto, unfolding(fare_rules::specs::Lawful::breaks))]
fn first_from_distinct(edition: &Edition, trip: &Trip, parts: &[Part]) -> Option<Broken>
    requires few { length parts.now ≤ MOST_PARTS }
    requires advances { Advances trip.now parts.now }
    ensures { result ≡ first_given (breaks_from (number_of Rule.Distinct) edition.now trip.now parts.now) }
{
    if let Some(k) = first_part(edition, trip, parts, PartRule::Distinct) {
        return Some(broken_at(Rule::Distinct, k));
    }
    if let Some(k) = mispaired(edition, trip, parts) {
        return Some(broken_at(Rule::Pair, k));
    }
    if let Some(k) = first_part(edition, trip, parts, PartRule::Fare(FareRule::Indicator)) {
        return Some(broken_at(Rule::Indicator, k));
    }
    if let Some(k) = first_part(edition, trip, parts, PartRule::Fare(FareRule::Cabin)) {
        return Some(broken_at(Rule::Cabin, k));
    }
    if let Some(k) = first_part(edition, trip, parts, PartRule::Fare(FareRule::Carrier)) {
        return Some(broken_at(Rule::Carrier, k));
    }
    if let Some(k) = first_part(edition, trip, parts, PartRule::Fare(FareRule::Stops)) {
        return Some(broken_at(Rule::Stops, k));
    }
    if let Some(k) = first_part(edition, trip, parts, PartRule::Fare(FareRule::Transfers)) {
        return Some(broken_at(Rule::Transfers, k));
    }
    if let Some(k) = first_part(edition, trip, parts, PartRule::Fare(FareRule::Advance)) {
        return Some(broken_at(Rule::Advance, k));
    }
    first_from_mileage(edition, trip, parts)
}

/// Whether a table is known that has the amount of each part.
fn has_all_amounts(edition: &Edition, trip: &Trip, known: Option<&Table>, parts: &[Part]) -> bool
    requires few { length parts.now ≤ MOST_PARTS }
    requires advances { Advances trip.now parts.now }
    requires known { IfSome known (λ table. IsOf edition.now trip.now table.now) }
    ensures { result ≡ true → find (is_unpriced edition.now trip.now parts.now) (places parts.now) ≡ None }
{
    let _edition = edition;
    let _trip = trip;
    match known {
        None => false,
        Some(table) => unpriced(table, parts).is_none(),
    }
}

/// The first broken one of the rules from Distinct on, where each part's fare is filed. A fare that has an amount meets
/// all that is asked of it alone.
#[tactic(auto, using(crate::proofs::AmountLemmas::stay_is_next))]
fn first_from_fares(
    edition: &Edition,
    trip: &Trip,
    known: Option<&Table>,
    parts: &[Part],
) -> Option<Broken>
    requires few { length parts.now ≤ MOST_PARTS }
    requires advances { Advances trip.now parts.now }
    requires filed { unfiled edition.now parts.now ≡ None }
    requires known { IfSome known (λ table. IsOf edition.now trip.now table.now) }
    ensures { result ≡ first_given (breaks_from (number_of Rule.Distinct) edition.now trip.now parts.now) }
{
    if has_all_amounts(edition, trip, known, parts) {
        return first_from_stay(edition, trip, parts);
    }
    first_from_distinct(edition, trip, parts)
}

/// The first rule that a list of parts breaks, at its least place.
#[tactic(auto, using(crate::proofs::UnitLemmas::advances_of_cover), unfolding(fare_rules::specs::Lawful::first_broken, fare_rules::specs::Lawful::breaks, fare_rules::specs::Shape::mixed, fare_rules::specs::Shape::unchained, fare_rules::specs::Shape::unclosed))]
pub fn first_broken(
    edition: &Edition,
    trip: &Trip,
    known: Option<&Table>,
    parts: &[Part],
) -> Option<Broken>
    requires few { length parts.now ≤ MOST_PARTS }
    requires known { IfSome known (λ table. IsOf edition.now trip.now table.now) }
    ensures { result ≡ first_broken edition.now trip.now parts.now }
{
    if let Some(k) = uncovered(trip, parts) {
        return Some(broken_at(Rule::Cover, k));
    }
    if let Some(k) = misnumbered(parts) {
        return Some(broken_at(Rule::Numbering, k));
    }
    if let Some(k) = unfiled(edition, parts) {
        return Some(broken_at(Rule::Record, k));
    }
    if let Some(k) = crossed(parts) {
        return Some(broken_at(Rule::Crossing, k));
    }
    if let Some(u) = first_unit(edition, trip, parts, UnitRule::Alone) {
        return Some(broken_at(Rule::Alone, u));
    }
    if let Some(u) = first_unit(edition, trip, parts, UnitRule::Chain) {
        return Some(broken_at(Rule::Chain, u));
    }
    if let Some(u) = first_unit(edition, trip, parts, UnitRule::Close) {
        return Some(broken_at(Rule::Close, u));
    }
    first_from_fares(edition, trip, known, parts)
}
