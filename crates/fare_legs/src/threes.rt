//! Threes: the rules of a trip's fares of which no unit of three parts or more can have one, since no two fares of the
//! trip combine with it and with each other.

ghost use Rattle.std.specs.Prelude.{◌≡◌, ℕ, ◌<◌, ◌≤◌, true, All, Contains};
ghost use Rattle.std.specs.List.{list_any};
ghost use Rattle.fare_trip.specs.Itinerary.{count};
ghost use Rattle.fare_component.specs.declared.table.entry.Entry.{Entry};
ghost use Rattle.fare_component.specs.Table.{entries_of};
ghost use Rattle.fare_legs.specs.Barred.{is_barred};
ghost use Rattle.fare_legs.specs.Threes.{are_combined, is_of_three, may_follow, may_precede, AreAllRules, AreOfTwo};

use crate::barred::is_barred;
use crate::limits::MOST_RULES;
use crate::rules::rules_of;
use fare_component::Table;
use fare_tariff::Edition;

/// Whether two fares are there, and combine in a unit.
fn are_combined(edition: &Edition, one: u32, other: u32) -> bool
    ensures { result ≡ are_combined edition.now one other }
{
    match (edition.fare_at(one), edition.fare_at(other)) {
        (Some(one), Some(other)) => edition.unit_ok(one.rule, other.rule),
        _ => false,
    }
}

/// Whether a fare may come behind two others that combine.
fn may_follow(edition: &Edition, before: u32, number: u32, behind: u32) -> bool
    ensures { result ≡ may_follow edition.now before number behind }
{
    are_combined(edition, number, behind) && are_combined(edition, before, behind)
}

/// Whether one of some fares may come behind two others that combine.
fn has_follower(edition: &Edition, rules: &[u32], before: u32, number: u32) -> bool
    ensures { result ≡ list_any (may_follow edition.now before number) rules.now }
{
    rules
        .iter()
        .any(|behind| may_follow(edition, before, number, *behind))
}

/// Whether a fare may come before another, and one of some behind both.
fn may_precede(edition: &Edition, rules: &[u32], number: u32, before: u32) -> bool
    ensures { result ≡ may_precede edition.now rules.now number before }
{
    are_combined(edition, before, number) && has_follower(edition, rules, before, number)
}

/// Whether a fare may be one of three in a unit with two of some fares.
fn is_of_three(edition: &Edition, rules: &[u32], number: u32) -> bool
    ensures { result ≡ is_of_three edition.now rules.now number }
{
    rules
        .iter()
        .any(|before| may_precede(edition, rules, number, *before))
}

/// Whether each fare of a span has the rule of one of some fares.
fn are_rules_of_span(table: &Table, rules: &[u32], a: usize, b: usize) -> bool
    requires rises { a < b }
    requires within { b ≤ count table.now.trip }
    ensures { result ≡ true → (entry : Entry) → Contains (entries_of table.now.edition table.now.trip a b) entry
        → is_barred table.now.edition rules.now entry.fare ≡ true }
{
    for entry in table.entries(a, b) {
        if !is_barred(table.edition(), rules, entry.fare) {
            return false;
        }
    }
    true
}

/// The same of the spans from a point.
fn are_rules_from(table: &Table, rules: &[u32], a: usize) -> bool
    requires { a < count table.now.trip }
    ensures { result ≡ true → (b : ℕ) → a < b → b ≤ count table.now.trip → (entry : Entry)
        → Contains (entries_of table.now.edition table.now.trip a b) entry
        → is_barred table.now.edition rules.now entry.fare ≡ true }
{
    let count = table.trip().count();
    for b in a + 1..count + 1 {
        if !are_rules_of_span(table, rules, a, b) {
            return false;
        }
    }
    true
}

/// The same of all spans.
fn are_all_rules(table: &Table, rules: &[u32]) -> bool
    ensures { result ≡ true → AreAllRules table.now.edition table.now.trip rules.now }
{
    let count = table.trip().count();
    for a in 0..count {
        if !are_rules_from(table, rules, a) {
            return false;
        }
    }
    true
}

/// Whether the fare of some rule can't be one of three in a unit with two of some fares.
fn has_one_of_two(edition: &Edition, rules: &[u32]) -> bool {
    rules.iter().any(|number| *number != 0 && !is_of_three(edition, rules, *number))
}

/// Puts a fare to some at the first free place, unless it may be one of three in a unit.
fn put_of_two(table: &Table, rules: &[u32], fares: &mut [u32; MOST_RULES], number: u32)
    requires all { AreAllRules table.now.edition table.now.trip rules.now }
    requires two { AreOfTwo table.now.edition table.now.trip fares.old }
    ensures { AreOfTwo table.now.edition table.now.trip fares.new }
{
    if number == 0 || is_of_three(table.edition(), rules, number) {
        return;
    }
    if let Some(place) = fares.iter().position(|fare| *fare == 0) {
        fares[place] = number;
    }
}

/// A fare of each rule of which no unit of three parts or more can have one, the free places behind them; none where a
/// trip has more rules than are told apart.
pub fn fares_of_two(table: &Table) -> [u32; MOST_RULES]
    ensures { AreOfTwo table.now.edition table.now.trip result }
{
    let rules = rules_of(table);
    let mut fares = [0; MOST_RULES];
    if !has_one_of_two(table.edition(), rules.as_slice()) {
        return fares;
    }
    if !are_all_rules(table, rules.as_slice()) {
        return fares;
    }
    for place in 0..MOST_RULES {
        put_of_two(table, rules.as_slice(), &mut fares, rules[place]);
    }
    fares
}
