//! Lonely: the rules of the one way fares of a trip that don't combine end on end with themselves, so that no two of
//! these fares may have one of them.

ghost use Rattle.std.specs.Prelude.{◌≡◌};
ghost use Rattle.std.specs.List.{list_any};
ghost use Rattle.fare_legs.specs.Lonely.{AreLonely, has_rule, is_rule, is_rule_of, rule_at, suits_itself};

use fare_codes::RuleId;
use fare_component::Table;
use fare_tariff::Edition;

/// How many of these rules are told apart; a fare of a further one counts as if its rule combined with itself.
pub const MOST_LONELY: usize = 32;

/// Whether a rule combines end on end with itself.
fn suits_itself(edition: &Edition, id: RuleId) -> bool
    ensures { result ≡ suits_itself edition.now id }
{
    edition.ends_ok(Some(id), Some(id))
}

/// The rule of the fare of a record number; nothing where there is none, and for the free rule.
pub fn rule_at(edition: &Edition, number: u32) -> Option<RuleId>
    ensures { result ≡ rule_at edition.now number }
{
    match edition.fare_at(number) {
        None => None,
        Some(fare) => fare.rule,
    }
}

/// Whether a rule is there, and this one.
pub(crate) fn is_rule(rule: Option<RuleId>, id: RuleId) -> bool
    ensures { result ≡ is_rule id rule }
{
    match rule {
        None => false,
        Some(other) => other.is(id),
    }
}

/// Whether one of some fares has a rule.
fn have_rule(edition: &Edition, fares: &[u32], id: RuleId) -> bool
    ensures { result ≡ list_any (has_rule edition.now id) fares.now }
{
    fares
        .iter()
        .any(|number| is_rule(rule_at(edition, *number), id))
}

/// Whether a rule is there, and that of one of some fares.
pub fn is_rule_of(edition: &Edition, fares: &[u32], rule: Option<RuleId>) -> bool
    ensures { result ≡ is_rule_of edition.now fares.now rule }
{
    match rule {
        None => false,
        Some(id) => have_rule(edition, fares, id),
    }
}

/// Puts a fare to some at the first free place, where there is one: if its rule doesn't combine end on end with itself,
/// and is that of none of them.
fn put_fare(edition: &Edition, fares: &mut [u32; MOST_LONELY], number: u32)
    requires { AreLonely edition.now fares.old }
    ensures { AreLonely edition.now fares.new }
{
    let Some(id) = rule_at(edition, number) else {
        return;
    };
    if suits_itself(edition, id) {
        return;
    }
    if have_rule(edition, fares.as_slice(), id) {
        return;
    }
    if let Some(place) = fares.iter().position(|fare| *fare == 0) {
        fares[place] = number;
    }
}

/// The same for the one way fares of a span.
fn put_fares(table: &Table, fares: &mut [u32; MOST_LONELY], a: usize, b: usize)
    requires { AreLonely table.now.edition fares.old }
    ensures { AreLonely table.now.edition fares.new }
{
    for entry in table.entries(a, b) {
        if entry.single.is_some() {
            put_fare(table.edition(), fares, entry.fare);
        }
    }
}

/// The same for those of the spans from a point.
fn put_fares_from(table: &Table, fares: &mut [u32; MOST_LONELY], a: usize)
    requires { AreLonely table.now.edition fares.old }
    ensures { AreLonely table.now.edition fares.new }
{
    for b in 0..table.trip().count() + 1 {
        put_fares(table, fares, a, b);
    }
}

/// A fare of each rule that doesn't combine end on end with itself, of the one way fares of a table: of as many rules
/// as are told apart.
pub fn lonely_fares(table: &Table) -> [u32; MOST_LONELY]
    ensures { AreLonely table.now.edition result }
{
    let mut fares = [0; MOST_LONELY];
    for a in 0..table.trip().count() {
        put_fares_from(table, &mut fares, a);
    }
    fares
}
