//! Barred: fares that may not come behind some others, since their rules don't combine end on end. A fare without a rule
//! has the free one, which bars and is barred as any other.

ghost use Rattle.std.specs.Prelude.{◌≡◌, None, if◌then◌else◌};
ghost use Rattle.fare_legs.specs.Barred.{is_among, is_barred, is_of_rule, same_rule};

use fare_codes::RuleId;
use fare_tariff::Edition;

/// Whether two rules are the same: the free rule, or that of one name.
fn is_same_rule(one: Option<RuleId>, other: Option<RuleId>) -> bool
    ensures { result ≡ same_rule one other }
{
    match (one, other) {
        (None, None) => true,
        (Some(id), Some(other)) => id.is(other),
        _ => false,
    }
}

/// Whether the fare of a record number is there, and has a rule.
pub fn is_of_rule(edition: &Edition, rule: Option<RuleId>, number: u32) -> bool
    ensures { result ≡ is_of_rule edition.now rule number }
{
    match edition.fare_at(number) {
        None => false,
        Some(fare) => is_same_rule(fare.rule, rule),
    }
}

/// Whether a rule is that of one of some fares.
pub fn is_among(edition: &Edition, fares: &[u32], rule: Option<RuleId>) -> bool
    ensures { result ≡ is_among edition.now fares.now rule }
{
    fares
        .iter()
        .any(|number| is_of_rule(edition, rule, *number))
}

/// Whether the fare of a record number has the rule of one of some fares.
pub fn is_barred(edition: &Edition, fares: &[u32], number: u32) -> bool
    ensures { result ≡ is_barred edition.now fares.now number }
{
    if fares.is_empty() {
        return false;
    }
    match edition.fare_at(number) {
        None => false,
        Some(fare) => is_among(edition, fares, fare.rule),
    }
}

/// What something costs, unless it is barred.
pub fn unless(barred: bool, cost: Option<u64>) -> Option<u64>
    ensures { result ≡ (if barred then None else cost) }
{
    if barred { None } else { cost }
}
