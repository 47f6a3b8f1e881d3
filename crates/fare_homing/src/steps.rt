//! Steps: whether no more is barred behind a part than before it but what doesn't combine end on end with its rule.

ghost use Rattle.std.specs.Prelude.{◌≡◌, true};
ghost use Rattle.std.specs.List.{list_all};
ghost use Rattle.fare_tariff.specs.Lookup.{fare_at};
ghost use Rattle.fare_legs.specs.Barred.{IsStep};
ghost use Rattle.fare_homing.specs.Barring.{may_bar};

use fare_codes::RuleId;
use fare_legs::is_among;
use fare_tariff::Edition;

/// Whether the rule of a fare, where that is there, may be barred behind a part of a rule: it was before, or doesn't
/// combine with that.
fn may_bar(edition: &Edition, before: &[u32], rule: Option<RuleId>, number: u32) -> bool
    ensures { result ≡ may_bar edition.now before.now rule (fare_at edition.now number) }
{
    match edition.fare_at(number) {
        None => true,
        Some(fare) => is_among(edition, before, fare.rule) || !edition.ends_ok(rule, fare.rule),
    }
}

/// Whether the rules of all of some fares may be barred behind a part of a rule.
fn may_bar_all(edition: &Edition, before: &[u32], rule: Option<RuleId>, after: &[u32]) -> bool
    ensures { result ≡ list_all (λ number. may_bar edition.now before.now rule (fare_at edition.now number)) after.now }
{
    after
        .iter()
        .all(|number| may_bar(edition, before, rule, *number))
}

/// Whether the fares that are barred behind a part of a rule are no more than those before it but what doesn't combine
/// with it.
pub(crate) fn is_step(
    edition: &Edition,
    before: &[u32],
    rule: Option<RuleId>,
    after: &[u32],
) -> bool
    ensures { result ≡ true → IsStep edition.now before.now rule after.now }
{
    may_bar_all(edition, before, rule, after)
}
