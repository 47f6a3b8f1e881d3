//! The ranges of an edition's rules.

ghost use Rattle.fare_relaxed.specs.Ranges.{HasRulesInRange, IsRuleInRange};

use fare_tariff::{Edition, Record};

/// A record that is a rule has its numbers in their ranges, by its type.
fn rule_is_in_range(one: &Record)
    ensures { IsRuleInRange one.now }
{
    match one {
        Record::Rule(filed) => {
            let rule = filed.rule();
            let _stops = rule.stops;
        }
        _ => {}
    }
}

/// What `lawful_stays_lawful` asks of an edition holds of every one: the numbers of each rule are in their ranges. It
/// walks over the records to see it, and changes nothing.
pub fn rules_are_in_range(edition: &Edition)
    ensures { HasRulesInRange edition.now }
{
    let records = edition.records();
    for one in records {
        rule_is_in_range(one);
    }
}
