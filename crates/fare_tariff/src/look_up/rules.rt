//! Rules: their terms, and which may be combined.

ghost use Rattle.std.specs.Prelude.{◌≡◌, IfSome, option_map};
ghost use Rattle.std.specs.Option.{option_copied};
ghost use Rattle.std.specs.List.{list_any};
ghost use Rattle.fare_tariff.specs.Filed.{AreInRange};
ghost use Rattle.fare_tariff.specs.Lookup.{first_some, rule_in, rule_of, rule_record, terms_of, free_terms};
ghost use Rattle.fare_tariff.specs.Lookup.{terms, lists, lists_in, unit_names, end_names, unit_ok, ends_ok};
ghost use Rattle.fare_records.specs.Fields.{same_rule};

use crate::edition::Edition;
use fare_codes::RuleId;
use fare_index::Key;
use fare_records::{Filed, MOST_STOPS, MOST_TRANSFERS, Names, Record, RuleRec, Terms, same_rules};

impl Edition {
    /// The terms of a rule field; nothing means that the rule isn't filed.
    pub fn terms(&self, rule: Option<RuleId>) -> Option<Terms>
        ensures terms { result ≡ terms self.now rule }
        ensures in_range { IfSome result AreInRange }
    {
        match rule {
            None => Some(free_terms()),
            Some(id) => self.filed_terms(id),
        }
    }

    /// The terms that a rule's record states.
    fn filed_terms(&self, id: RuleId) -> Option<Terms>
        ensures terms { result ≡ option_map terms_of (rule_record self.now id) }
        ensures in_range { IfSome result AreInRange }
    {
        match rule_record(self.filed(), id) {
            None => None,
            Some(filed) => Some(terms_of(filed)),
        }
    }

    /// Whether fares of two rules may share a pricing unit: each rule lists the other.
    pub fn unit_ok(&self, a: Option<RuleId>, b: Option<RuleId>) -> bool
        ensures { result ≡ unit_ok self.now a b }
    {
        self.unit_lists(&a, &b) && self.unit_lists(&b, &a)
    }

    /// Whether fares of two rules may be combined end on end: each rule lists the other.
    pub fn ends_ok(&self, a: Option<RuleId>, b: Option<RuleId>) -> bool
        ensures { result ≡ ends_ok self.now a b }
    {
        self.ends_list(&a, &b) && self.ends_list(&b, &a)
    }

    /// Whether a rule's names for a pricing unit list another.
    fn unit_lists(&self, rule: &Option<RuleId>, other: &Option<RuleId>) -> bool
        ensures { result ≡ lists_in (unit_names self.now rule.now) other.now }
    {
        match rule {
            None => true,
            Some(id) => match rule_record(self.filed(), *id) {
                None => false,
                Some(filed) => lists(&filed.units, other),
            },
        }
    }

    /// Whether a rule's names for end on end list another.
    fn ends_list(&self, rule: &Option<RuleId>, other: &Option<RuleId>) -> bool
        ensures { result ≡ lists_in (end_names self.now rule.now) other.now }
    {
        match rule {
            None => true,
            Some(id) => match rule_record(self.filed(), *id) {
                None => false,
                Some(filed) => lists(&filed.ends, other),
            },
        }
    }
}

/// The rule that a record files, if any.
fn rule_of(one: &Record) -> Option<&RuleRec>
    ensures { option_copied result ≡ rule_of one.now }
{
    match one {
        Record::Rule(filed) => Some(filed.rule()),
        _ => None,
    }
}

/// The record of a rule.
#[tactic(auto, using(crate::proofs::FoundByKey::rule_found))]
pub(crate) fn rule_record(filed: &Filed, id: RuleId) -> Option<&RuleRec>
    ensures { option_copied result ≡ first_some (rule_in id) filed.now }
{
    match filed.find(&Key::Rule(id)) {
        None => None,
        Some(one) => rule_of(one),
    }
}

/// The terms that a rule's record states.
fn terms_of(filed: &RuleRec) -> Terms
    ensures terms { result ≡ terms_of filed.now }
    ensures in_range { AreInRange result }
{
    Terms {
        stops: filed.stops,
        transfers: filed.transfers,
        advance: filed.advance,
        min_stay: filed.min_stay,
        max_stay: filed.max_stay,
        excess: filed.excess,
    }
}

/// The terms of the free rule.
fn free_terms() -> Terms
    ensures terms { result ≡ free_terms }
    ensures in_range { AreInRange result }
{
    Terms {
        stops: MOST_STOPS,
        transfers: MOST_TRANSFERS,
        advance: 0,
        min_stay: 0,
        max_stay: u32::MAX,
        excess: true,
    }
}

/// Whether names list a rule; `*` lists all.
fn lists(names: &Names, rule: &Option<RuleId>) -> bool
    ensures { result ≡ lists names.now rule.now }
{
    match names {
        Names::All => true,
        Names::Of(list) => is_among(rule, list.names()),
    }
}

/// Whether a rule is among some names.
fn is_among(rule: &Option<RuleId>, names: &[Option<RuleId>]) -> bool
    ensures { result ≡ list_any (same_rule rule.now) names.now }
{
    names.iter().any(|name| same_rules(rule, name))
}
