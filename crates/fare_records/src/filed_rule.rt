ghost use Rattle.std.specs.Prelude.{◌≡◌, IfOk};

use crate::rule_record::RuleRec;
use fare_ports::NoMemory;
use std::alloc::Global;
use std::marker::Model;

/// A rule as a list of records holds it, behind a pointer: each record takes the room of the greatest, and few are
/// rules. A contract sees the rule.
#[derive(Drop)]
pub struct FiledRule {
    rule: Box<RuleRec>,
}

impl Model for FiledRule {
    ghost use Rattle.fare_records.specs.Record.{RuleRecord};

    ghost Value = { RuleRecord };

    ghost view = { λ filed. filed.rule.value };
}

impl FiledRule {
    /// The same rule, behind a pointer.
    pub fn new(alloc: Global, rule: RuleRec) -> Result<FiledRule, NoMemory>
        ensures { IfOk result (λ filed. filed ≡ rule) }
    {
        Ok(FiledRule {
            rule: Box::new(alloc, rule)?,
        })
    }

    /// The rule.
    pub fn rule(&self) -> &RuleRec
        ensures { result.now ≡ self.now }
    {
        &self.rule
    }
}
