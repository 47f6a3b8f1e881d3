//! The records of an edition, relaxed by a kind of condition.

ghost use Rattle.std.specs.Prelude.{◌≡◌, IfOk};
ghost use Rattle.fare_relaxed.specs.Relax.{relaxed_record, relaxed_records};

use crate::rules::relaxed_rule;
use crate::term::Term;
use fare_ports::NoMemory;
use fare_tariff::{FiledRule, Record};
use std::alloc::Global;

/// A record, relaxed: only a rule has conditions.
fn relaxed_record(alloc: Global, term: Term, one: &Record) -> Result<Record, NoMemory>
    ensures { IfOk result (λ made. made ≡ relaxed_record term one.now) }
{
    match one {
        Record::City(r) => Ok(Record::City(*r)),
        Record::Cur(r) => Ok(Record::Cur(*r)),
        Record::Rule(filed) => {
            let rule = relaxed_rule(alloc, term, filed.rule())?;
            Ok(Record::Rule(FiledRule::new(alloc, rule)?))
        }
        Record::Fare(r) => Ok(Record::Fare(*r)),
        Record::Mpm(r) => Ok(Record::Mpm(*r)),
        Record::Tpm(r) => Ok(Record::Tpm(*r)),
        Record::Ema(r) => Ok(Record::Ema(*r)),
    }
}

/// The records, each relaxed in its place.
pub(crate) fn relaxed_records(
    alloc: Global,
    term: Term,
    records: &[Record],
) -> Result<Vec<Record>, NoMemory>
    ensures { IfOk result (λ made. made.items ≡ relaxed_records term records.now) }
{
    let mut made = Vec::with_capacity(alloc, records.len())?;
    for one in records {
        made.push(relaxed_record(alloc, term, one)?)?;
    }
    Ok(made)
}
