//! Whether two lists of records are the same, record by record.

ghost use Rattle.std.specs.Prelude.{◌≡◌, ◌↔◌, IsTrue};

use crate::allowance_record::EmaRec;
use crate::city_record::CityRec;
use crate::currency_record::CurRec;
use crate::fare_record::FareRec;
use crate::fields::{same_rules, same_vias};
use crate::mileage_record::MileRec;
use crate::names::Names;
use crate::pair_record::PairRec;
use crate::record::Record;
use crate::rule_record::RuleRec;
use fare_codes::RuleId;

/// Whether two lists have the same records in the same order.
pub fn same_records(a: &[Record], b: &[Record]) -> bool
    ensures { IsTrue result ↔ (a.now ≡ b.now) }
{
    if a.len() != b.len() {
        return false;
    }
    for (place, one) in a.iter().enumerate() {
        if !is_record(one, &b[place]) {
            return false;
        }
    }
    true
}

fn is_record(a: &Record, b: &Record) -> bool
    ensures { IsTrue result ↔ (a.now ≡ b.now) }
{
    match (a, b) {
        (Record::City(a), Record::City(b)) => is_city_record(a, b),
        (Record::Cur(a), Record::Cur(b)) => is_currency_record(a, b),
        (Record::Rule(a), Record::Rule(b)) => is_rule_record(a.rule(), b.rule()),
        (Record::Fare(a), Record::Fare(b)) => is_fare_record(a, b),
        (Record::Mpm(a), Record::Mpm(b)) => is_mileage_record(a, b),
        (Record::Tpm(a), Record::Tpm(b)) => is_pair_record(a, b),
        (Record::Ema(a), Record::Ema(b)) => is_allowance_record(a, b),
        _ => false,
    }
}

fn is_city_record(a: &CityRec, b: &CityRec) -> bool
    ensures { IsTrue result ↔ (a.now ≡ b.now) }
{
    a.code.is(b.code) && a.country.is(b.country) && a.area.is(b.area)
}

fn is_currency_record(a: &CurRec, b: &CurRec) -> bool
    ensures { IsTrue result ↔ (a.now ≡ b.now) }
{
    a.country.is(b.country)
        && a.currency.is(b.currency)
        && a.roe == b.roe
        && a.decimals == b.decimals
        && a.unit == b.unit
        && a.mode.is(b.mode)
}

fn is_rule_record(a: &RuleRec, b: &RuleRec) -> bool
    ensures { IsTrue result ↔ (a.now ≡ b.now) }
{
    a.id.is(b.id)
        && a.stops == b.stops
        && a.transfers == b.transfers
        && a.advance == b.advance
        && a.min_stay == b.min_stay
        && a.max_stay == b.max_stay
        && a.excess == b.excess
        && is_names(&a.units, &b.units)
        && is_names(&a.ends, &b.ends)
}

fn is_names(a: &Names, b: &Names) -> bool
    ensures { IsTrue result ↔ (a.now ≡ b.now) }
{
    match (a, b) {
        (Names::All, Names::All) => true,
        (Names::Of(a), Names::Of(b)) => is_list(a.names(), b.names()),
        _ => false,
    }
}

fn is_list(a: &[Option<RuleId>], b: &[Option<RuleId>]) -> bool
    ensures { IsTrue result ↔ (a.now ≡ b.now) }
{
    if a.len() != b.len() {
        return false;
    }
    for (place, name) in a.iter().enumerate() {
        if !same_rules(name, &b[place]) {
            return false;
        }
    }
    true
}

fn is_fare_record(a: &FareRec, b: &FareRec) -> bool
    ensures { IsTrue result ↔ (a.now ≡ b.now) }
{
    a.from.is(b.from)
        && a.to.is(b.to)
        && a.ind.is(b.ind)
        && a.carrier.is(b.carrier)
        && a.class.is(b.class)
        && a.kind.is(b.kind)
        && same_rules(&a.rule, &b.rule)
        && a.season.is(b.season)
        && a.amount.is(b.amount)
}

fn is_mileage_record(a: &MileRec, b: &MileRec) -> bool
    ensures { IsTrue result ↔ (a.now ≡ b.now) }
{
    a.from.is(b.from) && a.to.is(b.to) && a.ind.is(b.ind) && a.miles == b.miles
}

fn is_pair_record(a: &PairRec, b: &PairRec) -> bool
    ensures { IsTrue result ↔ (a.now ≡ b.now) }
{
    a.from.is(b.from) && a.to.is(b.to) && a.miles == b.miles
}

fn is_allowance_record(a: &EmaRec, b: &EmaRec) -> bool
    ensures { IsTrue result ↔ (a.now ≡ b.now) }
{
    a.from.is(b.from)
        && a.to.is(b.to)
        && a.ind.is(b.ind)
        && same_vias(&a.via, &b.via)
        && a.miles == b.miles
}
