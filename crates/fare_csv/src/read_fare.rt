//! FARE records.

ghost use Rattle.std.specs.Prelude.{◌≡◌};
ghost use Rattle.fare_csv.specs.RecordText.{fare_key_of, fare_of, fare_one_of, fare_two_of, fare_with, read_amount};
ghost use Rattle.fare_csv.specs.RecordText.{read_fare_rule};

use crate::field_list::FieldList;
use crate::head::Version;
use crate::text_fault::TextFault;
use fare_codes::{
    Cabin, Carrier, City, FARE_LIMIT, FareAmount, Indicator, Kind, MonthDay, Nuc, RuleId, Season,
};
use fare_tariff::{FareKey, FareRec};

/// The amount of a fare, at most 9999999.99.
#[tactic(auto, unfolding(crate::specs::RecordText::read_amount))]
fn read_amount(bytes: &[u8]) -> Option<FareAmount>
    ensures { result ≡ read_amount bytes.now }
{
    let amount = Nuc::read(bytes)?;
    if amount.hundredths() < FARE_LIMIT {
        Some(FareAmount::of(amount))
    } else {
        None
    }
}

/// The rule of a fare; empty for the free rule.
#[tactic(auto, unfolding(crate::specs::RecordText::read_fare_rule))]
fn read_fare_rule(bytes: &[u8]) -> Option<Option<RuleId>>
    ensures { result ≡ read_fare_rule bytes.now }
{
    if bytes.is_empty() {
        return Some(None);
    }
    RuleId::read(bytes).map(Some)
}

/// What both versions of a FARE begin with.
#[tactic(auto, unfolding(crate::specs::RecordText::fare_key_of))]
fn read_key(row: &FieldList, number: u32) -> Result<FareKey, TextFault>
    ensures { result ≡ fare_key_of number row.now }
{
    let from = City::read(row.field(1)).ok_or(TextFault::BadRecord(number, 2))?;
    let to = City::read(row.field(2)).ok_or(TextFault::BadRecord(number, 3))?;
    let ind = Indicator::read(row.field(3)).ok_or(TextFault::BadRecord(number, 4))?;
    let carrier = Carrier::read(row.field(4)).ok_or(TextFault::BadRecord(number, 5))?;
    let class = Cabin::read(row.field(5)).ok_or(TextFault::BadRecord(number, 6))?;
    let kind = Kind::read(row.field(6)).ok_or(TextFault::BadRecord(number, 7))?;
    let rule = read_fare_rule(row.field(7)).ok_or(TextFault::BadRecord(number, 8))?;
    Ok(FareKey {
        from,
        to,
        ind,
        carrier,
        class,
        kind,
        rule,
    })
}

/// The fare of a key, a season and an amount.
fn fare_with(key: FareKey, season: Season, amount: FareAmount) -> FareRec
    ensures { result ≡ fare_with key season amount }
{
    FareRec {
        from: key.from,
        to: key.to,
        ind: key.ind,
        carrier: key.carrier,
        class: key.class,
        kind: key.kind,
        rule: key.rule,
        season,
        amount,
    }
}

/// A version 1 FARE, which is filed for the whole year.
#[tactic(auto, unfolding(crate::specs::RecordText::fare_one_of))]
fn read_fare_one(row: &FieldList, number: u32) -> Result<FareRec, TextFault>
    ensures { result ≡ fare_one_of number row.now }
{
    row.counted(number, 9)?;
    let key = read_key(row, number)?;
    let amount = read_amount(row.field(8)).ok_or(TextFault::BadRecord(number, 9))?;
    Ok(fare_with(key, Season::whole_year(), amount))
}

/// A version 2 FARE, with the first and the last day of its season.
#[tactic(auto, unfolding(crate::specs::RecordText::fare_two_of))]
fn read_fare_two(row: &FieldList, number: u32) -> Result<FareRec, TextFault>
    ensures { result ≡ fare_two_of number row.now }
{
    row.counted(number, 11)?;
    let key = read_key(row, number)?;
    let first = MonthDay::read(row.field(8)).ok_or(TextFault::BadRecord(number, 9))?;
    let last = MonthDay::read(row.field(9)).ok_or(TextFault::BadRecord(number, 10))?;
    let amount = read_amount(row.field(10)).ok_or(TextFault::BadRecord(number, 11))?;
    Ok(fare_with(key, Season { first, last }, amount))
}

/// A FARE record, as the version of the text spells it.
#[tactic(auto, unfolding(crate::specs::RecordText::fare_of))]
pub(crate) fn read_fare(
    row: &FieldList,
    version: Version,
    number: u32,
) -> Result<FareRec, TextFault>
    ensures { result ≡ fare_of version number row.now }
{
    match version {
        Version::One => read_fare_one(row, number),
        Version::Two => read_fare_two(row, number),
    }
}
