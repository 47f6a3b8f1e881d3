//! The lines of records.

ghost use Rattle.std.specs.Prelude.{◌≡◌, ◌<◌, ◌≤◌, ◌++◌, true, Some, OnOk};
ghost use Rattle.fare_csv.specs.Lines.{is_plain_field, line_of};
ghost use Rattle.fare_csv.specs.RecordText.{read_fare_rule, read_via};
ghost use Rattle.fare_csv.specs.ReadBack.{HeadReadsBack, ReadsBack};
ghost use Rattle.fare_records.specs.declared.record.Record.TheVariants as filed;
ghost use Rattle.fare_csv.specs.CanonicalText.{allowance_row, city_row, currency_row, end_row, excess_text, fare_row};
ghost use Rattle.fare_csv.specs.CanonicalText.{head_row, mileage_row, pair_row, rule_row, text_or_empty};

use crate::lines::Lines;
use crate::write_names::names_text;
use arrayvec::ArrayString;
use fare_codes::{City, Day, LAST_EDITION, RuleId, number_text, rate_text};
use fare_tariff::{CityRec, CurRec, EmaRec, FareRec, MileRec, PairRec, RuleRec};
use std::alloc::{AllocError, Global};

/// The bytes of a text.
pub(crate) fn bytes_of(text: &ArrayString<16>) -> &[u8]
    ensures { result.now ≡ text.now.bytes }
{
    text.as_str().as_bytes()
}

/// HEAD, in version 2.
pub(crate) fn write_head(lines: &mut Lines, number: u32, effective: Day) -> Result<(), AllocError>
    requires above_zero { 0 < number }
    requires in_range { number ≤ LAST_EDITION }
    ensures line { OnOk result (lines.new ≡ lines.old ++ line_of (head_row number effective)) }
    ensures read_back { HeadReadsBack number effective }
{
    let number = number_text(number);
    let effective = effective.text();
    lines.write(&[
        b"HEAD".as_slice(),
        b"2".as_slice(),
        bytes_of(&number),
        bytes_of(&effective),
    ])
}

/// END.
pub(crate) fn write_end(lines: &mut Lines) -> Result<(), AllocError>
    ensures { OnOk result (lines.new ≡ lines.old ++ line_of end_row) }
{
    lines.write(&[b"END".as_slice()])
}

/// The line of a CITY.
pub(crate) fn write_city(lines: &mut Lines, city: &CityRec) -> Result<(), AllocError>
    ensures line { OnOk result (lines.new ≡ lines.old ++ line_of (city_row city.now)) }
    ensures read_back { OnOk result (ReadsBack (filed.City city.now)) }
{
    let code = city.code.text();
    let country = city.country.text();
    let area = city.area.text();
    lines.write(&[
        b"CITY".as_slice(),
        bytes_of(&code),
        bytes_of(&country),
        bytes_of(&area),
    ])
}

/// The line of a CUR.
pub(crate) fn write_currency(lines: &mut Lines, rate: &CurRec) -> Result<(), AllocError>
    ensures line { OnOk result (lines.new ≡ lines.old ++ line_of (currency_row rate.now)) }
    ensures read_back { OnOk result (ReadsBack (filed.Cur rate.now)) }
{
    let country = rate.country.text();
    let currency = rate.currency.text();
    let roe = rate_text(rate.roe);
    let decimals = number_text(u32::from(rate.decimals));
    let unit = number_text(rate.unit);
    let mode = rate.mode.text();
    lines.write(&[
        b"CUR".as_slice(),
        bytes_of(&country),
        bytes_of(&currency),
        bytes_of(&roe),
        bytes_of(&decimals),
        bytes_of(&unit),
        bytes_of(&mode),
    ])
}

/// The line of an MPM.
pub(crate) fn write_mileage(lines: &mut Lines, mileage: &MileRec) -> Result<(), AllocError>
    ensures line { OnOk result (lines.new ≡ lines.old ++ line_of (mileage_row mileage.now)) }
    ensures read_back { OnOk result (ReadsBack (filed.Mpm mileage.now)) }
{
    let from = mileage.from.text();
    let to = mileage.to.text();
    let ind = mileage.ind.text();
    let miles = number_text(mileage.miles);
    lines.write(&[
        b"MPM".as_slice(),
        bytes_of(&from),
        bytes_of(&to),
        bytes_of(&ind),
        bytes_of(&miles),
    ])
}

/// The line of a TPM.
pub(crate) fn write_pair(lines: &mut Lines, pair: &PairRec) -> Result<(), AllocError>
    ensures line { OnOk result (lines.new ≡ lines.old ++ line_of (pair_row pair.now)) }
    ensures read_back { OnOk result (ReadsBack (filed.Tpm pair.now)) }
{
    let from = pair.from.text();
    let to = pair.to.text();
    let miles = number_text(pair.miles);
    lines.write(&[
        b"TPM".as_slice(),
        bytes_of(&from),
        bytes_of(&to),
        bytes_of(&miles),
    ])
}

/// The via city of an EMA: empty for every way.
pub(crate) fn via_text(via: Option<City>) -> ArrayString<16>
    ensures text { result.bytes ≡ text_or_empty via }
    ensures plain { is_plain_field (text_or_empty via) ≡ true }
    ensures read_back { read_via (text_or_empty via) ≡ Some via }
{
    match via {
        Some(city) => city.text(),
        None => ArrayString::new(),
    }
}

/// The rule of a FARE: empty for the free rule.
pub(crate) fn fare_rule_text(rule: Option<RuleId>) -> ArrayString<16>
    ensures text { result.bytes ≡ text_or_empty rule }
    ensures plain { is_plain_field (text_or_empty rule) ≡ true }
    ensures read_back { read_fare_rule (text_or_empty rule) ≡ Some rule }
{
    match rule {
        Some(id) => id.text(),
        None => ArrayString::new(),
    }
}

/// The line of an EMA.
pub(crate) fn write_allowance(lines: &mut Lines, allowance: &EmaRec) -> Result<(), AllocError>
    ensures line { OnOk result (lines.new ≡ lines.old ++ line_of (allowance_row allowance.now)) }
    ensures read_back { OnOk result (ReadsBack (filed.Ema allowance.now)) }
{
    let from = allowance.from.text();
    let to = allowance.to.text();
    let ind = allowance.ind.text();
    let via = via_text(allowance.via);
    let miles = number_text(allowance.miles);
    lines.write(&[
        b"EMA".as_slice(),
        bytes_of(&from),
        bytes_of(&to),
        bytes_of(&ind),
        bytes_of(&via),
        bytes_of(&miles),
    ])
}

/// The line of a FARE.
pub(crate) fn write_fare(lines: &mut Lines, fare: &FareRec) -> Result<(), AllocError>
    ensures line { OnOk result (lines.new ≡ lines.old ++ line_of (fare_row fare.now)) }
    ensures read_back { OnOk result (ReadsBack (filed.Fare fare.now)) }
{
    let from = fare.from.text();
    let to = fare.to.text();
    let ind = fare.ind.text();
    let carrier = fare.carrier.text();
    let class = fare.class.text();
    let kind = fare.kind.text();
    let rule = fare_rule_text(fare.rule);
    let first = fare.season.first.text();
    let last = fare.season.last.text();
    let amount = fare.amount.text();
    lines.write(&[
        b"FARE".as_slice(),
        bytes_of(&from),
        bytes_of(&to),
        bytes_of(&ind),
        bytes_of(&carrier),
        bytes_of(&class),
        bytes_of(&kind),
        bytes_of(&rule),
        bytes_of(&first),
        bytes_of(&last),
        bytes_of(&amount),
    ])
}

/// Whether a surcharge is allowed.
fn excess_text(excess: bool) -> &'static [u8]
    ensures text { result.now ≡ excess_text excess }
    ensures plain { is_plain_field (excess_text excess) ≡ true }
{
    if excess { b"Y" } else { b"N" }
}

/// The line of a RULE.
pub(crate) fn write_rule(alloc: Global, lines: &mut Lines, rule: &RuleRec) -> Result<(), AllocError>
    ensures line { OnOk result (lines.new ≡ lines.old ++ line_of (rule_row rule.now)) }
    ensures read_back { OnOk result (ReadsBack (filed.Rule rule.now)) }
{
    let units = names_text(alloc, &rule.units)?;
    let ends = names_text(alloc, &rule.ends)?;
    let id = rule.id.text();
    let stops = number_text(rule.stops);
    let transfers = number_text(rule.transfers);
    let advance = number_text(rule.advance);
    let min_stay = number_text(rule.min_stay);
    let max_stay = number_text(rule.max_stay);
    lines.write(&[
        b"RULE".as_slice(),
        bytes_of(&id),
        bytes_of(&stops),
        bytes_of(&transfers),
        bytes_of(&advance),
        bytes_of(&min_stay),
        bytes_of(&max_stay),
        excess_text(rule.excess),
        units.as_slice(),
        ends.as_slice(),
    ])
}
