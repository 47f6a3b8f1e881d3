ghost use Rattle.std.specs.Prelude.{◌≡◌, ◌++◌, Ok, IfOk, OnOk};
ghost use Rattle.fare_csv.specs.Lines.{line_of};
ghost use Rattle.fare_csv.specs.ReadBack.{ReadsBack};
ghost use Rattle.fare_csv.specs.TariffText.{edition_of};
ghost use Rattle.fare_csv.specs.CanonicalText.{canonical_text, record_row};

use crate::lines::Lines;
use crate::write_record::{
    write_allowance, write_city, write_currency, write_end, write_fare, write_head, write_mileage,
    write_pair, write_rule,
};
use fare_ports::NoMemory;
use fare_tariff::{Edition, Record};
use std::alloc::{AllocError, Global};

/// The line of a record.
#[tactic(auto, unfolding(crate::specs::CanonicalText::record_row))]
fn write_record(alloc: Global, lines: &mut Lines, one: &Record) -> Result<(), AllocError>
    ensures line { OnOk result (lines.new ≡ lines.old ++ line_of (record_row one.now)) }
    ensures read_back { OnOk result (ReadsBack one.now) }
{
    match one {
        Record::City(city) => write_city(lines, city),
        Record::Cur(currency) => write_currency(lines, currency),
        Record::Rule(filed) => write_rule(alloc, lines, filed.rule()),
        Record::Fare(fare) => write_fare(lines, fare),
        Record::Mpm(mileage) => write_mileage(lines, mileage),
        Record::Tpm(pair) => write_pair(lines, pair),
        Record::Ema(allowance) => write_allowance(lines, allowance),
    }
}

/// The line of a record in the canonical text, with LF behind it.
pub fn record_line(alloc: Global, one: &Record) -> Result<Vec<u8>, NoMemory>
    ensures { IfOk result (λ text. text.items ≡ line_of (record_row one.now)) }
{
    let mut lines = Lines::new(alloc);
    write_record(alloc, &mut lines, one)?;
    Ok(lines.into_text()?)
}

/// The canonical text of an edition: the version 2 spelling of HEAD, its records in their order
/// and END, with a comma between two fields, without quotes, and LF behind each record. Read back it
/// is the edition.
pub fn edition_text(alloc: Global, edition: &Edition) -> Result<Vec<u8>, NoMemory>
    ensures text { IfOk result (λ text. text.items ≡ canonical_text edition.now) }
    ensures read_back { IfOk result (λ text. edition_of text.items ≡ Ok edition.now) }
{
    let mut lines = Lines::new(alloc);
    write_head(&mut lines, edition.number(), edition.effective())?;
    for record in edition.records() {
        write_record(alloc, &mut lines, record)?;
    }
    write_end(&mut lines)?;
    Ok(lines.into_text()?)
}
