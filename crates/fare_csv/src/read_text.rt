//! The records of a text, row by row.

ghost use Rattle.std.specs.Prelude.{◌≡◌, [], ◌∷◌, ◌<◌, ◌≤◌, IfOk, Ok};
ghost use Rattle.fare_ports.specs.Memory.{Gives};
ghost use Rattle.fare_csv.specs.TariffText.{end_of, record_of, records_of, tariff_of};
ghost use Rattle.fare_csv.specs.Spelled.{is_end, is_head, spelled_tariff};
ghost use Rattle.fare_csv.specs.Rows.{rows_of};

use crate::field_list::FieldList;
use crate::head::{Version, read_head};
use crate::read_fare::read_fare;
use crate::read_plain::{
    counted, read_allowance, read_city, read_currency, read_mileage, read_pair,
};
use crate::read_rule::read_rule;
use crate::record_kind::RecordKind;
use crate::rows::{Row, Rows};
use crate::text_fault::TextFault;
use fare_codes::{Day, LAST_EDITION};
use fare_tariff::{FiledRule, Record};
use std::alloc::Global;

/// The record of a row that isn't END, by its first field, or its fault, which has this number.
pub fn read_record(
    alloc: Global,
    row: &Row,
    version: Version,
    number: u32,
) -> Result<Record, TextFault>
    ensures { Gives TextFault.Memory (λ one. one) result (record_of version number row.now) }
{
    read_fields(alloc, &row.fields(alloc)?, version, number)
}

/// The record of the fields of a row that isn't END, by the first, or its fault, which has this number.
#[tactic(auto, unfolding(crate::specs::TariffText::record_of, crate::specs::TariffText::record_of_kind))]
pub(crate) fn read_fields(
    alloc: Global,
    row: &FieldList,
    version: Version,
    number: u32,
) -> Result<Record, TextFault>
    ensures { Gives TextFault.Memory (λ one. one) result (record_of version number row.now) }
{
    let Some(kind) = RecordKind::named(row.field(0)) else {
        return Err(TextFault::UnknownRecord(number));
    };
    match kind {
        RecordKind::City => Ok(Record::City(read_city(row, number)?)),
        RecordKind::Cur => Ok(Record::Cur(read_currency(row, number)?)),
        RecordKind::Rule => {
            let rule = read_rule(alloc, row, number)?;
            Ok(Record::Rule(FiledRule::new(alloc, rule)?))
        }
        RecordKind::Fare => Ok(Record::Fare(read_fare(row, version, number)?)),
        RecordKind::Mpm => Ok(Record::Mpm(read_mileage(row, number)?)),
        RecordKind::Tpm => Ok(Record::Tpm(read_pair(row, number)?)),
        RecordKind::Ema => Ok(Record::Ema(read_allowance(row, number)?)),
    }
}

/// Whether a row is that of END, by its first field.
pub fn is_end(row: &Row) -> bool
    ensures { result ≡ is_end row.now }
{
    matches!(row.field(0), b"END")
}

/// Looks at an END row, behind which no row may stand.
#[tactic(auto, unfolding(crate::specs::TariffText::end_of, crate::specs::TariffText::nothing_after))]
fn read_end(rows: &mut Rows, row: &mut Row, number: u32) -> Result<(), TextFault>
    ensures { Gives TextFault.Memory (λ done. done) result (end_of number row.old rows.old) }
{
    counted(row, number, 1)?;
    if rows.read_row(row)? {
        return Err(TextFault::AfterEnd(number.saturating_add(1)));
    }
    Ok(())
}

/// The records between HEAD and END.
pub(crate) fn read_records(
    alloc: Global,
    rows: &mut Rows,
    version: Version,
) -> Result<Vec<Record>, TextFault>
    ensures { Gives TextFault.Memory (λ records. records.items) result (records_of version 2 rows.old) }
{
    let mut records = Vec::new(alloc);
    let mut row = Row::new(alloc);
    let mut number = 2;
    while rows.read_row(&mut row)? {
        if is_end(&row) {
            read_end(rows, &mut row, number)?;
            return Ok(records);
        }
        records.push(read_record(alloc, &row, version, number)?)?;
        number = number.saturating_add(1);
    }
    Err(TextFault::NoEnd(number))
}

/// What a text spells, before its records are checked against one another.
#[derive(Drop)]
pub struct Spelled {
    /// The number of the edition, 1 to 99,999.
    pub number: u32,
    /// The day from which the edition may be selected.
    pub effective: Day,
    /// The records between HEAD and END.
    pub records: Vec<Record>,
}

/// Whether a row is that of HEAD, by its first field.
pub fn is_head(row: &Row) -> bool
    ensures { result ≡ is_head row.now }
{
    matches!(row.field(0), b"HEAD")
}

/// HEAD and the records of a text, row by row.
#[tactic(auto, unfolding(crate::specs::TariffText::headed, crate::specs::TariffText::tariff_of))]
pub(crate) fn read_in_order(alloc: Global, bytes: &[u8]) -> Result<Spelled, TextFault>
    ensures reading { Gives TextFault.Memory spelled_tariff result (tariff_of (rows_of bytes.now)) }
    ensures range { IfOk result (λ spelled. (0 < spelled.number) × (spelled.number ≤ LAST_EDITION)) }
{
    let mut rows = Rows::new(alloc, bytes);
    let mut row = Row::new(alloc);
    if !rows.read_row(&mut row)? || !is_head(&row) {
        return Err(TextFault::NoHeader);
    }
    let head = read_head(&row)?;
    let records = read_records(alloc, &mut rows, head.version)?;
    Ok(Spelled {
        number: head.number,
        effective: head.effective,
        records,
    })
}
