//! The faults of reading: each row is read by itself, whatever faults other rows have.

ghost use Rattle.std.specs.Prelude.{◌≡◌, ◌<◌, ◌||◌, [], map, length, true, false, IfOk, OnOk};
ghost use Rattle.fare_csv.specs.Rows.{rows_of};
ghost use Rattle.fare_csv.specs.Fields.{counted};
ghost use Rattle.fare_csv.specs.TariffText.{number_after};
ghost use Rattle.fare_check.specs.CheckText.{line_of};
ghost use Rattle.fare_check.specs.Faults.{at_end, fault_in, findings_from, head_fault, of_row, reading_findings};
ghost use Rattle.fare_check.specs.Faults.{record_fault, row_fault, told_version, version_for, version_of};
ghost use Rattle.fare_csv.specs.Spelled.{is_end};
ghost use Rattle.fare_check.specs.Reports.{WasTold};

use crate::grounds::Grounds;
use crate::report::Report;
use fare_csv::{
    Row, Rows, TextFault, Version, counted, is_end, is_head, read_head, read_record, read_version,
};
use fare_ports::NoMemory;
use std::alloc::Global;

/// The version that a first row tells.
#[tactic(auto, unfolding(crate::specs::Faults::told_version))]
fn told_version(row: &Row) -> Option<Version>
    ensures { result ≡ told_version row.now }
{
    if is_head(row) {
        read_version(row.field(1))
    } else {
        None
    }
}

/// The version of a text by its first row.
pub(crate) fn version_of(alloc: Global, bytes: &[u8]) -> Result<Option<Version>, NoMemory>
    ensures { IfOk result (λ version. version ≡ version_of (rows_of bytes.now)) }
{
    let mut rows = Rows::new(alloc, bytes);
    let mut row = Row::new(alloc);
    if !rows.read_row(&mut row)? {
        return Ok(None);
    }
    Ok(told_version(&row))
}

/// The version by which a row is read.
fn version_for(version: Option<Version>, row: &Row) -> Version
    ensures { result ≡ version_for version row.now }
{
    match version {
        Some(version) => version,
        None => {
            if row.len() == 9 {
                Version::One
            } else {
                Version::Two
            }
        }
    }
}

/// The fault of the first record.
#[tactic(auto, unfolding(crate::specs::Faults::head_fault))]
fn head_fault(row: &Row) -> Option<TextFault>
    ensures { result ≡ head_fault row.now }
{
    if !is_head(row) {
        return Some(TextFault::NoHeader);
    }
    match read_head(row) {
        Ok(_) => None,
        Err(fault) => Some(fault),
    }
}

/// The fault of an END that stands behind no other.
fn end_fault(row: &Row, number: u32) -> Option<TextFault>
    ensures { result ≡ fault_in (counted number 1 row.now) }
{
    match counted(row, number, 1) {
        Ok(_) => None,
        Err(fault) => Some(fault),
    }
}

/// The fault of a later record that stands behind no END.
#[tactic(auto, unfolding(crate::specs::Faults::record_fault))]
fn record_fault(
    alloc: Global,
    version: Option<Version>,
    row: &Row,
    number: u32,
) -> Result<Option<TextFault>, NoMemory>
    ensures { IfOk result (λ fault. fault ≡ record_fault version number row.now) }
{
    if is_end(row) {
        return Ok(end_fault(row, number));
    }
    match read_record(alloc, row, version_for(version, row), number) {
        Ok(_) => Ok(None),
        Err(TextFault::Memory) => Err(NoMemory),
        Err(fault) => Ok(Some(fault)),
    }
}

/// How far a text has been read: the number of the row at hand, and whether an END stands before it.
#[derive(Clone, Copy)]
struct Reached {
    number: u32,
    ended: bool,
}

/// The fault of a row.
#[tactic(auto, unfolding(crate::specs::Faults::row_fault))]
fn row_fault(
    alloc: Global,
    version: Option<Version>,
    reached: Reached,
    row: &Row,
) -> Result<Option<TextFault>, NoMemory>
    ensures { IfOk result (λ fault. fault ≡ row_fault version reached.ended reached.number row.now) }
{
    if reached.ended {
        return Ok(Some(TextFault::AfterEnd(reached.number)));
    }
    if reached.number == 1 {
        return Ok(head_fault(row));
    }
    record_fault(alloc, version, row, reached.number)
}

/// Tells the fault of a row, if it has one.
pub(crate) fn tell_row(
    report: &mut Report,
    alloc: Global,
    grounds: &Grounds,
    row: &Row,
    fault: Option<TextFault>,
) -> Result<(), NoMemory>
    ensures { OnOk result (WasTold report.old
        (map (line_of grounds.now.version grounds.now.filed.now) (of_row row.now fault)) report.new) }
{
    match fault {
        None => Ok(()),
        Some(fault) => report.tell(alloc, grounds, row, fault),
    }
}

/// Tells that there is no END, unless there is one.
fn tell_end(
    report: &mut Report,
    alloc: Global,
    grounds: &Grounds,
    reached: Reached,
) -> Result<(), NoMemory>
    ensures { OnOk result (WasTold report.old
        (map (line_of grounds.now.version grounds.now.filed.now) (at_end reached.ended reached.number)) report.new) }
{
    if reached.ended {
        return Ok(());
    }
    report.tell_bare(alloc, grounds, TextFault::NoEnd(reached.number))
}

/// How far a text has been read behind a row.
fn behind(reached: Reached, row: &Row) -> Reached
    ensures number { result.number ≡ number_after reached.number }
    ensures ended { result.ended ≡ (reached.ended || is_end row.now) }
{
    Reached {
        number: reached.number.saturating_add(1),
        ended: reached.ended || is_end(row),
    }
}

/// Tells the faults of the rows that are left.
fn tell_rows(
    report: &mut Report,
    alloc: Global,
    grounds: &Grounds,
    rows: &mut Rows,
    first: Reached,
) -> Result<(), NoMemory>
    ensures { OnOk result (WasTold report.old (map (line_of grounds.now.version grounds.now.filed.now)
        (findings_from grounds.now.version first.ended first.number rows.old)) report.new) }
{
    let mut row = Row::new(alloc);
    let mut reached = first;
    while rows.read_row(&mut row)? {
        let fault = row_fault(alloc, grounds.version, reached, &row)?;
        tell_row(report, alloc, grounds, &row, fault)?;
        reached = behind(reached, &row);
    }
    tell_end(report, alloc, grounds, reached)
}

/// Tells the faults of reading of a text.
pub(crate) fn tell_reading(
    report: &mut Report,
    alloc: Global,
    grounds: &Grounds,
    bytes: &[u8],
) -> Result<(), NoMemory>
    requires { grounds.now.version ≡ version_of (rows_of bytes.now) }
    ensures { OnOk result (WasTold report.old
        (map (line_of grounds.now.version grounds.now.filed.now) (reading_findings (rows_of bytes.now))) report.new) }
{
    if is_empty(alloc, bytes)? {
        return report.tell_bare(alloc, grounds, TextFault::NoHeader);
    }
    let first = Reached {
        number: 1,
        ended: false,
    };
    tell_rows(report, alloc, grounds, &mut Rows::new(alloc, bytes), first)
}

/// Whether a text has no row.
fn is_empty(alloc: Global, bytes: &[u8]) -> Result<bool, NoMemory>
    ensures none { IfOk result (λ empty. empty ≡ true → rows_of bytes.now ≡ []) }
    ensures some { IfOk result (λ empty. empty ≡ false → 0 < length (rows_of bytes.now)) }
{
    let mut rows = Rows::new(alloc, bytes);
    let mut row = Row::new(alloc);
    Ok(!rows.read_row(&mut row)?)
}
