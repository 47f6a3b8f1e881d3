//! The faults of records beside one another: the rows of the first are read for their lines, the others are counted.

ghost use Rattle.std.specs.Prelude.{◌≡◌, ◌+◌, ◌<◌, ◌≤◌, length, map, OnOk};
ghost use Rattle.fare_csv.specs.Rows.{rows_of};
ghost use Rattle.fare_check.specs.CheckText.{line_of};
ghost use Rattle.fare_check.specs.Faults.{check_findings, check_findings_from, faulty_from};
ghost use Rattle.fare_check.specs.Reports.{WasTold};

use crate::faulty::{behind, fault_of};
use crate::grounds::Grounds;
use crate::reading::tell_row;
use crate::report::Report;
use fare_csv::{Row, Rows};
use fare_ports::NoMemory;
use fare_tariff::MOST_PLACES;
use std::alloc::Global;

/// Tells the check faults of records whose rows are left, of which these are faulty. Rows are read as far as the report
/// shows the faults of their records.
fn tell_rest(
    report: &mut Report,
    alloc: Global,
    grounds: &Grounds,
    rows: &mut Rows,
    faulty: &[u32],
) -> Result<(), NoMemory>
    requires in_limit { length grounds.now.filed.now ≤ MOST_PLACES }
    requires enough { length grounds.now.filed.now ≤ length rows.old }
    requires faulty { faulty.now ≡ faulty_from grounds.now.filed.now 0 }
    ensures { OnOk result (WasTold report.old (map (line_of grounds.now.version grounds.now.filed.now)
        (check_findings_from grounds.now.filed.now 0 grounds.now.filed.now rows.old)) report.new) }
{
    let mut row = Row::new(alloc);
    let mut left = faulty;
    for place in 0..grounds.filed.records().len() {
        if left.is_empty() {
            return Ok(());
        }
        if report.is_full() {
            return report.count_more(left.len());
        }
        if !rows.read_row(&mut row)? {
            return Ok(());
        }
        let fault = fault_of(grounds.filed, left, place);
        tell_row(report, alloc, grounds, &row, fault)?;
        left = behind(left, place);
    }
    Ok(())
}

/// Tells the check faults of the records of a text, of which these are faulty.
pub(crate) fn tell_beside(
    report: &mut Report,
    alloc: Global,
    grounds: &Grounds,
    bytes: &[u8],
    faulty: &[u32],
) -> Result<(), NoMemory>
    requires in_limit { length grounds.now.filed.now ≤ MOST_PLACES }
    requires enough { length grounds.now.filed.now < length (rows_of bytes.now) }
    requires faulty { faulty.now ≡ faulty_from grounds.now.filed.now 0 }
    ensures { OnOk result (WasTold report.old (map (line_of grounds.now.version grounds.now.filed.now)
        (check_findings grounds.now.filed.now (rows_of bytes.now))) report.new) }
{
    let mut rows = Rows::new(alloc, bytes);
    if !rows.read_row(&mut Row::new(alloc))? {
        return Ok(());
    }
    tell_rest(report, alloc, grounds, &mut rows, faulty)
}
