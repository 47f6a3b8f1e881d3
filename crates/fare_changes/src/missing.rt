//! The lines of the records that one edition alone has.

ghost use Rattle.std.specs.Prelude.{◌≡◌, ◌+◌, ◌<◌, ◌≤◌, [], ◌++◌, length, IfOk, OnOk, if◌then◌else◌};
ghost use Rattle.std.specs.List.{flat_map};
ghost use Rattle.fare_changes.specs.Diff.{is_missing, only_in};
ghost use Rattle.fare_changes.specs.DiffText.{marked};

use crate::held::place_of;
use fare_csv::record_line;
use fare_ports::NoMemory;
use fare_tariff::{Filed, MOST_RECORDS, Record};
use std::alloc::Global;

/// The lines of some records behind a sign, and how many they are.
#[derive(Drop)]
pub(crate) struct Lines {
    /// One line a record.
    pub text: Vec<u8>,
    /// How many records.
    pub count: u32,
    /// Where the next record may stand among the others.
    pub near: usize,
}

/// Adds the line of a record, where others don't hold it.
fn add_missing(
    lines: &mut Lines,
    alloc: Global,
    sign: &[u8],
    others: &Filed,
    one: &Record,
) -> Result<(), NoMemory>
    requires { lines.old.count < MOST_RECORDS }
    ensures text { OnOk result (lines.new.text.items ≡ lines.old.text.items
        ++ (if is_missing others.now one.now then marked sign.now one.now else [])) }
    ensures count { OnOk result (lines.new.count
        ≡ lines.old.count + (if is_missing others.now one.now then 1 else 0)) }
{
    if let Some(place) = place_of(others, one, lines.near) {
        lines.near = place.saturating_add(1);
        return Ok(());
    }
    lines.text.extend_from_slice(sign)?;
    lines
        .text
        .extend_from_slice(record_line(alloc, one)?.as_slice())?;
    lines.count += 1;
    Ok(())
}

/// The lines of the records of a list that others don't hold, behind a sign, in the order of the list.
pub(crate) fn lines_of_missing(
    alloc: Global,
    sign: &[u8],
    records: &[Record],
    others: &Filed,
) -> Result<Lines, NoMemory>
    requires { length records.now ≤ MOST_RECORDS }
    ensures text { IfOk result (λ lines. lines.text.items
        ≡ flat_map (marked sign.now) (only_in records.now others.now)) }
    ensures count { IfOk result (λ lines. lines.count ≡ length (only_in records.now others.now)) }
{
    let mut lines = Lines {
        text: Vec::new(alloc),
        count: 0,
        near: 0,
    };
    for one in records {
        add_missing(&mut lines, alloc, sign, others, one)?;
    }
    Ok(lines)
}
