//! The check of a tariff text.

ghost use Rattle.std.specs.Prelude.{◌≡◌, ◌≤◌, Ok, length, IfOk, IsOk, IsErr};
ghost use Rattle.fare_csv.specs.Rows.{rows_of};
ghost use Rattle.fare_csv.specs.Spelled.{spelled_tariff};
ghost use Rattle.fare_csv.specs.TariffText.{edition_of, tariff_of};
ghost use Rattle.fare_check.specs.Faults.{fault_in, faults_of, faulty_from, filed_records, first_of};
ghost use Rattle.fare_check.specs.CheckText.{check_text, checked_line, finding_lines, lines_text};

use crate::beside::tell_beside;
use crate::faulty::{faulty_places, first_fault};
use crate::grounds::Grounds;
use crate::reading::{tell_reading, version_of};
use crate::report::Report;
use fare_codes::Day;
use fare_csv::{Spelled, TextFault, read_spelled};
use fare_ports::NoMemory;
use fare_tariff::{Filed, MOST_PLACES};
use fare_text::{push_code, push_labelled, push_whole};
use std::alloc::Global;
use std::thread::Threads;

/// What the check of a tariff text answers.
#[derive(Drop)]
pub struct Checked {
    /// The first fault of the text, which is the one that reading its edition answers; nothing exactly where the text
    /// stands for an edition.
    pub fault: Option<TextFault>,
    /// The check text: a line for each of the first 100 faults and how many more there are; without a fault `CHECKED`
    /// with the edition's number, its effective day and how many records it has.
    pub text: Vec<u8>,
}

/// The text of an edition without a fault.
#[tactic(auto, unfolding(crate::specs::CheckText::checked_line))]
fn checked_line(
    alloc: Global,
    number: u32,
    effective: Day,
    filed: &Filed,
) -> Result<Vec<u8>, NoMemory>
    ensures { IfOk result (λ text. text.items
        ≡ checked_line (record { number = number; effective = effective; records = filed.now })) }
{
    let mut text = Vec::new(alloc);
    push_labelled(&mut text, b"CHECKED ", number)?;
    text.push(b' ')?;
    push_code(&mut text, &effective.text())?;
    text.push(b' ')?;
    push_whole(&mut text, filed.records().len() as u128)?;
    text.push(b'\n')?;
    Ok(text)
}

/// The lines of the faults of a text whose records can't all be read.
fn reading_lines<R: Threads + Sync>(
    rt: &R,
    alloc: Global,
    bytes: &[u8],
) -> Result<Vec<u8>, NoMemory>
    requires { IsErr (tariff_of (rows_of bytes.now)) }
    ensures { IfOk result (λ text. text.items ≡ lines_text (finding_lines (rows_of bytes.now))) }
{
    let version = version_of(alloc, bytes)?;
    let filed = Filed::of(rt, alloc, Vec::new(alloc))?;
    let grounds = Grounds {
        version,
        filed: &filed,
    };
    let mut report = Report::new(alloc);
    tell_reading(&mut report, alloc, &grounds, bytes)?;
    report.into_text()
}

/// The lines of the faults of a text whose records can be read, of which these are faulty.
fn beside_lines(
    alloc: Global,
    bytes: &[u8],
    filed: &Filed,
    faulty: &[u32],
) -> Result<Vec<u8>, NoMemory>
    requires read { IsOk (tariff_of (rows_of bytes.now)) }
    requires records { filed.now ≡ filed_records (rows_of bytes.now) }
    requires in_limit { length filed.now ≤ MOST_PLACES }
    requires faulty { faulty.now ≡ faulty_from filed.now 0 }
    ensures { IfOk result (λ text. text.items ≡ lines_text (finding_lines (rows_of bytes.now))) }
{
    let version = version_of(alloc, bytes)?;
    let grounds = Grounds { version, filed };
    let mut report = Report::new(alloc);
    tell_beside(&mut report, alloc, &grounds, bytes, faulty)?;
    report.into_text()
}

/// Every fault of a text that spells these records: the records are tested on all processors, and the rows are read
/// again only as far as faults are shown.
fn check_spelled<R: Threads + Sync>(
    rt: &R,
    alloc: Global,
    bytes: &[u8],
    spelled: Spelled,
) -> Result<Checked, NoMemory>
    requires { tariff_of (rows_of bytes.now) ≡ Ok (spelled_tariff spelled) }
    ensures text { IfOk result (λ checked. checked.text.items ≡ check_text bytes.now) }
    ensures fault { IfOk result (λ checked. checked.fault ≡ fault_in (edition_of bytes.now)) }
{
    let number = spelled.number;
    let effective = spelled.effective;
    let filed = Filed::of(rt, alloc, spelled.records)?;
    let faulty = faulty_places(rt, alloc, &filed)?;
    match first_fault(&filed, faulty.as_slice()) {
        None => Ok(Checked {
            fault: None,
            text: checked_line(alloc, number, effective, &filed)?,
        }),
        Some(fault) => Ok(Checked {
            fault: Some(fault),
            text: beside_lines(alloc, bytes, &filed, faulty.as_slice())?,
        }),
    }
}

/// Every fault of a tariff text at once. Only want of memory is refused.
pub fn check_text<R: Threads + Sync>(
    rt: &R,
    alloc: Global,
    bytes: &[u8],
) -> Result<Checked, NoMemory>
    ensures text { IfOk result (λ checked. checked.text.items ≡ check_text bytes.now) }
    ensures fault { IfOk result (λ checked. checked.fault ≡ fault_in (edition_of bytes.now)) }
    ensures first { IfOk result (λ checked. checked.fault ≡ first_of (faults_of bytes.now)) }
{
    match read_spelled(rt, alloc, bytes) {
        Ok(spelled) => check_spelled(rt, alloc, bytes, spelled),
        Err(TextFault::Memory) => Err(NoMemory),
        Err(fault) => Ok(Checked {
            fault: Some(fault),
            text: reading_lines(rt, alloc, bytes)?,
        }),
    }
}

/// The first of a text's faults is the one that reading its edition answers, and there is none exactly where the text
/// stands for an edition. It takes no memory, and running it changes nothing.
pub fn first_fault_is_the_editions(bytes: &[u8])
    ensures { first_of (faults_of bytes.now) ≡ fault_in (edition_of bytes.now) }
{
    let _ = bytes.len();
}
