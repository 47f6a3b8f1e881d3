//! The line of a fault.

ghost use Rattle.std.specs.Prelude.{◌≡◌, ◌<◌, ◌++◌, map, take, codes, Some, None, OnOk, IfOk, if◌then◌else◌, ◌==◌, []};
ghost use Rattle.std.specs.Prelude.{◌∷◌};
ghost use Rattle.std.specs.List.{join_with_byte};
ghost use Rattle.fare_csv.specs.FaultText.{fault_text};
ghost use Rattle.fare_check.specs.Sentences.{sentence};
ghost use Rattle.fare_check.specs.CheckText.{line_of, record_text, row_text, shown_byte};

use crate::grounds::Grounds;
use crate::report::MOST_BYTES;
use crate::sentence::push_sentence;
use fare_csv::{Row, TextFault};
use fare_ports::NoMemory;
use std::alloc::{AllocError, Global};

/// A byte as a line shows it.
fn shown_byte(byte: u8) -> u8
    ensures { result ≡ shown_byte byte }
{
    if byte >= 32 && byte <= 126 {
        byte
    } else {
        b'?'
    }
}

/// Adds the comma in front of a field that isn't the first.
fn separate(text: &mut Vec<u8>, index: usize) -> Result<(), AllocError>
    ensures { OnOk result (text.new.items ≡ (if index == 0 then text.old.items else text.old.items ++ 44 ∷ [])) }
{
    if index > 0 {
        text.push(b',')?;
    }
    Ok(())
}

/// The fields of a row, joined by commas.
fn joined(alloc: Global, row: &Row) -> Result<Vec<u8>, AllocError>
    ensures { IfOk result (λ text. text.items ≡ join_with_byte 44 row.now) }
{
    let mut text = Vec::new(alloc);
    for i in 0..row.len() {
        separate(&mut text, i)?;
        text.extend_from_slice(row.field(i))?;
    }
    Ok(text)
}

/// The text of a record, as far as a line shows it.
#[tactic(auto, unfolding(crate::specs::CheckText::record_text))]
fn record_text(alloc: Global, row: &Row) -> Result<Vec<u8>, AllocError>
    ensures { IfOk result (λ text. text.items ≡ record_text row.now) }
{
    let whole = joined(alloc, row)?;
    shown(alloc, whole.as_slice())
}

/// The first bytes of a text, as far as a line shows them.
fn shown(alloc: Global, text: &[u8]) -> Result<Vec<u8>, AllocError>
    ensures { IfOk result (λ shown. shown.items ≡ map shown_byte (take MOST_BYTES text.now)) }
{
    text.iter()
        .take(MOST_BYTES)
        .map(|byte| shown_byte(*byte))
        .collect(alloc)
}

/// Appends what a line has behind the text of its record. After want of memory the text may hold a part of it.
fn push_rest(
    text: &mut Vec<u8>,
    grounds: &Grounds,
    row: &Row,
    fault: TextFault,
) -> Result<(), NoMemory>
    ensures { OnOk result (text.new.items
        ≡ text.old.items ++ codes "  "
        ++ sentence grounds.now.version grounds.now.filed.now row.now fault ++ codes "\n") }
{
    text.extend_from_slice(b"  ")?;
    push_sentence(text, grounds, row, fault)?;
    Ok(text.push(b'\n')?)
}

/// Appends the text of a fault, as the first words of a line.
fn push_fault(text: &mut Vec<u8>, fault: TextFault) -> Result<(), NoMemory>
    ensures { OnOk result (text.new.items ≡ text.old.items ++ fault_text fault) }
{
    Ok(text.extend_from_slice(fault.text().as_str().as_bytes())?)
}

/// Appends the line of a fault that the record of a row has. After want of memory the text may hold a part of it.
#[tactic(auto, unfolding(crate::specs::CheckText::line_of))]
pub(crate) fn push_line(
    text: &mut Vec<u8>,
    alloc: Global,
    grounds: &Grounds,
    row: &Row,
    fault: TextFault,
) -> Result<(), NoMemory>
    ensures { OnOk result (text.new.items ≡ text.old.items
        ++ line_of grounds.now.version grounds.now.filed.now (record { fault = fault; row = Some row.now })) }
{
    push_fault(text, fault)?;
    text.extend_from_slice(b"  ")?;
    text.extend_from_slice(record_text(alloc, row)?.as_slice())?;
    push_rest(text, grounds, row, fault)
}

/// Appends the line of a fault that no record has. After want of memory the text may hold a part of it.
#[tactic(auto, unfolding(crate::specs::CheckText::line_of))]
pub(crate) fn push_bare_line(
    text: &mut Vec<u8>,
    alloc: Global,
    grounds: &Grounds,
    fault: TextFault,
) -> Result<(), NoMemory>
    ensures { OnOk result (text.new.items ≡ text.old.items
        ++ line_of grounds.now.version grounds.now.filed.now (record { fault = fault; row = None })) }
{
    push_fault(text, fault)?;
    push_rest(text, grounds, &Row::new(alloc), fault)
}
