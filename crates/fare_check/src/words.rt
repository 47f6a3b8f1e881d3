//! The sentence of one fault.

ghost use Rattle.std.specs.Prelude.{◌≡◌, IfOk};
ghost use Rattle.fare_csv.specs.Rows.{rows_of};
ghost use Rattle.fare_check.specs.Sentences.{number_of, row_at, tariff_words};

use crate::grounds::Grounds;
use crate::reading::version_of;
use crate::records::records_of_text;
use crate::sentence::push_sentence;
use fare_csv::{Row, Rows, TextFault};
use fare_ports::NoMemory;
use fare_tariff::Filed;
use fare_text::push_labelled;
use std::alloc::Global;
use std::thread::Threads;

/// The number of the record that has a fault.
fn number_of(fault: TextFault) -> u32
    ensures { result ≡ number_of fault }
{
    match fault {
        TextFault::Memory => 0,
        TextFault::NoHeader => 1,
        TextFault::UnknownRecord(number) => number,
        TextFault::BadRecord(number, _) => number,
        TextFault::AfterEnd(number) => number,
        TextFault::NoEnd(number) => number,
        TextFault::Check(number, _) => number,
    }
}

/// The row of the record of a number; without a field where there is none.
fn row_at(alloc: Global, bytes: &[u8], number: u32) -> Result<Row, NoMemory>
    ensures { IfOk result (λ row. row ≡ row_at (rows_of bytes.now) number) }
{
    let mut rows = Rows::new(alloc, bytes);
    let mut row = Row::new(alloc);
    for at in 1..number {
        if !rows.read_row(&mut row)? {
            return Ok(Row::new(alloc));
        }
    }
    if !rows.read_row(&mut row)? {
        return Ok(Row::new(alloc));
    }
    Ok(row)
}

/// The number of the record that has a fault of a text, and the fault's sentence: `record {record}: {sentence}`. The
/// fault that is wanted is the first of this text, as the reading of its edition or `check_text` answers it: the
/// sentence is made from the record of the fault's number, and from the cities that the text files.
#[tactic(auto, unfolding(crate::specs::Sentences::tariff_words))]
pub fn tariff_words<R: Threads + Sync>(
    rt: &R,
    alloc: Global,
    bytes: &[u8],
    fault: TextFault,
) -> Result<Vec<u8>, NoMemory>
    ensures { IfOk result (λ words. words.items ≡ tariff_words bytes.now fault) }
{
    let number = number_of(fault);
    let row = row_at(alloc, bytes, number)?;
    let filed = Filed::of(rt, alloc, records_of_text(rt, alloc, bytes)?)?;
    let grounds = Grounds {
        version: version_of(alloc, bytes)?,
        filed: &filed,
    };
    let mut words = Vec::new(alloc);
    push_labelled(&mut words, b"record ", number)?;
    words.extend_from_slice(b": ")?;
    push_sentence(&mut words, &grounds, &row, fault)?;
    Ok(words)
}
