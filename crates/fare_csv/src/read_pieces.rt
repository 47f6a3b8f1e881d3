//! The records of a text's pieces, which are read on all processors. Where a piece has a fault, the text is read in its
//! order instead: so nothing here tells one.

ghost use Rattle.std.specs.Prelude.{◌≡◌, true, Ok, IfOk, OnOk};
ghost use Rattle.std.specs.List.{AllZip};
ghost use Rattle.fare_csv.specs.Pieces.{IsRead, records_each, is_unmarked};
ghost use Rattle.fare_csv.specs.Joined.{joined};
ghost use Rattle.fare_csv.specs.Rows.{rows_of};
ghost use Rattle.fare_csv.specs.TariffText.{records_of};

use crate::field_list::FieldList;
use crate::head::Version;
use crate::pieces::{NotInPieces, is_end_alone, is_unmarked, is_whole, pieces_of};
use crate::plain_line::take_line;
use crate::read_text::{read_fields, read_record, read_records};
use crate::rows::{Row, Rows};
use fare_tariff::Record;
use rayon::prelude::*;
use std::alloc::{AllocError, Global};
use std::thread::Threads;

/// A record takes about this many bytes of its text, so that a list of records seldom grows.
const BYTES: usize = 24;

/// The records of rows that are left.
fn read_each(
    alloc: Global,
    rows: &mut Rows,
    version: Version,
    room: usize,
) -> Result<Vec<Record>, NotInPieces>
    ensures { IfOk result (λ records. records_each version rows.old ≡ Ok records.items) }
{
    let mut records = Vec::with_capacity(alloc, room)?;
    let mut row = Row::new(alloc);
    while rows.read_row(&mut row)? {
        records.push(read_record(alloc, &row, version, 2)?)?;
    }
    Ok(records)
}

/// The records of a piece whose lines are all plain.
fn read_plain(alloc: Global, piece: &[u8], version: Version) -> Result<Vec<Record>, NotInPieces>
    ensures { IfOk result (λ records. IsRead version piece.now records.items) }
{
    if !is_unmarked(piece) {
        return Err(NotInPieces);
    }
    let mut records = Vec::with_capacity(alloc, piece.len() / BYTES)?;
    let mut row = FieldList::new(alloc);
    let mut left = piece;
    while !left.is_empty() {
        left = take_line(left, &mut row)?;
        records.push(read_fields(alloc, &row, version, 2)?)?;
    }
    Ok(records)
}

/// The records of a piece that has other lines too.
fn read_any(alloc: Global, piece: &[u8], version: Version) -> Result<Vec<Record>, NotInPieces>
    ensures { IfOk result (λ records. IsRead version piece.now records.items) }
{
    if !is_whole(piece) {
        return Err(NotInPieces);
    }
    let mut rows = Rows::new(alloc, piece);
    read_each(alloc, &mut rows, version, piece.len() / BYTES)
}

/// The records of a piece.
fn read_piece(alloc: Global, piece: &[u8], version: Version) -> Result<Vec<Record>, NotInPieces>
    ensures { IfOk result (λ records. IsRead version piece.now records.items) }
{
    match read_plain(alloc, piece, version) {
        Ok(records) => Ok(records),
        Err(_) => read_any(alloc, piece, version),
    }
}

/// The records of each piece.
fn read_pieces<R: Threads + Sync>(
    rt: &R,
    alloc: Global,
    pieces: &[&[u8]],
    version: Version,
) -> Result<Vec<Result<Vec<Record>, NotInPieces>>, AllocError>
    ensures { IfOk result (λ read. AllZip
        (λ piece found. IfOk found (λ records. IsRead version piece.now records.items)) pieces.now read.items) }
{
    pieces
        .par_iter()
        .with_min_len(1)
        .map(
            |piece: &&[u8]| -> Result<Vec<Record>, NotInPieces>
                ensures { IfOk result (λ records. IsRead version piece.now.now records.items) }
            { read_piece(alloc, *piece, version) },
        )
        .collect(rt, alloc)
}

/// The records of all pieces in one list.
fn joined(
    alloc: Global,
    room: usize,
    read: Vec<Result<Vec<Record>, NotInPieces>>,
) -> Result<Vec<Record>, NotInPieces>
    ensures { IfOk result (λ records. joined read.items ≡ Ok records.items) }
{
    let mut records = Vec::with_capacity(alloc, room)?;
    for found in read {
        let mut more = found?;
        records.append(&mut more)?;
    }
    Ok(records)
}

/// The records up to END of what is left of a text behind its pieces, which most often is just END.
#[tactic(auto, using(crate::proofs::PiecesRead::none_before_end))]
fn read_last(alloc: Global, left: &[u8], version: Version) -> Result<Vec<Record>, NotInPieces>
    ensures { IfOk result (λ records. records_of version 2 (rows_of left.now) ≡ Ok records.items) }
{
    if is_end_alone(left) {
        return Ok(Vec::new(alloc));
    }
    let mut rows = Rows::new(alloc, left);
    Ok(read_records(alloc, &mut rows, version)?)
}

/// The records of a text behind its HEAD.
pub(crate) fn read_body<R: Threads + Sync>(
    rt: &R,
    alloc: Global,
    text: &[u8],
    version: Version,
) -> Result<Vec<Record>, NotInPieces>
    ensures reading { IfOk result (λ records. records_of version 2 (rows_of text.now) ≡ Ok records.items) }
    ensures unmarked { OnOk result (is_unmarked text.now ≡ true) }
{
    let cut = pieces_of(alloc, text)?;
    if !is_unmarked(cut.left) {
        return Err(NotInPieces);
    }
    let read = read_pieces(rt, alloc, cut.pieces.as_slice(), version)?;
    let mut records = joined(alloc, text.len() / BYTES, read)?;
    let mut last = read_last(alloc, cut.left, version)?;
    records.append(&mut last)?;
    Ok(records)
}
