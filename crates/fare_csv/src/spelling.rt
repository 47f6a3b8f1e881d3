//! HEAD and the records of a text: in pieces where each is without a fault, on all processors where the text is long;
//! else row by row.

ghost use Rattle.std.specs.Prelude.{◌≡◌, ◌<◌, ◌≤◌, IfOk, Ok};
ghost use Rattle.fare_ports.specs.Memory.{Gives};
ghost use Rattle.fare_csv.specs.Spelled.{spelled_tariff};
ghost use Rattle.fare_csv.specs.Pieces.{IsHeadAlone};
ghost use Rattle.fare_csv.specs.Rows.{rows_of};
ghost use Rattle.fare_csv.specs.TariffText.{tariff_of};

use crate::head::{Head, read_head};
use crate::pieces::{NotInPieces, behind_line, is_whole};
use crate::read_pieces::read_body;
use crate::read_text::{Spelled, is_head, read_in_order};
use crate::rows::{Row, Rows};
use crate::text_fault::TextFault;
use fare_codes::LAST_EDITION;
use std::alloc::Global;
use std::thread::Threads;

/// The HEAD of a text that has no other row.
#[tactic(auto, using(crate::proofs::PiecesRead::head_alone))]
fn read_head_alone(alloc: Global, text: &[u8]) -> Result<Head, NotInPieces>
    ensures alone { IfOk result (IsHeadAlone (rows_of text.now)) }
    ensures range { IfOk result (λ head. (0 < head.number) × (head.number ≤ LAST_EDITION)) }
{
    let mut rows = Rows::new(alloc, text);
    let mut row = Row::new(alloc);
    let mut next = Row::new(alloc);
    if !rows.read_row(&mut row)? || !is_head(&row) {
        return Err(NotInPieces);
    }
    if rows.read_row(&mut next)? {
        return Err(NotInPieces);
    }
    Ok(read_head(&row)?)
}

/// HEAD and the records of a text, in pieces.
#[tactic(auto, using(crate::proofs::PiecesRead::tariff_in_pieces))]
pub(crate) fn read_at_once<R: Threads + Sync>(
    rt: &R,
    alloc: Global,
    text: &[u8],
) -> Result<Spelled, NotInPieces>
    ensures reading { IfOk result (λ spelled. tariff_of (rows_of text.now) ≡ Ok (spelled_tariff spelled)) }
    ensures range { IfOk result (λ spelled. (0 < spelled.number) × (spelled.number ≤ LAST_EDITION)) }
{
    let (first, body) = text.split_at(behind_line(text, 0));
    if !is_whole(first) {
        return Err(NotInPieces);
    }
    let head = read_head_alone(alloc, first)?;
    let records = read_body(rt, alloc, body, head.version)?;
    Ok(Spelled {
        number: head.number,
        effective: head.effective,
        records,
    })
}

/// HEAD and the records of a text, or its first fault.
pub fn read_spelled<R: Threads + Sync>(
    rt: &R,
    alloc: Global,
    text: &[u8],
) -> Result<Spelled, TextFault>
    ensures reading { Gives TextFault.Memory spelled_tariff result (tariff_of (rows_of text.now)) }
    ensures range { IfOk result (λ spelled. (0 < spelled.number) × (spelled.number ≤ LAST_EDITION)) }
{
    match read_at_once(rt, alloc, text) {
        Ok(spelled) => Ok(spelled),
        Err(_) => read_in_order(alloc, text),
    }
}
