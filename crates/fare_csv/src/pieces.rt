//! A text cut into pieces of whole lines, of which each is read by itself.

ghost use Rattle.std.specs.Prelude.{◌≡◌, ◌≤◌, ◌++◌, map, codes, length, IfOk};
ghost use Rattle.std.specs.Str.{bytes_eq};
ghost use Rattle.std.specs.List.{concat, list_all};
ghost use Rattle.fare_csv.specs.Pieces.{ends_a_line, is_unmarked, is_unquoted, is_whole};

use crate::text_fault::TextFault;
use std::alloc::{AllocError, AllocFailed, Global};

/// A text isn't read in pieces: it can't be cut into whole lines, a piece has a fault, or memory is wanting. Read in
/// its order, it tells which.
#[derive(Clone, Copy, Debug, PartialEq, Eq)]
pub(crate) struct NotInPieces;

impl From<AllocError> for NotInPieces {
    fn from(_: AllocError) -> NotInPieces {
        NotInPieces
    }
}

impl From<TextFault> for NotInPieces {
    fn from(_: TextFault) -> NotInPieces {
        NotInPieces
    }
}

impl<T: Drop> From<AllocFailed<T>> for NotInPieces {
    fn from(_: AllocFailed<T>) -> NotInPieces {
        NotInPieces
    }
}

/// A text of fewer bytes is read in one piece sooner than threads begin.
const LONG: usize = 262_144;

/// How many pieces a long text is cut into.
const PIECES: usize = 64;

/// About how many bytes at the end of a long text stay behind its pieces, so that END is in none of them.
const LEFT: usize = 4_096;

/// The line of END.
const END: &[u8] = b"END\n";

/// Whether a text is just the line of END.
pub(crate) fn is_end_alone(text: &[u8]) -> bool
    ensures { result ≡ bytes_eq text.now (codes "END\n") }
{
    text == END
}

/// Whether a text doesn't begin as a byte order mark does.
#[tactic(auto, unfolding(crate::specs::Pieces::is_unmarked))]
pub(crate) fn is_unmarked(text: &[u8]) -> bool
    ensures { result ≡ is_unmarked text.now }
{
    match text.first() {
        None => true,
        Some(byte) => *byte != 0xEF,
    }
}

/// Whether a text is empty or ends with a line feed.
#[tactic(auto, unfolding(crate::specs::Pieces::ends_a_line))]
fn ends_a_line(text: &[u8]) -> bool
    ensures { result ≡ ends_a_line text.now }
{
    match text.last() {
        None => true,
        Some(byte) => *byte == b'\n',
    }
}

/// Whether a text has no quotation mark.
fn is_unquoted(text: &[u8]) -> bool
    ensures { result ≡ list_all is_unquoted text.now }
{
    !text.contains(&b'"')
}

/// Whether a text is of whole lines that can be read by themselves.
#[tactic(auto, unfolding(crate::specs::Pieces::is_whole))]
pub(crate) fn is_whole(text: &[u8]) -> bool
    ensures { result ≡ is_whole text.now }
{
    is_unmarked(text) && (ends_a_line(text) && is_unquoted(text))
}

/// The place behind the first line feed of a text from a place on; its end where there is none.
pub(crate) fn behind_line(text: &[u8], from: usize) -> usize
    ensures { result ≤ length text.now }
{
    if from >= text.len() {
        return text.len();
    }
    match text[from..].iter().position(|byte| *byte == b'\n') {
        None => text.len(),
        Some(at) => from + at + 1,
    }
}

/// A text in pieces, and what is left of it behind them.
#[derive(Drop)]
pub(crate) struct Pieces<'a> {
    pub(crate) pieces: Vec<&'a [u8]>,
    pub(crate) left: &'a [u8],
}

/// All of a text but the line of END, as one piece.
fn one_piece<'a>(alloc: Global, text: &'a [u8]) -> Result<Pieces<'a>, NotInPieces>
    ensures { IfOk result (λ cut. concat (map (λ piece. piece.now) cut.pieces.items) ++ cut.left.now ≡ text.now) }
{
    let (piece, left) = text.split_at(text.len().saturating_sub(END.len()));
    let mut pieces = Vec::with_capacity(alloc, 1)?;
    pieces.push(piece)?;
    Ok(Pieces { pieces, left })
}

/// The pieces of a long text, about equally long, each to the end of a line where there is one.
#[tactic(auto, using(crate::proofs::PiecesCut::cut_further))]
fn many_pieces<'a>(alloc: Global, text: &'a [u8]) -> Result<Pieces<'a>, NotInPieces>
    ensures { IfOk result (λ cut. concat (map (λ piece. piece.now) cut.pieces.items) ++ cut.left.now ≡ text.now) }
{
    let mut pieces = Vec::with_capacity(alloc, PIECES)?;
    let mut left = text;
    let size = text.len().saturating_sub(LEFT) / PIECES;
    for _ in 0..PIECES {
        let (piece, more) = left.split_at(behind_line(left, size));
        pieces.push(piece)?;
        left = more;
    }
    Ok(Pieces { pieces, left })
}

/// The pieces of a text.
pub(crate) fn pieces_of<'a>(alloc: Global, text: &'a [u8]) -> Result<Pieces<'a>, NotInPieces>
    ensures { IfOk result (λ cut. concat (map (λ piece. piece.now) cut.pieces.items) ++ cut.left.now ≡ text.now) }
{
    if text.len() < LONG {
        one_piece(alloc, text)
    } else {
        many_pieces(alloc, text)
    }
}
