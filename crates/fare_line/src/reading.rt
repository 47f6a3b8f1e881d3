//! The line that a whole text spells.

ghost use Rattle.std.specs.Prelude.{◌≡◌, true, Ok, IfOk, IfErr};
ghost use Rattle.fare_line.specs.reader.Reading.{Gives};
ghost use Rattle.fare_line.specs.reader.Draft.{Allowed, line_at, line_from, piece_at, start, whole_line};
ghost use Rattle.fare_line.specs.Line.{CalculationLine, is_line};
ghost use Rattle.fare_line.specs.LineText.{line_text};
ghost use Rattle.fare_line.specs.LongestFront.{IsLongestFront};

mod byte_kind;
mod cursor;
mod draft;
mod marks;
mod next;
mod numbers;
mod pieces;

use crate::line::Line;
use crate::reading::cursor::Cursor;
use crate::reading::draft::Draft;
use crate::reading::pieces::Piece;
use fare_codes::City;

/// Bytes that are no line. The number says how many of the first ones begin the text of some line; no more of them do.
#[derive(Clone, Copy, Debug, PartialEq, Eq)]
pub struct BadLine(pub u32);

/// A line has no more pieces behind its first city.
const MOST_PIECES: u8 = 50;

impl Cursor<'_> {
    /// The piece that stands next, which is one that may come next.
    #[tactic(auto, using(crate::proofs::PieceAt::piece_allowed))]
    fn next_piece(&mut self, draft: &Draft) -> Result<Piece, usize>
        ensures reading { Gives result self.new.rest.now (piece_at draft.now self.old.rest.now) }
        ensures allowed { IfOk result (λ piece. Allowed draft.now piece) }
    {
        draft.law();
        self.piece(draft)
    }

    /// The line behind its first city.
    fn line_from(&mut self, from: City) -> Result<Line, usize>
        ensures { Gives result self.new.rest.now (line_from 50 (start from) self.old.rest.now) }
    {
        let mut draft = Draft::new(from);
        for _ in 0..MOST_PIECES {
            let piece = self.next_piece(&draft)?;
            if let Piece::End(totals) = piece {
                return Ok(draft.finish(totals));
            }
            draft.push(piece);
        }
        Err(self.rest.len())
    }

    /// A line.
    #[tactic(auto, unfolding(crate::specs::reader::Draft::line_at))]
    fn line(&mut self) -> Result<Line, usize>
        ensures { Gives result self.new.rest.now (line_at self.old.rest.now) }
    {
        let from = self.spaced_city()?;
        self.line_from(from)
    }
}

/// The line that all of a text spells, or how many bytes are left where no line goes on.
#[tactic(auto, unfolding(crate::specs::reader::Draft::whole_line))]
fn whole_line(bytes: &[u8]) -> Result<Line, usize>
    ensures { result ≡ whole_line bytes.now }
{
    let mut cursor = Cursor { rest: bytes };
    let line = cursor.line()?;
    if cursor.rest.is_empty() {
        Ok(line)
    } else {
        Err(cursor.rest.len())
    }
}

/// The line that bytes spell. `BadLine` comes exactly where they are the text of no line.
pub fn read_line(bytes: &[u8]) -> Result<Line, BadLine>
    // What is read is a line, and the bytes are its text.
    ensures found { IfOk result (λ line. (is_line line ≡ true) × (line_text line ≡ bytes.now)) }
    // The text of each line is read.
    ensures only { (line : CalculationLine) → is_line line ≡ true → line_text line ≡ bytes.now → result ≡ Ok line }
    // How far bytes that are no line could have become one.
    ensures bad { IfErr result (λ bad. IsLongestFront bytes.now bad.0) }
{
    match whole_line(bytes) {
        Ok(line) => Ok(line),
        Err(left) => Err(BadLine((bytes.len() - left) as u32)),
    }
}

/// The text of a line stands for no other one.
pub fn text_tells()
    ensures { (a b : CalculationLine) → is_line a ≡ true → is_line b ≡ true → line_text a ≡ line_text b → a ≡ b }
{}
